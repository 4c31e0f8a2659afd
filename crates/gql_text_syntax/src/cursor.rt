//! A cursor over the tokens of a text.

ghost use Rattle.std.specs.Prelude.{◌≡◌, ◌≤◌, ◌∷◌, [], ◌++◌, true, false, length, IfOk};
ghost use Rattle.gql_grammar.specs.Form.{among, starts, one_at, opt, refused_at, place, only_end};
ghost use Rattle.gql_text_lexer.specs.Forms.{IsName};
ghost use Rattle.gql_text_lexer.specs.Tokens.{lexeme_of};
ghost use Rattle.gql_text_syntax.specs.Cursor.{terminals_at, end_here, left_by, FitsKind, FitsSort};
ghost use Rattle.gql_text_syntax.specs.Reads.{Fails, ReadsTerminal, ReadsOptional, terminal, one_if};
ghost use Rattle.gql_text_syntax.specs.Sorts as sorts;
ghost use Rattle.gql_text_syntax.specs.declared.sort.Sort.TheVariants.{Location};

use crate::sort::{Sort, sort_of};
use crate::stopped::Stopped;
use gql_text_lexer::{Token, next_token};
use std::marker::Model;

/// A token with its sort, or what stands after the tokens.
#[derive(Clone, Copy, Debug)]
pub struct Terminal<'t> {
    pub sort: Sort,
    pub text: &'t str,
    pub at: usize,
}

/// The terminals that are left: the next one, and those that are cut from the text after it.
#[derive(Drop)]
pub struct Cursor<'t> {
    here: Terminal<'t>,
    text: &'t str,
    after: usize,
}

impl<'t> Model for Cursor<'t> {
    ghost use Rattle.std.specs.Prelude.{List};
    ghost use Rattle.std.specs.Coded.{coded_list};
    ghost use Rattle.gql_grammar.specs.Form.{Terminal};
    ghost use Rattle.gql_text_syntax.specs.Cursor.{terminal_code, left_of, IsReady};

    ghost Value = { List Terminal };

    ghost coded = { coded_list terminal_code };

    ghost view = { left_of };

    ghost invariant = { IsReady };
}

/// A token with its sort.
fn sorted<'t>(token: &Token<'t>) -> Terminal<'t>
    requires { FitsKind token.now.kind token.now.text.now }
    ensures terminal { terminal result ≡ sorts.terminal_of (lexeme_of token.now) }
    ensures fits { FitsSort result }
    ensures proper { among (sorts.code result.sort) sorts.ends ≡ false }
{
    Terminal {
        sort: sort_of(token.kind, token.text),
        text: token.text,
        at: token.at,
    }
}

/// What stands at this place, where the tokens end.
fn end_at<'t>(text: &str, at: usize) -> Terminal<'t>
    ensures terminal { terminal result ≡ end_here text.now at }
    ensures fits { FitsSort result }
    ensures end { among (sorts.code result.sort) sorts.ends ≡ true }
{
    let sort = if at < text.len() {
        Sort::NoToken
    } else {
        Sort::End
    };
    Terminal { sort, text: "", at }
}

/// The first terminal at this place or after it, and the place after it.
fn next<'t>(text: &'t str, at: usize) -> (Terminal<'t>, usize)
    requires { at ≤ length text.now }
    ensures here { FitsSort result.0 }
    ensures within { result.1 ≤ length text.now }
    ensures all { left_by result.0 text.now result.1 ≡ terminals_at text.now at }
{
    let (token, after) = next_token(text, at);
    match token {
        Some(token) => (sorted(&token), after),
        None => (end_at(text, after), after),
    }
}

impl<'t> Cursor<'t> {
    /// A cursor before the first of the tokens of a text.
    pub fn new(text: &'t str) -> Cursor<'t>
        ensures { result ≡ terminals_at text.now 0 }
    {
        let (here, after) = next(text, 0);
        Cursor { here, text, after }
    }

    fn take(&mut self) -> Terminal<'t>
        requires { starts sorts.ends self.old ≡ false }
        ensures next { self.old ≡ terminal result ∷ self.new }
        ensures fits { FitsSort result }
    {
        let taken = self.here;
        let (here, after) = next(self.text, self.after);
        self.here = here;
        self.after = after;
        taken
    }

    /// Takes the next terminal, where it is to be taken.
    fn take_if(&mut self, there: bool) -> Result<Terminal<'t>, Stopped>
        requires { there ≡ true → starts sorts.ends self.old ≡ false }
        ensures reads { ReadsTerminal (one_if there self.old) result self.new }
        ensures fits { IfOk result FitsSort }
    {
        if there {
            Ok(self.take())
        } else {
            Err(Stopped::Syntax(self.here.at))
        }
    }

    /// The place of the next terminal.
    pub fn at(&self) -> usize
        ensures { result ≡ place self.now }
    {
        self.here.at
    }

    /// Whether only the end of the text is left.
    pub fn is_done(&self) -> bool
        ensures { result ≡ only_end self.now }
    {
        matches!(self.here.sort, Sort::End)
    }

    /// Whether a terminal of this sort is next.
    pub fn sees(&self, sort: Sort) -> bool
        ensures { result ≡ starts (sorts.only sort) self.now }
    {
        self.here.sort.is(sort)
    }

    /// Whether a name is next, section 2.1.9.
    pub fn sees_name(&self) -> bool
        ensures { result ≡ starts sorts.names self.now }
    {
        self.here.sort.is_name()
    }

    /// Whether a string is next, section 2.9.4.
    pub fn sees_string(&self) -> bool
        ensures { result ≡ starts sorts.strings self.now }
    {
        self.here.sort.is_string()
    }

    /// Whether a value of one token is next.
    pub fn sees_leaf(&self) -> bool
        ensures { result ≡ starts sorts.leaves self.now }
    {
        self.here.sort.is_leaf()
    }

    /// Whether a number that no value here holds is next: a float, or one beyond 64 bits.
    pub fn sees_refused_number(&self) -> bool
        ensures { result ≡ starts sorts.refused_numbers self.now }
    {
        self.here.sort.is_refused_number()
    }

    /// Whether a value begins here.
    pub fn sees_value(&self) -> bool
        ensures { result ≡ starts sorts.values self.now }
    {
        self.here.sort.is_value()
    }

    /// Whether a field or an argument begins here.
    pub fn sees_member(&self) -> bool
        ensures { result ≡ starts sorts.members self.now }
    {
        self.here.sort.is_member()
    }

    /// Whether an enum value's definition begins here.
    pub fn sees_enum_member(&self) -> bool
        ensures { result ≡ starts sorts.enum_members self.now }
    {
        self.here.sort.is_enum_member()
    }

    /// Whether the word of a kind of operations is next, section 2.3.
    pub fn sees_operation(&self) -> bool
        ensures { result ≡ starts sorts.operations self.now }
    {
        self.here.sort.is_operation()
    }

    /// Whether a definition begins here.
    pub fn sees_definition(&self) -> bool
        ensures { result ≡ starts sorts.definitions self.now }
    {
        self.here.sort.is_definition()
    }

    /// Takes the next terminal, where it is of this sort.
    pub fn expect(&mut self, sort: Sort) -> Result<Terminal<'t>, Stopped>
        requires { among (sorts.code sort) sorts.ends ≡ false }
        ensures reads { ReadsTerminal (one_at (sorts.only sort) self.old) result self.new }
        ensures fits { IfOk result FitsSort }
    {
        self.take_if(self.here.sort.is(sort))
    }

    /// Takes the next terminal, where it is a name.
    pub fn name(&mut self) -> Result<Terminal<'t>, Stopped>
        ensures reads { ReadsTerminal (one_at sorts.names self.old) result self.new }
        ensures name { IfOk result (λ t. IsName t.text.now) }
    {
        self.take_if(self.here.sort.is_name())
    }

    /// Takes the next terminal, where it is a name that an enum value may have, section 2.9.6.
    pub fn enum_name(&mut self) -> Result<Terminal<'t>, Stopped>
        ensures reads { ReadsTerminal (one_at sorts.enum_names self.old) result self.new }
        ensures name { IfOk result (λ t. IsName t.text.now) }
    {
        self.take_if(self.here.sort.is_enum_name())
    }

    /// Takes the next terminal, where it is a location of directives, section 3.13.
    pub fn location(&mut self) -> Result<Terminal<'t>, Stopped>
        ensures reads { ReadsTerminal (one_at (sorts.only Location) self.old) result self.new }
        ensures name { IfOk result (λ t. IsName t.text.now) }
    {
        self.take_if(self.here.sort.is(Sort::Location))
    }

    /// Takes the next terminal, where it is a string.
    pub fn string(&mut self) -> Result<Terminal<'t>, Stopped>
        ensures { ReadsTerminal (one_at sorts.strings self.old) result self.new }
    {
        self.take_if(self.here.sort.is_string())
    }

    /// Takes the next terminal, where it is the word of a kind of operations.
    pub fn operation(&mut self) -> Result<Terminal<'t>, Stopped>
        ensures { ReadsTerminal (one_at sorts.operations self.old) result self.new }
    {
        self.take_if(self.here.sort.is_operation())
    }

    /// A terminal of this sort, if it is the next one.
    pub fn optional(&mut self, sort: Sort) -> Option<Terminal<'t>>
        requires { among (sorts.code sort) sorts.ends ≡ false }
        ensures { ReadsOptional ((opt (sorts.token sort)).read self.old) result self.new }
    {
        if self.sees(sort) {
            Some(self.take())
        } else {
            None
        }
    }

    /// Why nothing is read here, where a limit refuses this sort.
    pub fn refused(&self, sort: Sort) -> Stopped
        ensures { Fails (refused_at {A = Unit {0}} (sorts.only sort) self.now) result }
    {
        if self.here.sort.is(sort) {
            Stopped::Refused(self.here.sort, self.here.at)
        } else {
            Stopped::Syntax(self.here.at)
        }
    }

    /// Why nothing is read here, where a limit refuses a list or an object.
    pub fn refused_nest(&self) -> Stopped
        ensures { Fails (refused_at {A = Unit {0}} sorts.nests self.now) result }
    {
        if self.here.sort.is_nest() {
            Stopped::Refused(self.here.sort, self.here.at)
        } else {
            Stopped::Syntax(self.here.at)
        }
    }

    /// Why nothing is read here, where a limit refuses a number.
    pub fn refused_number(&self) -> Stopped
        ensures { Fails (refused_at {A = Unit {0}} sorts.refused_numbers self.now) result }
    {
        if self.here.sort.is_refused_number() {
            Stopped::Refused(self.here.sort, self.here.at)
        } else {
            Stopped::Syntax(self.here.at)
        }
    }
}
