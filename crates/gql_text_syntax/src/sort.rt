//! The sorts of tokens.

ghost use Rattle.std.specs.Prelude.{◌≡◌, ◌==◌, ◌∷◌, []};
ghost use Rattle.gql_grammar.specs.Form.{among};
ghost use Rattle.gql_text_lexer.specs.Forms.{IsWhole};
ghost use Rattle.gql_text_lexer.specs.declared.token.TokenKind.TheVariants as token_kind;
ghost use Rattle.gql_text_syntax.specs.Sorts as spec;
ghost use Rattle.gql_text_syntax.specs.declared.sort.Sort.TheVariants as sorts;

use gql_text_lexer::{Number, TokenKind};

/// What the grammar tells apart in tokens.
#[derive(Clone, Copy, Debug, PartialEq, Eq)]
pub enum Sort {
    /// The end of the text.
    End,
    /// A place where the text goes on and no token stands.
    NoToken,
    Bang,
    Dollar,
    Ampersand,
    OpenParen,
    CloseParen,
    Ellipsis,
    Colon,
    Equals,
    AtSign,
    OpenBracket,
    CloseBracket,
    OpenBrace,
    Pipe,
    CloseBrace,
    WholeNumber,
    /// A whole number outside `i64::MIN` to `u64::MAX`.
    BeyondRange,
    Float,
    Quoted,
    Block,
    WordSchema,
    WordQuery,
    WordMutation,
    WordSubscription,
    WordScalar,
    WordType,
    WordImplements,
    WordInterface,
    WordUnion,
    WordEnum,
    WordInput,
    WordDirective,
    WordRepeatable,
    WordOn,
    WordExtend,
    WordTrue,
    WordFalse,
    WordNull,
    /// A name of a location of directives.
    Location,
    /// A name that is no keyword.
    OtherName,
}

impl Sort {
    /// Whether it is this sort.
    pub fn is(self, other: Sort) -> bool
        ensures { result ≡ among (spec.code self) (spec.only other) }
    {
        self as u8 == other as u8
    }

    /// Whether it is a name that is no keyword.
    fn is_other_name(self) -> bool
        ensures { result ≡ (spec.code self == spec.code sorts.OtherName) }
    {
        matches!(self, Sort::OtherName)
    }

    /// Whether it is a name that may be an enum value, section 2.9.6.
    pub fn is_enum_name(self) -> bool
        ensures { result ≡ among (spec.code self) spec.enum_names }
    {
        matches!(
            self,
            Sort::WordSchema
                | Sort::WordQuery
                | Sort::WordMutation
                | Sort::WordSubscription
                | Sort::WordScalar
                | Sort::WordType
                | Sort::WordImplements
                | Sort::WordInterface
                | Sort::WordUnion
                | Sort::WordEnum
                | Sort::WordInput
                | Sort::WordDirective
                | Sort::WordRepeatable
                | Sort::WordOn
                | Sort::WordExtend
                | Sort::Location
                | Sort::OtherName
        )
    }

    /// Whether it is a name that is a value of its own: sections 2.9.3 and 2.9.5.
    fn is_literal_word(self) -> bool
        ensures { result ≡ among (spec.code self) spec.literal_words }
    {
        matches!(self, Sort::WordTrue | Sort::WordFalse | Sort::WordNull)
    }

    /// Whether it is a name.
    pub fn is_name(self) -> bool
        ensures { result ≡ among (spec.code self) spec.names }
    {
        self.is_literal_word() || self.is_enum_name()
    }

    /// Whether it is a string.
    pub fn is_string(self) -> bool
        ensures { result ≡ among (spec.code self) spec.strings }
    {
        matches!(self, Sort::Quoted | Sort::Block)
    }

    /// Whether it is a value by itself.
    pub fn is_leaf(self) -> bool
        ensures { result ≡ among (spec.code self) spec.leaves }
    {
        self.is(Sort::WholeNumber) || self.is_member()
    }

    /// Whether it is a number that no value here holds.
    pub fn is_refused_number(self) -> bool
        ensures { result ≡ among (spec.code self) spec.refused_numbers }
    {
        matches!(self, Sort::BeyondRange | Sort::Float)
    }

    /// Whether a list or an object of values begins with it.
    pub fn is_nest(self) -> bool
        ensures { result ≡ among (spec.code self) spec.nests }
    {
        matches!(self, Sort::OpenBracket | Sort::OpenBrace)
    }

    /// Whether a value begins with it.
    pub fn is_value(self) -> bool
        ensures { result ≡ among (spec.code self) spec.values }
    {
        self.is_leaf() || self.is_refused_number() || self.is_nest()
    }

    /// Whether a field or an argument begins with it.
    pub fn is_member(self) -> bool
        ensures { result ≡ among (spec.code self) spec.members }
    {
        self.is_string() || self.is_name()
    }

    /// Whether an enum value's definition begins with it.
    pub fn is_enum_member(self) -> bool
        ensures { result ≡ among (spec.code self) spec.enum_members }
    {
        self.is_string() || self.is_enum_name()
    }

    /// Whether it is the word of a kind of operations.
    pub fn is_operation(self) -> bool
        ensures { result ≡ among (spec.code self) spec.operations }
    {
        matches!(
            self,
            Sort::WordQuery | Sort::WordMutation | Sort::WordSubscription
        )
    }

    /// Whether a definition after its description begins with it.
    fn is_kind(self) -> bool
        ensures { result ≡ among (spec.code self) spec.kinds }
    {
        matches!(
            self,
            Sort::WordSchema
                | Sort::WordScalar
                | Sort::WordType
                | Sort::WordInterface
                | Sort::WordUnion
                | Sort::WordEnum
                | Sort::WordInput
                | Sort::WordDirective
        )
    }

    /// Whether a definition begins with it.
    pub fn is_definition(self) -> bool
        ensures { result ≡ among (spec.code self) spec.definitions }
    {
        self.is(Sort::WordExtend) || self.is_string() || self.is_kind()
    }
}

fn punctuator(text: &str) -> Sort
    ensures { spec.code result ≡ spec.punctuator_sort text.now }
{
    match text {
        "!" => Sort::Bang,
        "$" => Sort::Dollar,
        "&" => Sort::Ampersand,
        "(" => Sort::OpenParen,
        ")" => Sort::CloseParen,
        "..." => Sort::Ellipsis,
        ":" => Sort::Colon,
        "=" => Sort::Equals,
        "@" => Sort::AtSign,
        "[" => Sort::OpenBracket,
        "]" => Sort::CloseBracket,
        "{" => Sort::OpenBrace,
        "|" => Sort::Pipe,
        _ => Sort::CloseBrace,
    }
}

fn definition_word(text: &str) -> Sort
    ensures { spec.code result ≡ spec.word_in spec.definition_words text.now }
{
    match text {
        "schema" => Sort::WordSchema,
        "scalar" => Sort::WordScalar,
        "type" => Sort::WordType,
        "interface" => Sort::WordInterface,
        "union" => Sort::WordUnion,
        "enum" => Sort::WordEnum,
        "input" => Sort::WordInput,
        "directive" => Sort::WordDirective,
        "extend" => Sort::WordExtend,
        _ => Sort::OtherName,
    }
}

fn other_word(text: &str) -> Sort
    ensures { spec.code result ≡ spec.word_in spec.other_words text.now }
{
    match text {
        "query" => Sort::WordQuery,
        "mutation" => Sort::WordMutation,
        "subscription" => Sort::WordSubscription,
        "implements" => Sort::WordImplements,
        "repeatable" => Sort::WordRepeatable,
        "on" => Sort::WordOn,
        "true" => Sort::WordTrue,
        "false" => Sort::WordFalse,
        "null" => Sort::WordNull,
        _ => Sort::OtherName,
    }
}

fn location(text: &str) -> Sort
    ensures { spec.code result ≡ spec.word_in spec.locations text.now }
{
    match text {
        "QUERY"
        | "MUTATION"
        | "SUBSCRIPTION"
        | "FIELD"
        | "FRAGMENT_DEFINITION"
        | "FRAGMENT_SPREAD"
        | "INLINE_FRAGMENT"
        | "VARIABLE_DEFINITION"
        | "SCHEMA"
        | "SCALAR"
        | "OBJECT"
        | "FIELD_DEFINITION"
        | "ARGUMENT_DEFINITION"
        | "INTERFACE"
        | "UNION"
        | "ENUM"
        | "ENUM_VALUE"
        | "INPUT_OBJECT"
        | "INPUT_FIELD_DEFINITION" => Sort::Location,
        _ => Sort::OtherName,
    }
}

fn no_definition_word(text: &str) -> Sort
    ensures { spec.code result ≡ spec.no_definition_word_sort text.now }
{
    let sort = other_word(text);
    if sort.is_other_name() {
        location(text)
    } else {
        sort
    }
}

fn name(text: &str) -> Sort
    ensures { spec.code result ≡ spec.name_sort text.now }
{
    let sort = definition_word(text);
    if sort.is_other_name() {
        no_definition_word(text)
    } else {
        sort
    }
}

fn whole(text: &str) -> Sort
    requires { IsWhole text.now }
    ensures { spec.code result ≡ spec.sort_of token_kind.Whole text.now }
{
    match Number::read(text) {
        Some(_) => Sort::WholeNumber,
        None => Sort::BeyondRange,
    }
}

/// The sort of a token.
pub fn sort_of(kind: TokenKind, text: &str) -> Sort
    requires { kind ≡ token_kind.Whole → IsWhole text.now }
    ensures { spec.code result ≡ spec.sort_of kind text.now }
{
    match kind {
        TokenKind::Punctuator => punctuator(text),
        TokenKind::Name => name(text),
        TokenKind::Whole => whole(text),
        TokenKind::Float => Sort::Float,
        TokenKind::Quoted => Sort::Quoted,
        TokenKind::Block => Sort::Block,
    }
}
