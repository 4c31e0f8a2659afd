//! What a text is made of: section 2.1 of the GraphQL specification, October 2021.

/// The form of a token.
#[derive(Clone, Copy, Debug, PartialEq, Eq)]
pub enum TokenKind {
    /// One of `! $ & ( ) ... : = @ [ ] { | }`: section 2.1.8.
    Punctuator,
    /// A letter or `_`, and then letters, digits and `_`, as many as there are: section 2.1.9.
    Name,
    /// A whole number, as `-12`: section 2.9.1, IntValue.
    Whole,
    /// A number with a fraction or an exponent, as `1.5e3`: section 2.9.2, FloatValue.
    Float,
    /// A string between `"`: section 2.9.4.
    Quoted,
    /// A string between `"""`: section 2.9.4.
    Block,
}

/// A token, or a part that stands between tokens.
#[derive(Clone, Copy, Debug, PartialEq, Eq)]
pub enum Shape {
    /// A blank, a line break, a comma, a comment, or U+FEFF: section 2.1.7.
    Ignored,
    Token(TokenKind),
}

/// A token that borrows its text from the source.
#[derive(Clone, Copy, Debug)]
pub struct Token<'t> {
    /// Its form.
    pub kind: TokenKind,
    /// The token as it is written, a slice of the source.
    pub text: &'t str,
    /// The place of its first byte: the number of bytes before it in the source.
    pub at: usize,
}

/// The tokens of a text, as `lex` gives them.
#[derive(Debug, Drop)]
pub struct Lexed<'t> {
    /// The tokens in the order of their places.
    pub tokens: Vec<Token<'t>>,
    /// The first place, a byte offset, where neither a token nor an ignored part stands; none where the tokens reach
    /// the end of the text.
    pub stop: Option<usize>,
}
