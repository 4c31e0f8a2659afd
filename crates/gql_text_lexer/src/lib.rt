//! The lexical layer of GraphQL: tokens, names, whole numbers, the values of strings, and texts as quoted strings
//! (sections 2.1 and 2.9 of the GraphQL specification, October 2021).
#![tactic(auto)]

mod bytes;
mod error;
mod lexer;
mod lines;
mod name;
mod number;
mod piece;
mod quotation;
mod string;
mod text;
mod token;
mod value;
mod whole;

pub use error::{NameError, OutOfMemory};
pub use lexer::{lex, next_token};
pub use lines::block_value;
pub use name::{Name, is_reserved};
pub use quotation::quote;
pub use text::Text;
pub use token::{Lexed, Token, TokenKind};
pub use value::{string_text, string_text_law, string_value};
pub use whole::Number;
