//! The words after the program's name: which of them are good, and what they ask for.
#![tactic(auto)]

mod command;
mod error;
mod number;
mod options;
mod request;

pub use error::WordsError;
pub use gql_sdl::SDLExportOptions;
pub use request::{Request, read_words};
