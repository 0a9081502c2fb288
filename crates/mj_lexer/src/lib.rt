//! Text into tokens.
#![tactic(auto)]

mod front;
mod laws;
mod lexer;
mod place;
mod token;

pub use front::{Front, GREATEST_LITERAL, Problem};
pub use laws::{front_laws, lexing_laws};
pub use lexer::{LexFault, lex, lex_over};
pub use place::line_col;
pub use token::{Terminal, Token, TokenKind};
