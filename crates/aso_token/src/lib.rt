//! Tokens of formulas, queries and statements, and how their grammars are written.
#![tactic(auto)]

mod cutting;
mod front;
mod marks;
mod number;
mod stop;
mod token;

pub use cutting::{Cut, cut_text};
pub use marks::{after_comma, after_open, close};
pub use number::parse_number;
pub use stop::Stop;
pub use token::{Mark, Piece, Placed, Token};
