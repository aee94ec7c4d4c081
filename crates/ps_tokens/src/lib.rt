//! The tokens of a formula: numerals, references, ranges, function names, operators, parentheses and separators. This
//! crate reads tokens from a text, and writes each token in its one canonical spelling.
//!
//! This crate isn't the grammar: it reads `)SUM 5` as three tokens, and knows no tree, no precedence and no value.
//! A token holds its meaning and not its spelling: `007` and `7` are one numeral, `[.$B$3:.A1]` and
//! `[.A1:.B3]` one range, `sum` and `SUM` one name.
//!
//! The text `sum( [.B2:.A1] ; 007)` has the tokens `SUM`, `(`, the range of A1 to B2, `;`, 7 and `)`. The canonical
//! spelling of these tokens is `SUM([.A1:.B2];7)`.
//!
//! The contract to use: `tokens` returns a list that the text spells, as `Spells` in `specs/Text.antt` defines. If the
//! text spells a list in which no two neighbours could be read as one token, `tokens` returns that list. For example,
//! `1` beside `2` could be read as `12`. `put_token` appends the canonical spelling of a token.
//!
//! Cost: each byte of a text is read a few times at most, and memory for the list of tokens is reserved once.
#![tactic(auto)]

mod front;
mod laws;
mod lexer;
mod token;
mod writer;

pub use laws::{canonical_spelling, one_spelling};
pub use lexer::tokens;
pub use token::{FUNCTIONS, Function, Operator, Token};
pub use writer::put_token;
