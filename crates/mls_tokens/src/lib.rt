//! The tokens of scripts and transactions, which have one grammar of them: a text as a list of tokens, with
//! their places, and texts between quotes as they are written.
#![tactic(auto)]

ghost use Rattle.mls_tokens.specs.Scanning.{TokensAreExact};
ghost use Rattle.mls_tokens.specs.Text.{TextsAreOnce};

mod escaping;
mod fault;
mod gap;
mod int;
mod lines;
mod piece;
mod quoted;
mod runs;
mod scanner;
mod sign;
mod source;
mod spots;
mod table;
mod token;
mod tokens;
mod typed;
mod typing;
mod whole;
mod width;
mod writing;

pub use crate::lines::LinesOf;
pub use crate::piece::Piece;
pub use crate::source::{AnyReader, BytesIn, Source};
pub use crate::typed::{MOST_BYTES, Typed, TypingFault};
pub use crate::typing::TypedLines;
pub use crate::whole::{WriteFault, write_bytes, write_pieces};
pub use escaping::{escape, escaped_texts_are_harmless};
pub use fault::{TokenCause, TokenFault};
pub use sign::Sign;
pub use spots::{Spot, spot_at};
pub use table::{push_row, push_rule, wider};
pub use token::{Placed, Token};
pub use tokens::Tokens;
pub use width::columns;
pub use writing::{push_int, push_printable, push_quoted, push_str};

/// A text is scanned as these tokens, to its end, exactly where it is these tokens.
pub fn tokens_are_exact()
    ensures { TokensAreExact }
{}

/// A text is the tokens of one list at most.
pub fn texts_are_read_once()
    ensures { TextsAreOnce }
{}
