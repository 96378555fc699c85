//! Tokens, and tokens with their places.
ghost use Rattle.std.specs.Prelude.{◌≡◌};
ghost use Rattle.mls_tokens.specs.Passing.{is_word, is_sign, is_text, name_of_token};

use crate::sign::Sign;
use mls_lattice::{Str, is_name};

/// A token.
#[derive(Drop)]
pub enum Token {
    /// A name or a reserved word, of 32 bytes at most.
    Word(Str),
    Int(i64),
    /// A text between quotes, without its escapes.
    Text(Str),
    Sign(Sign),
}

/// A token, and the place of its first byte, counted from 1.
#[derive(Drop)]
pub struct Placed {
    pub token: Token,
    pub at: usize,
}

impl Token {
    /// Whether this is a word.
    pub fn is_word(&self, word: &str) -> bool
        ensures { result ≡ is_word word.now self.now }
    {
        match self {
            Token::Word(text) => text.as_str() == word,
            _ => false,
        }
    }

    /// Whether this is a sign.
    pub fn is_sign(&self, sign: Sign) -> bool
        ensures { result ≡ is_sign sign self.now }
    {
        match self {
            Token::Sign(own) => own.text() == sign.text(),
            _ => false,
        }
    }

    /// Whether this is a text.
    pub fn is_text(&self) -> bool
        ensures { result ≡ is_text self.now }
    {
        match self {
            Token::Text(_) => true,
            _ => false,
        }
    }

    /// The name that this is, if it is one and no reserved word.
    pub fn into_name(self) -> Option<Str>
        ensures { result ≡ name_of_token self }
    {
        match self {
            Token::Word(text) => {
                if is_name(text.as_str()) {
                    Some(text)
                } else {
                    None
                }
            }
            _ => None,
        }
    }
}
