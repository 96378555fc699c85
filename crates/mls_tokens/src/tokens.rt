//! The tokens of a whole text, read one after another.
ghost use Rattle.std.specs.Prelude.{◌≡◌, ◌<◌, ◌^◌, [], ◌∷◌, length, option_map, IfOk, IfErr, IfSome, IsNone};
ghost use Rattle.mls_tokens.specs.declared.fault.TokenCause.TheVariants.{Memory};
ghost use Rattle.mls_tokens.specs.Scanning.{Reads, next_placed, tokens_at};
ghost use Rattle.mls_tokens.specs.Passing.{left, refused, is_word, is_sign, taken, pass, pass_name, has_ended};
ghost use Rattle.mls_tokens.specs.Passing.{starts_with_text, pass_text, pass_end};

use crate::fault::{TokenCause, TokenFault};
use crate::gap::after_gap;
use crate::scanner::leading_token;
use crate::sign::Sign;
use crate::token::{Placed, Token};
use mls_lattice::Str;
use std::alloc::Global;
use std::collections::VecDeque;
use std::marker::Model;

/// The tokens of a text that are left, up to the first place where none stands: its end, or a fault.
#[derive(Drop)]
pub struct Tokens {
    placed: VecDeque<Placed>,
    stop: TokenFault,
}

impl Model for Tokens {
    ghost use Rattle.mls_tokens.specs.Scanning.{Left};

    ghost Value = { Left };

    ghost view = { λ t. record { placed = t.placed.items; stop = t.stop } };
}

/// The next token of the last bytes of a text, and what follows it; or where the text is over or none stands.
#[tactic(auto, unfolding(crate::specs::Scanning::next_placed))]
fn next_placed(alloc: Global, len: usize, bytes: &[u8]) -> Result<(Placed, &[u8]), TokenFault>
    requires { len < 2 ^ 63 }
    ensures exact { Reads (λ x. (x.0, x.1.now)) result (next_placed len bytes.now) }
    ensures shorter { IfOk result (λ x. length x.1.now < length bytes.now) }
{
    let front = match after_gap(bytes) {
        Ok(front) => front,
        Err(left) => {
            return Err(TokenFault {
                at: len.saturating_sub(left) + 1,
                cause: TokenCause::Token,
            });
        }
    };
    if front.is_empty() {
        return Err(TokenFault {
            at: len + 1,
            cause: TokenCause::Expected,
        });
    }
    let at = len.saturating_sub(front.len()) + 1;
    match leading_token(alloc, front) {
        Ok((token, after)) => Ok((Placed { token, at }, after)),
        Err(failed) => Err(TokenFault {
            at,
            cause: TokenCause::from(failed),
        }),
    }
}

impl Tokens {
    /// Splits a text into tokens.
    #[tactic(auto, using(crate::proofs::TokensLemmas::token_steps))]
    pub fn new(alloc: Global, text: &[u8]) -> Result<Tokens, TokenFault>
        ensures exact { IfOk result (λ t. t ≡ tokens_at text.now) }
        ensures memory { IfErr result (λ e. e.cause ≡ Memory) }
    {
        let mut placed = VecDeque::new(alloc);
        let mut rest = text;
        loop {
            match next_placed(alloc, text.len(), rest) {
                Ok((token, after)) => {
                    placed.push_back(token)?;
                    rest = after;
                }
                Err(stop) if stop.cause == TokenCause::Memory => return Err(stop),
                Err(stop) => return Ok(Tokens { placed, stop }),
            }
        }
    }

    /// The next token, which is passed; or None where none is left.
    pub fn pop(&mut self) -> Option<Placed>
        ensures some { IfSome result (λ p. self.old ≡ left (p ∷ self.new.placed) self.new.stop) }
        ensures none { IsNone result → self.old ≡ left [] self.old.stop }
        ensures stays { IsNone result → self.new ≡ self.old }
    {
        self.placed.pop_front()
    }

    /// The fault where the next token may not stand here, where a text that is too long is a token too.
    #[tactic(auto, using(crate::proofs::PassingSteps::first_steps))]
    pub fn refused(&self) -> TokenFault
        ensures { result ≡ refused self.now }
    {
        let (at, cause) = match (self.placed.front(), self.stop.cause) {
            (Some(first), _) => (first.at, TokenCause::Expected),
            (None, TokenCause::TooLong) => (self.stop.at, TokenCause::Expected),
            (None, cause) => (self.stop.at, cause),
        };
        TokenFault { at, cause }
    }

    /// What is answered where one more token is wanted than there is.
    pub fn stop(&self) -> TokenFault
        ensures { result ≡ self.now.stop }
    {
        self.stop
    }

    /// Passes a sign if it is next, and gives its place.
    #[tactic(auto, using(crate::proofs::PassingSteps::first_steps))]
    pub fn takes_sign(&mut self, sign: Sign) -> Option<usize>
        ensures taken { option_map (λ at. (at, self.new)) result ≡ taken (is_sign sign) self.old }
        ensures stays { IsNone result → self.new ≡ self.old }
    {
        let at = match self.placed.front() {
            Some(first) if first.token.is_sign(sign) => first.at,
            _ => return None,
        };
        let _ = self.placed.pop_front();
        Some(at)
    }

    /// Passes a word if it is next, and gives its place.
    #[tactic(auto, using(crate::proofs::PassingSteps::first_steps))]
    pub fn takes_word(&mut self, word: &str) -> Option<usize>
        ensures taken { option_map (λ at. (at, self.new)) result ≡ taken (is_word word.now) self.old }
        ensures stays { IsNone result → self.new ≡ self.old }
    {
        let at = match self.placed.front() {
            Some(first) if first.token.is_word(word) => first.at,
            _ => return None,
        };
        let _ = self.placed.pop_front();
        Some(at)
    }

    /// Passes a sign, and gives its place.
    pub fn sign(&mut self, sign: Sign) -> Result<usize, TokenFault>
        ensures { Reads (λ at. (at, self.new)) result (pass (is_sign sign) self.old) }
    {
        match self.takes_sign(sign) {
            Some(at) => Ok(at),
            None => Err(self.refused()),
        }
    }

    /// Passes a word, and gives its place.
    pub fn word(&mut self, word: &str) -> Result<usize, TokenFault>
        ensures { Reads (λ at. (at, self.new)) result (pass (is_word word.now) self.old) }
    {
        match self.takes_word(word) {
            Some(at) => Ok(at),
            None => Err(self.refused()),
        }
    }

    /// Passes a name, and gives it with its place.
    pub fn name(&mut self) -> Result<(Str, usize), TokenFault>
        ensures { Reads (λ x. ((x.0, x.1), self.new)) result (pass_name self.old) }
    {
        let Some(first) = self.pop() else {
            return Err(self.refused());
        };
        match first.token.into_name() {
            Some(name) => Ok((name, first.at)),
            None => Err(TokenFault {
                at: first.at,
                cause: TokenCause::Expected,
            }),
        }
    }

    /// Whether a text is next.
    #[tactic(auto, using(crate::proofs::PassingSteps::first_steps))]
    pub fn starts_with_text(&self) -> bool
        ensures { result ≡ starts_with_text self.now }
    {
        match self.placed.front() {
            Some(first) => first.token.is_text(),
            None => false,
        }
    }

    /// Passes a text if it is next, and gives it with its place. Where no token is left it is told why.
    #[tactic(auto, using(crate::proofs::PassingSteps::first_steps))]
    pub fn takes_text(&mut self) -> Result<Option<(Str, usize)>, TokenFault>
        ensures { Reads (λ o. (option_map (λ x. (x.0, x.1)) o, self.new)) result (pass_text self.old) }
    {
        if self.placed.is_empty() {
            return Err(self.stop);
        }
        if !self.starts_with_text() {
            return Ok(None);
        }
        let Some(first) = self.pop() else {
            return Ok(None);
        };
        let at = first.at;
        match first.token {
            Token::Text(text) => Ok(Some((text, at))),
            _ => Ok(None),
        }
    }

    /// Whether the text is over.
    pub fn has_ended(&self) -> bool
        ensures { result ≡ has_ended self.now }
    {
        self.placed.is_empty() && self.stop.cause == TokenCause::Expected
    }

    /// Passes the end of the text.
    pub fn end(&self) -> Result<(), TokenFault>
        ensures { Reads (λ _. tt) result (pass_end self.now) }
    {
        if self.has_ended() {
            Ok(())
        } else {
            Err(self.refused())
        }
    }
}
