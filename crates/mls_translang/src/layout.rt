//! Tokens, laid out as a text.
ghost use Rattle.std.specs.Prelude.{◌≡◌, ◌++◌, OnOk, IfOk, codes};
ghost use Rattle.mls_tokens.specs.declared.token.Token.TheVariants as token;
ghost use Rattle.mls_translang.specs.Layout.{sign_side, word_side, sign_before, sign_depth, indent, new_line, gap, put};
ghost use Rattle.mls_translang.specs.Layout.{start};

use mls_tokens::{Sign, push_int, push_quoted, push_str};
use std::alloc::{AllocError, Global};
use std::marker::Model;

/// What stands before a token.
#[derive(Clone, Copy, PartialEq, Eq)]
pub enum Before {
    /// No token.
    Nothing,
    /// `(` or `.`
    Opening,
    /// `{` or `;`
    LineEnd,
    /// `}`
    Brace,
    /// Another token.
    Other,
}

/// What a token is to the one before it.
#[derive(Clone, Copy, PartialEq, Eq)]
pub enum Side {
    /// `)`, `,`, `;`, `:` or `.`
    Tight,
    /// `else`
    Else,
    /// `}`
    Closing,
    /// Another token.
    Apart,
}

fn sign_side(sign: Sign) -> Side
    ensures { result ≡ sign_side sign }
{
    match sign {
        Sign::RightParen | Sign::Comma | Sign::Semicolon | Sign::Colon | Sign::Dot => Side::Tight,
        Sign::RightBrace => Side::Closing,
        _ => Side::Apart,
    }
}

fn word_side(word: &str) -> Side
    ensures { result ≡ word_side word.now }
{
    if word == "else" {
        Side::Else
    } else {
        Side::Apart
    }
}

fn sign_before(sign: Sign) -> Before
    ensures { result ≡ sign_before sign }
{
    match sign {
        Sign::LeftParen | Sign::Dot => Before::Opening,
        Sign::LeftBrace | Sign::Semicolon => Before::LineEnd,
        Sign::RightBrace => Before::Brace,
        _ => Before::Other,
    }
}

/// How many braces are open after a sign. No memory holds so many that they could not be counted.
fn sign_depth(depth: usize, sign: Sign) -> Result<usize, AllocError>
    ensures { IfOk result (λ d. d ≡ sign_depth depth sign) }
{
    match sign {
        Sign::LeftBrace => depth.checked_add(1).ok_or(AllocError),
        Sign::RightBrace => Ok(depth.saturating_sub(1)),
        _ => Ok(depth),
    }
}

fn push_indent(text: &mut Vec<u8>, depth: usize) -> Result<(), AllocError>
    ensures { OnOk result (text.new.items ≡ text.old.items ++ indent depth) }
{
    for _ in 0..depth {
        push_str(text, "  ")?;
    }
    Ok(())
}

fn push_line(text: &mut Vec<u8>, depth: usize, side: Side) -> Result<(), AllocError>
    ensures { OnOk result (text.new.items ≡ text.old.items ++ new_line depth side) }
{
    push_str(text, "\n")?;
    match side {
        Side::Closing => push_indent(text, depth.saturating_sub(1)),
        _ => push_indent(text, depth),
    }
}

/// What stands between a token and the one before it.
fn push_gap(text: &mut Vec<u8>, depth: usize, before: Before, side: Side) -> Result<(), AllocError>
    ensures { OnOk result (text.new.items ≡ text.old.items ++ gap depth before side) }
{
    match (before, side) {
        (Before::Nothing | Before::Opening, _) => Ok(()),
        (Before::LineEnd, _) => push_line(text, depth, side),
        (Before::Brace, Side::Else) => push_str(text, " "),
        (Before::Brace, _) => push_line(text, depth, side),
        (Before::Other, Side::Tight) => Ok(()),
        (Before::Other, _) => push_str(text, " "),
    }
}

/// A text while it is written: how many braces are open, and what was written last.
#[derive(Drop)]
pub(crate) struct Printer {
    alloc: Global,
    text: Vec<u8>,
    depth: usize,
    before: Before,
}

impl Model for Printer {
    ghost use Rattle.mls_translang.specs.Layout.{Laid};

    ghost Value = { Laid };

    ghost view = { λ a. record { text = a.text.items; depth = a.depth; before = a.before } };
}

impl Printer {
    /// Nothing is written.
    pub fn new(alloc: Global) -> Printer
        ensures { result ≡ start }
    {
        Printer {
            alloc,
            text: Vec::new(alloc),
            depth: 0,
            before: Before::Nothing,
        }
    }

    /// Writes a name or a reserved word.
    pub fn word(&mut self, word: &str) -> Result<(), AllocError>
        ensures { OnOk result (self.new ≡ put self.old (token.Word word.now)) }
    {
        push_gap(&mut self.text, self.depth, self.before, word_side(word))?;
        push_str(&mut self.text, word)?;
        self.before = Before::Other;
        Ok(())
    }

    /// Writes a number.
    pub fn int(&mut self, number: i64) -> Result<(), AllocError>
        ensures { OnOk result (self.new ≡ put self.old (token.Int number)) }
    {
        push_gap(&mut self.text, self.depth, self.before, Side::Apart)?;
        push_int(self.alloc, &mut self.text, number)?;
        self.before = Before::Other;
        Ok(())
    }

    /// Writes a text between quotes.
    pub fn quoted(&mut self, text: &str) -> Result<(), AllocError>
        ensures { OnOk result (self.new ≡ put self.old (token.Text text.now)) }
    {
        push_gap(&mut self.text, self.depth, self.before, Side::Apart)?;
        push_quoted(&mut self.text, text)?;
        self.before = Before::Other;
        Ok(())
    }

    /// Writes a sign.
    pub fn sign(&mut self, sign: Sign) -> Result<(), AllocError>
        ensures { OnOk result (self.new ≡ put self.old (token.Sign sign)) }
    {
        push_gap(&mut self.text, self.depth, self.before, sign_side(sign))?;
        push_str(&mut self.text, sign.text())?;
        self.depth = sign_depth(self.depth, sign)?;
        self.before = sign_before(sign);
        Ok(())
    }

    /// Ends the last line.
    pub fn finish(self) -> Result<Vec<u8>, AllocError>
        ensures { IfOk result (λ text. text.items ≡ self.text ++ codes "\n") }
    {
        let Printer { mut text, .. } = self;
        push_str(&mut text, "\n")?;
        Ok(text)
    }
}
