//! What single tokens are in a transaction.
ghost use Rattle.std.specs.Prelude.{◌≡◌};
ghost use Rattle.mls_parser.specs.Words.{head_of_word, head_of, plain_of_word, opening_of_word, opening_of};
ghost use Rattle.mls_parser.specs.Words.{operator_of_sign, operator_of_word, operator_of, kind_of_word, kind_of};

use mls_lattice::{Str, is_name};
use mls_scheme::{Kind, Value};
use mls_tokens::{Sign, Token};
use mls_translang::Operator;

/// What an expression begins with.
#[derive(Drop)]
pub(crate) enum Head {
    Literal(Value),
    Null,
    Name(Str),
    Not,
    Paren,
}

/// What a statement with no statement inside begins with.
#[derive(Drop)]
pub(crate) enum Plain {
    /// The name of the variable.
    Assign(Str),
    Insert,
    Update,
    Delete,
    Release,
    Emit,
}

/// What a statement begins with.
#[derive(Drop)]
pub(crate) enum Opening {
    If,
    For,
    Plain(Plain),
}

fn head_of_word(word: Str) -> Option<Head>
    ensures { result ≡ head_of_word word }
{
    if word.as_str() == "null" {
        return Some(Head::Null);
    }
    if word.as_str() == "not" {
        return Some(Head::Not);
    }
    if is_name(word.as_str()) {
        Some(Head::Name(word))
    } else {
        None
    }
}

/// A token as what an expression begins with.
pub(crate) fn head_of(token: Token) -> Option<Head>
    ensures { result ≡ head_of token }
{
    match token {
        Token::Word(word) => head_of_word(word),
        Token::Int(number) => Some(Head::Literal(Value::Int(number))),
        Token::Text(text) => Some(Head::Literal(Value::Text(text))),
        Token::Sign(Sign::LeftParen) => Some(Head::Paren),
        Token::Sign(_) => None,
    }
}

fn plain_of_word(word: Str) -> Option<Plain>
    ensures { result ≡ plain_of_word word }
{
    if word.as_str() == "insert" {
        return Some(Plain::Insert);
    }
    if word.as_str() == "update" {
        return Some(Plain::Update);
    }
    if word.as_str() == "delete" {
        return Some(Plain::Delete);
    }
    if word.as_str() == "release" {
        return Some(Plain::Release);
    }
    if word.as_str() == "emit" {
        return Some(Plain::Emit);
    }
    if is_name(word.as_str()) {
        Some(Plain::Assign(word))
    } else {
        None
    }
}

fn opening_of_word(word: Str) -> Option<Opening>
    ensures { result ≡ opening_of_word word }
{
    if word.as_str() == "if" {
        return Some(Opening::If);
    }
    if word.as_str() == "for" {
        return Some(Opening::For);
    }
    match plain_of_word(word) {
        Some(plain) => Some(Opening::Plain(plain)),
        None => None,
    }
}

/// A token as what a statement begins with.
pub(crate) fn opening_of(token: Token) -> Option<Opening>
    ensures { result ≡ opening_of token }
{
    match token {
        Token::Word(word) => opening_of_word(word),
        _ => None,
    }
}

fn operator_of_sign(sign: Sign) -> Option<Operator>
    ensures { result ≡ operator_of_sign sign }
{
    match sign {
        Sign::Plus => Some(Operator::Plus),
        Sign::Minus => Some(Operator::Minus),
        Sign::Times => Some(Operator::Times),
        Sign::Equals => Some(Operator::Equal),
        Sign::Differs => Some(Operator::Unequal),
        Sign::Less => Some(Operator::Less),
        Sign::AtMost => Some(Operator::AtMost),
        Sign::Greater => Some(Operator::Greater),
        Sign::AtLeast => Some(Operator::AtLeast),
        _ => None,
    }
}

fn operator_of_word(word: &str) -> Option<Operator>
    ensures { result ≡ operator_of_word word.now }
{
    if word == "and" {
        return Some(Operator::And);
    }
    if word == "or" {
        Some(Operator::Or)
    } else {
        None
    }
}

/// A token as an operator.
pub(crate) fn operator_of(token: &Token) -> Option<Operator>
    ensures { result ≡ operator_of token.now }
{
    match token {
        Token::Word(word) => operator_of_word(word.as_str()),
        Token::Sign(sign) => operator_of_sign(*sign),
        _ => None,
    }
}

fn kind_of_word(word: &str) -> Option<Kind>
    ensures { result ≡ kind_of_word word.now }
{
    if word == "int" {
        return Some(Kind::Int);
    }
    if word == "text" {
        Some(Kind::Text)
    } else {
        None
    }
}

/// A token as the word of a kind.
pub(crate) fn kind_of(token: &Token) -> Option<Kind>
    ensures { result ≡ kind_of token.now }
{
    match token {
        Token::Word(word) => kind_of_word(word.as_str()),
        _ => None,
    }
}
