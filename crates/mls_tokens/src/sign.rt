//! Signs: how each is written, and which stands at the front of bytes.
ghost use Rattle.std.specs.Prelude.{◌≡◌, option_map};
ghost use Rattle.mls_tokens.specs.Sign.{sign_text, first_sign, leading_sign};

/// A sign of one byte or of two.
#[derive(Clone, Copy, PartialEq, Eq)]
pub enum Sign {
    /// `:=`
    Becomes,
    /// `<>`
    Differs,
    /// `<=`
    AtMost,
    /// `>=`
    AtLeast,
    /// `(`
    LeftParen,
    /// `)`
    RightParen,
    /// `{`
    LeftBrace,
    /// `}`
    RightBrace,
    /// `,`
    Comma,
    /// `;`
    Semicolon,
    /// `:`
    Colon,
    /// `.`
    Dot,
    /// `=`
    Equals,
    /// `<`
    Less,
    /// `>`
    Greater,
    /// `+`
    Plus,
    /// A `-` that belongs to no number.
    Minus,
    /// `*`
    Times,
}

/// Every sign, those of two bytes first.
static SIGNS: [Sign; 18] = [
    Sign::Becomes,
    Sign::Differs,
    Sign::AtMost,
    Sign::AtLeast,
    Sign::LeftParen,
    Sign::RightParen,
    Sign::LeftBrace,
    Sign::RightBrace,
    Sign::Comma,
    Sign::Semicolon,
    Sign::Colon,
    Sign::Dot,
    Sign::Equals,
    Sign::Less,
    Sign::Greater,
    Sign::Plus,
    Sign::Minus,
    Sign::Times,
];

impl Sign {
    /// The sign as it is written.
    pub fn text(self) -> &'static str
        ensures { result.now ≡ sign_text self }
    {
        match self {
            Sign::Becomes => ":=",
            Sign::Differs => "<>",
            Sign::AtMost => "<=",
            Sign::AtLeast => ">=",
            Sign::LeftParen => "(",
            Sign::RightParen => ")",
            Sign::LeftBrace => "{",
            Sign::RightBrace => "}",
            Sign::Comma => ",",
            Sign::Semicolon => ";",
            Sign::Colon => ":",
            Sign::Dot => ".",
            Sign::Equals => "=",
            Sign::Less => "<",
            Sign::Greater => ">",
            Sign::Plus => "+",
            Sign::Minus => "-",
            Sign::Times => "*",
        }
    }
}

/// The first of some signs that bytes begin with, and what follows it.
fn first_sign<'a>(signs: &[Sign], bytes: &'a [u8]) -> Option<(Sign, &'a [u8])>
    ensures { option_map (λ x. (x.0, x.1.now)) result ≡ first_sign signs.now bytes.now }
{
    for sign in signs {
        let text = sign.text().as_bytes();
        if bytes.starts_with(text) {
            return Some((*sign, &bytes[text.len()..]));
        }
    }
    None
}

/// The longest sign at the front of bytes, and what follows it.
pub(crate) fn leading_sign(bytes: &[u8]) -> Option<(Sign, &[u8])>
    ensures { option_map (λ x. (x.0, x.1.now)) result ≡ leading_sign bytes.now }
{
    first_sign(&SIGNS, bytes)
}
