//! How wide a text is.
ghost use Rattle.std.specs.Prelude.{◌≡◌};
ghost use Rattle.mls_tokens.specs.Table.{columns};

use unicode_width::UnicodeWidthStr;

/// How many columns of a screen a text takes.
pub fn columns(bytes: &[u8]) -> usize
    ensures { result ≡ columns bytes.now }
{
    match std::str::from_utf8(bytes) {
        Ok(text) => text.width(),
        Err(_) => bytes.len(),
    }
}
