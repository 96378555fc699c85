//! Names, and the words that are reserved.
ghost use Rattle.std.specs.Prelude.{◌≡◌};
ghost use Rattle.std.specs.List.{list_all};
ghost use Rattle.mls_lattice.specs.Name.{is_name, is_reserved, is_name_byte};

/// The words of transactions and scripts, which are never names.
static RESERVED: [&str; 32] = [
    "transaction",
    "levels",
    "to",
    "var",
    "int",
    "text",
    "if",
    "else",
    "for",
    "in",
    "at",
    "insert",
    "key",
    "values",
    "update",
    "class",
    "from",
    "set",
    "delete",
    "release",
    "into",
    "emit",
    "as",
    "and",
    "or",
    "not",
    "null",
    "open",
    "close",
    "view",
    "call",
    "audit",
];

/// Whether a text is one of the reserved words.
#[tactic(auto, unfolding(crate::specs::Name::is_reserved))]
fn is_reserved(text: &str) -> bool
    ensures { result ≡ is_reserved text.now }
{
    RESERVED.contains(&text)
}

/// Whether a byte may stand in a name, after its first.
pub fn is_name_byte(byte: u8) -> bool
    ensures { result ≡ is_name_byte byte }
{
    byte.is_ascii_alphanumeric() || byte == b'_'
}

fn are_name_bytes(bytes: &[u8]) -> bool
    ensures { result ≡ list_all is_name_byte bytes.now }
{
    bytes.iter().all(|byte| is_name_byte(*byte))
}

/// Whether a text is a letter of ASCII and up to 31 letters, digits or `_`, and no reserved word.
#[tactic(auto, unfolding(crate::specs::Name::is_name))]
pub fn is_name(text: &str) -> bool
    ensures { result ≡ is_name text.now }
{
    let bytes = text.as_bytes();
    if bytes.is_empty() || bytes.len() > 32 || !bytes[0].is_ascii_alphabetic() {
        return false;
    }
    are_name_bytes(bytes) && !is_reserved(text)
}
