//! Where a byte of a text stands.
ghost use Rattle.std.specs.Prelude.{◌≡◌, ◌≤◌, ◌==◌, length, reverse, take, count_by};
ghost use Rattle.std.specs.List.{prefix_len};
ghost use Rattle.mls_tokens.specs.Text.{is_no_feed};
ghost use Rattle.mls_tokens.specs.Spot.{spot_at};

/// Where a byte of a text stands: lines, and the bytes of a line, are counted from 1.
#[derive(Clone, Copy, PartialEq, Eq, Debug)]
pub struct Spot {
    pub line: usize,
    pub column: usize,
}

/// The first bytes of a text, as many as there are up to a number.
fn first(bytes: &[u8], count: usize) -> &[u8]
    ensures { result.now ≡ take count bytes.now }
{
    &bytes[..count.min(bytes.len())]
}

/// How many LFs there are.
fn feeds(bytes: &[u8]) -> usize
    ensures exact { result ≡ count_by (λ b. b == 10) bytes.now }
    ensures few { result ≤ length bytes.now }
{
    bytes.iter().filter(|byte| **byte == b'\n').count()
}

/// How many bytes stand behind the last LF.
fn behind_feed(bytes: &[u8]) -> usize
    ensures exact { result ≡ prefix_len is_no_feed (reverse bytes.now) }
    ensures few { result ≤ length bytes.now }
{
    bytes
        .iter()
        .rev()
        .take_while(|byte| **byte != b'\n')
        .count()
}

/// Where the byte behind so many others stands; behind more than there are, the end of the text.
#[tactic(auto, unfolding(crate::specs::Spot::spot_at))]
pub fn spot_at(bytes: &[u8], count: usize) -> Spot
    ensures { result ≡ spot_at bytes.now count }
{
    let before = first(bytes, count);
    Spot {
        line: 1 + feeds(before),
        column: 1 + behind_feed(before),
    }
}
