//! What stands between tokens.
ghost use Rattle.std.specs.Prelude.{◌≡◌, ◌≤◌, length, false, IfOk, IfErr, IfSome};
ghost use Rattle.std.specs.List.{prefix_len};
ghost use Rattle.mls_tokens.specs.Text.{is_blank, is_no_feed};
ghost use Rattle.mls_lattice.specs.Reading.{Shows};
ghost use Rattle.mls_tokens.specs.Scanning.{comment_fault, after_gap};

fn is_blank(byte: u8) -> bool
    ensures { result ≡ is_blank byte }
{
    byte == b' ' || byte == b'\t' || byte == b'\n' || byte == b'\r'
}

fn comment_length(bytes: &[u8]) -> usize
    ensures run { result ≡ prefix_len is_no_feed bytes.now }
    ensures within { result ≤ length bytes.now }
{
    bytes.iter().take_while(|byte| **byte != b'\n').count()
}

/// How many bytes are left from the first of a comment that is not UTF-8.
#[tactic(auto, using(crate::proofs::GapLemmas::comment_steps))]
fn comment_fault(bytes: &[u8]) -> Option<usize>
    ensures exact { result ≡ comment_fault bytes.now }
    ensures within { IfSome result (λ left. left ≤ length bytes.now) }
{
    let comment = &bytes[..comment_length(bytes)];
    match std::str::from_utf8(comment) {
        Ok(_) => None,
        Err(e) => Some(bytes.len().saturating_sub(e.valid_up_to())),
    }
}

/// What stands behind blanks and comments; or how many bytes are left from the first of a comment that is not UTF-8.
pub(crate) fn after_gap(bytes: &[u8]) -> Result<&[u8], usize>
    ensures exact { Shows (λ rest. rest.now) result (after_gap false bytes.now) }
    ensures shorter { IfOk result (λ rest. length rest.now ≤ length bytes.now) }
    ensures within { IfErr result (λ left. left ≤ length bytes.now) }
{
    let mut inside = false;
    for (i, byte) in bytes.iter().enumerate() {
        if inside {
            inside = *byte != b'\n';
        } else if *byte == b'#' {
            if let Some(left) = comment_fault(&bytes[i + 1..]) {
                return Err(left);
            }
            inside = true;
        } else if !is_blank(*byte) {
            return Ok(&bytes[i..]);
        }
    }
    Ok(&[])
}
