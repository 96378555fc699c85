//! Times, as lines tell them.
ghost use Rattle.std.specs.Prelude.{◌≡◌, ◌<◌, ◌+◌, length};
ghost use Rattle.mls_lattice.specs.Time.{are_digits, digits_at, is_date, is_clock, is_time};

/// How many bytes a time has.
pub const TIME_BYTES: usize = 20;

/// Whether two bytes are the digits of a number from least to most.
fn are_digits(high: u8, low: u8, least: u8, most: u8) -> bool
    ensures { result ≡ are_digits high low least most }
{
    if !high.is_ascii_digit() || !low.is_ascii_digit() {
        return false;
    }
    let number = 10 * (high - b'0') + (low - b'0');
    least <= number && number <= most
}

/// Whether the two bytes from a place on are such digits.
fn digits_at(text: &[u8], place: usize, least: u8, most: u8) -> bool
    requires { place + 1 < length text.now }
    ensures { result ≡ digits_at text.now place least most }
{
    are_digits(text[place], text[place + 1], least, most)
}

/// Whether a day stands at the front, with the letter behind it.
#[tactic(auto, unfolding(crate::specs::Time::is_date))]
fn is_date(text: &[u8]) -> bool
    requires { length text.now ≡ 20 }
    ensures { result ≡ is_date text.now }
{
    digits_at(text, 0, 0, 99)
        && digits_at(text, 2, 0, 99)
        && text[4] == b'-'
        && digits_at(text, 5, 1, 12)
        && text[7] == b'-'
        && digits_at(text, 8, 1, 31)
        && text[10] == b'T'
}

/// Whether a time of a day stands behind that.
#[tactic(auto, unfolding(crate::specs::Time::is_clock))]
fn is_clock(text: &[u8]) -> bool
    requires { length text.now ≡ 20 }
    ensures { result ≡ is_clock text.now }
{
    digits_at(text, 11, 0, 23)
        && text[13] == b':'
        && digits_at(text, 14, 0, 59)
        && text[16] == b':'
        && digits_at(text, 17, 0, 59)
        && text[19] == b'Z'
}

/// Whether bytes have the form `YYYY-MM-DDThh:mm:ssZ`. Texts of this form go in the order of the times.
#[tactic(auto, unfolding(crate::specs::Time::is_time))]
pub fn is_time(text: &[u8]) -> bool
    ensures { result ≡ is_time text.now }
{
    text.len() == TIME_BYTES && is_date(text) && is_clock(text)
}
