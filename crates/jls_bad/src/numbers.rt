//! Numbers of a list.

ghost use Rattle.std.specs.Prelude.{◌≡◌, ◌<◌, ◌≤◌};
ghost use Rattle.jls_bad.specs.ListText.{in_base, number};

/// The number that digits write, if nothing else stands there and it has 64 bits.
fn digits_in(base: u32, digits: &[u8]) -> Option<u64>
    requires low { 2 ≤ base }
    requires high { base ≤ 36 }
    ensures { result ≡ in_base base digits.now }
{
    if digits.is_empty() {
        return None;
    }
    let mut value: u64 = 0;
    for byte in digits {
        let digit = char::from(*byte).to_digit(base)?;
        value = value
            .checked_mul(u64::from(base))?
            .checked_add(u64::from(digit))?;
    }
    Some(value)
}

/// The number that a word is.
pub(crate) fn number_of(word: &[u8]) -> Option<u64>
    ensures { result ≡ number word.now }
{
    match word {
        [b'0', b'x' | b'X', digits @ ..] => digits_in(16, digits),
        _ => digits_in(10, word),
    }
}
