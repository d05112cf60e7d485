//! The numbers among the words.

ghost use Rattle.std.specs.Prelude.{◌≡◌};
ghost use Rattle.jls_cli.specs.Words.{number_in};

/// A number of 32 bits, from a least on.
pub(crate) fn number_from(least: u32, value: &str) -> Option<u32>
    ensures { result ≡ number_in least 4294967295 value.now }
{
    match value.parse::<u32>() {
        Ok(number) => { if number < least { None } else { Some(number) } }
        Err(_) => None,
    }
}

/// A number of 16 bits.
pub(crate) fn short_number(value: &str) -> Option<u16>
    ensures { result ≡ number_in 0 65535 value.now }
{
    match value.parse::<u16>() {
        Ok(number) => Some(number),
        Err(_) => None,
    }
}
