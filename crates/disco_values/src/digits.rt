//! Numbers in decimal digits.
ghost use Rattle.std.specs.Prelude.{◌≡◌, ◌<◌, ◌+◌, ◌*◌, ◌^◌, true, SomeIff};
ghost use Rattle.std.specs.Char.{digit_value, is_ascii_digit};
ghost use Rattle.disco_values.specs.Digits.{digits_number};

/// The number with one more digit behind it, where the byte is a digit and the number stays below
/// 2^64.
fn with_digit(number: u64, byte: u8) -> Option<u64>
    ensures { SomeIff result ((is_ascii_digit byte ≡ true) × (number * 10 + digit_value byte < 2 ^ 64)) (number * 10 + digit_value byte) }
{
    if !byte.is_ascii_digit() {
        return None;
    }
    number.checked_mul(10)?.checked_add(u64::from(byte - b'0'))
}

/// The number that a text spells: one or more ASCII digits of a number up to 2^64 - 1, with no sign.
/// Zeros may lead.
pub fn number_of_digits(text: &str) -> Option<u64>
    ensures { result ≡ digits_number text.now }
{
    if text.is_empty() {
        return None;
    }
    let mut number = 0;
    for byte in text.as_bytes() {
        number = with_digit(number, *byte)?;
    }
    Some(number)
}
