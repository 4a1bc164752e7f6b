// A decimal number from its text.
ghost use Rattle.std.specs.Prelude.{◌≡◌, ◌+◌, ◌*◌, min};
ghost use Rattle.arguments.specs.Arguments.{parsed};

// The decimal number that a text says, if it says one; one over 65,535 counts as 65,535.
pub fn parse(text: &[u8]) -> Option<u16>
    ensures { result ≡ parsed text.now }
{
    if text.is_empty() {
        return None;
    }
    let mut value = 0;
    for byte in text {
        if !byte.is_ascii_digit() {
            return None;
        }
        value = with_digit(value, byte - b'0');
    }
    Some(value)
}

// A number with one digit more, or 65,535.
fn with_digit(value: u16, digit: u8) -> u16
    ensures { result ≡ min (value * 10 + digit) 65535 }
{
    value.saturating_mul(10).saturating_add(u16::from(digit))
}
