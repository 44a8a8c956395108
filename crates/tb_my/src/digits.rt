//! Digits of a text.
ghost use Rattle.std.specs.Prelude.{◌≡◌, ◌≤◌, ◌<◌, IfSome};
ghost use Rattle.tb_my.specs.Digits.{below, digit_of, two_in};

/// The number below a limit that two digits are.
pub(crate) fn two_below(limit: u64, tens: u8, units: u8) -> Option<u64>
    ensures number { result ≡ below limit (two_in tens units) }
    ensures most { IfSome result (λ number. number < limit) }
{
    let number = two_digits(tens, units)?;
    if number < limit { Some(number) } else { None }
}

/// The number that two digits are.
pub(crate) fn two_digits(tens: u8, units: u8) -> Option<u64>
    ensures number { result ≡ two_in tens units }
    ensures most { IfSome result (λ number. number < 100) }
{
    let tens = digit_of(tens)?;
    let units = digit_of(units)?;
    Some(tens * 10 + units)
}

fn digit_of(byte: u8) -> Option<u64>
    ensures digit { result ≡ digit_of byte }
    ensures most { IfSome result (λ digit. digit < 10) }
{
    if b'0' <= byte && byte <= b'9' {
        Some(u64::from(byte - b'0'))
    } else {
        None
    }
}
