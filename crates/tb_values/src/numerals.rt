//! Decimal numbers in texts.
ghost use Rattle.std.specs.Prelude.{◌≡◌, ◌≤◌, IfSome, nat_lt, slice_index};
ghost use Rattle.tb_values.specs.Numerals.{number_to};

/// The decimal number from 1 to a limit that a text writes without a leading zero.
pub fn read_number(text: &str, limit: u32) -> Option<u32>
    ensures read { result ≡ number_to limit text.now }
    ensures limit { IfSome result (λ number. number ≤ limit) }
{
    let number = read_long_number(text)?;
    if number > limit {
        return None;
    }
    Some(number)
}

fn read_long_number(text: &str) -> Option<u32>
    ensures { result ≡ number_to 4294967295 text.now }
{
    if !begins_above_zero(text) {
        return None;
    }
    text.parse::<u32>().ok()
}

fn begins_above_zero(text: &str) -> bool
    ensures { result ≡ nat_lt 48 (slice_index text.now 0) }
{
    match text.as_bytes().first() {
        Some(first) => *first > b'0',
        None => false,
    }
}
