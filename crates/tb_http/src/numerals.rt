//! Decimal numerals.
ghost use Rattle.std.specs.Prelude.{◌≡◌, ◌<◌, ◌≤◌, ◌*◌, ◌+◌, ◌^◌, ℕ, List, length, MatchOption, IsTrue};
ghost use Rattle.std.specs.List.{list_all};
ghost use Rattle.std.specs.Char.{is_ascii_digit};
ghost use Rattle.std.specs.Str.Parse.{digits_value};
ghost use Rattle.tb_http.specs.Numerals as numerals;

fn all_digits(text: &[u8]) -> bool
    ensures { result ≡ list_all is_ascii_digit text.now }
{
    text.iter().all(|byte| byte.is_ascii_digit())
}

/// Decimal digits, and at least one.
pub fn is_number(text: &[u8]) -> bool
    ensures { result ≡ numerals.is_number text.now }
{
    !text.is_empty() && all_digits(text)
}

// The digits from the first that is no zero.
fn significant(digits: &[u8]) -> &[u8]
    ensures { result.now ≡ numerals.significant digits.now }
{
    let mut rest = digits;
    while let Some((first, more)) = rest.split_first() {
        if *first != b'0' {
            break;
        }
        rest = more;
    }
    rest
}

/// Whether two numerals are of one number, however long they are.
pub fn same_number(a: &[u8], b: &[u8]) -> bool
    ensures { result ≡ numerals.same_number a.now b.now }
{
    significant(a) == significant(b)
}

/// The number that these digits write, if it is no larger than the limit.
#[tactic(auto, using(crate::proofs::NumeralLemmas::digits_grow))]
pub fn bounded_number(digits: &[u8], limit: u64) -> Option<u64>
    requires number { IsTrue (numerals.is_number digits.now) }
    requires small { limit < 2 ^ 32 }
    ensures { MatchOption result (limit < digits_value 10 digits.now)
        (λ n. (n ≡ digits_value 10 digits.now) × (n ≤ limit)) }
{
    let mut value = 0;
    for digit in digits {
        if value > limit {
            return None;
        }
        value = value * 10 + u64::from(*digit - b'0');
    }
    if value > limit { None } else { Some(value) }
}
