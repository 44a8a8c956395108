//! The number of an instance: a JSON number, or the same as decimal text.

ghost use Rattle.std.specs.Prelude.{◌≡◌, codes, option_and_then};
ghost use Rattle.serde_json.specs.View.{view};
ghost use Rattle.tb_json.specs.Attribute.{given};
ghost use Rattle.tb_json.specs.Numbers.{with_digit as longer, with_digits, imask_form};

use crate::attribute::given;
use serde_json::Value;

fn with_digit(number: u32, byte: u8) -> Option<u32>
    ensures { result ≡ longer number byte }
{
    if !byte.is_ascii_digit() {
        return None;
    }
    number.checked_mul(10)?.checked_add(u32::from(byte - b'0'))
}

/// The number that a text of digits writes. It may begin with zeros.
fn decimal_of(text: &str) -> Option<u32>
    ensures { result ≡ with_digits 0 text.now }
{
    let mut number = 0;
    for byte in text.as_bytes() {
        number = with_digit(number, *byte)?;
    }
    Some(number)
}

fn imask_of(value: &Value) -> Option<u32>
    ensures { result ≡ imask_form (view value.now) }
{
    match value {
        Value::Number(number) => u32::try_from(number.as_u64()?).ok(),
        Value::String(text) => decimal_of(text),
        _ => None,
    }
}

/// The number of an instance. In any other form it counts as absent.
pub(crate) fn imask_at(object: &Value) -> Option<u32>
    ensures { result ≡ option_and_then imask_form (given (codes "imask") (view object.now)) }
{
    imask_of(given(object, "imask")?)
}
