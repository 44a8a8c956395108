ghost use Rattle.std.specs.Prelude.{◌≡◌, ◌≤◌, ◌-◌, IfSome, Some, None, codes, ◌*◌, if◌then◌else◌};
ghost use Rattle.tb_task.specs.declared.step.Step.TheVariants.{Days, Months};
ghost use Rattle.tb_task.specs.Step.{step_of, word_step, calendar_word_step, number_of, number_between, row_number, row_step, is_digit, is_first_digit};

/// How far apart the instances of a template are due.
#[derive(Clone, Copy, Debug, PartialEq, Eq)]
pub enum Step {
    Days(u32),
    Weekdays,
    Months(u32),
}

impl Step {
    /// The step that a text writes.
    #[tactic(auto, unfolding(crate::specs::Step::step_of))]
    pub fn read(text: &str) -> Option<Step>
        ensures { result ≡ step_of text.now }
    {
        if let Some(step) = word(text) {
            return Some(step);
        }
        if let Some(step) = calendar_word(text) {
            return Some(step);
        }
        let bytes = text.as_bytes();
        if let Some(step) = days(bytes) {
            return Some(step);
        }
        if let Some(step) = weeks(bytes) {
            return Some(step);
        }
        if let Some(step) = months(bytes) {
            return Some(step);
        }
        years(bytes)
    }
}

#[tactic(auto, unfolding(crate::specs::Step::word_step))]
fn word(text: &str) -> Option<Step>
    ensures { result ≡ word_step text.now }
{
    match text {
        "daily" | "day" => Some(Step::Days(1)),
        "weekdays" => Some(Step::Weekdays),
        "weekly" => Some(Step::Days(7)),
        "biweekly" | "fortnight" => Some(Step::Days(14)),
        _ => None,
    }
}

#[tactic(auto, unfolding(crate::specs::Step::calendar_word_step))]
fn calendar_word(text: &str) -> Option<Step>
    ensures { result ≡ calendar_word_step text.now }
{
    match text {
        "monthly" => Some(Step::Months(1)),
        "quarterly" => Some(Step::Months(3)),
        "semiannual" => Some(Step::Months(6)),
        "annual" | "yearly" => Some(Step::Months(12)),
        "biannual" | "biyearly" => Some(Step::Months(24)),
        _ => None,
    }
}

#[tactic(auto, unfolding(crate::specs::Step::row_step))]
fn days(text: &[u8]) -> Option<Step>
    ensures { result ≡ row_step Days (codes "d") (codes "D") text.now }
{
    let number = number_of_row(text, b"d", b"D")?;
    Some(Step::Days(number))
}

#[tactic(auto, unfolding(crate::specs::Step::row_step))]
fn weeks(text: &[u8]) -> Option<Step>
    ensures { result ≡ row_step (λ n. Days (7 * n)) (codes "w") (codes "W") text.now }
{
    let number = number_of_row(text, b"w", b"W")?;
    Some(Step::Days(7 * number))
}

#[tactic(auto, unfolding(crate::specs::Step::row_step))]
fn months(text: &[u8]) -> Option<Step>
    ensures { result ≡ row_step Months (codes "mo") (codes "M") text.now }
{
    let number = number_of_row(text, b"mo", b"M")?;
    Some(Step::Months(number))
}

#[tactic(auto, unfolding(crate::specs::Step::row_step))]
fn years(text: &[u8]) -> Option<Step>
    ensures { result ≡ row_step (λ n. Months (12 * n)) (codes "y") (codes "Y") text.now }
{
    let number = number_of_row(text, b"y", b"Y")?;
    Some(Step::Months(12 * number))
}

/// The number with the short letters behind it, or between P and the long ones.
#[tactic(auto, unfolding(crate::specs::Step::row_number))]
fn number_of_row(text: &[u8], short: &[u8], long: &[u8]) -> Option<u32>
    ensures value { result ≡ row_number short.now long.now text.now }
    ensures small { IfSome result (λ n. n ≤ 999) }
{
    if let Some(number) = number_between(text, b"", short) {
        return Some(number);
    }
    number_between(text, b"P", long)
}

/// The number between two texts.
#[tactic(auto, unfolding(crate::specs::Step::number_between))]
fn number_between(text: &[u8], front: &[u8], back: &[u8]) -> Option<u32>
    ensures value { result ≡ number_between front.now back.now text.now }
    ensures small { IfSome result (λ n. n ≤ 999) }
{
    let rest = text.strip_prefix(front)?;
    let digits = rest.strip_suffix(back)?;
    number(digits)
}

/// The number that one to three digits write.
#[tactic(auto, unfolding(crate::specs::Step::number_of))]
fn number(digits: &[u8]) -> Option<u32>
    ensures value { result ≡ number_of digits.now }
    ensures small { IfSome result (λ n. n ≤ 999) }
{
    match digits {
        [ones] => first_digit(*ones),
        [tens, ones] => Some(first_digit(*tens)? * 10 + digit(*ones)?),
        [hundreds, tens, ones] => {
            Some(first_digit(*hundreds)? * 100 + digit(*tens)? * 10 + digit(*ones)?)
        }
        _ => None,
    }
}

fn first_digit(byte: u8) -> Option<u32>
    ensures value { result ≡ (if is_first_digit byte then Some (byte - 48) else None) }
    ensures small { IfSome result (λ n. n ≤ 9) }
{
    if byte == b'0' { None } else { digit(byte) }
}

fn digit(byte: u8) -> Option<u32>
    ensures value { result ≡ (if is_digit byte then Some (byte - 48) else None) }
    ensures small { IfSome result (λ n. n ≤ 9) }
{
    if b'0' <= byte && byte <= b'9' {
        Some((byte - b'0') as u32)
    } else {
        None
    }
}
