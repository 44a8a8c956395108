ghost use Rattle.std.specs.Prelude.{◌≡◌, ◌≤◌, ◌<◌, ◌^◌};
ghost use Rattle.tb_recur.specs.Weekdays.{IsWeekdayAfter, weekdays_to, nth_weekday, IsNthWeekday};

/// The k-th day from Monday to Friday after a day, or the day itself where k is 0.
pub(crate) fn weekdays_later(day: u64, k: u32) -> u64
    requires { day ≤ 2932896 }
    ensures { result ≡ nth_weekday day k }
{
    if k == 0 {
        return day;
    }
    weekday_after(day, k as u64)
}

fn weekday_after(day: u64, k: u64) -> u64
    requires day { day < 2 ^ 32 }
    requires k { k < 2 ^ 32 }
    requires some { 1 ≤ k }
    ensures { IsWeekdayAfter day k result }
{
    let before = weekdays_until(day);
    let place = before + k - 1;
    place / 5 * 7 + place % 5 - 3
}

/// How many days from Monday to Friday there are up to a day, from the Monday before 1970 on.
fn weekdays_until(day: u64) -> u64
    requires { day < 2 ^ 32 }
    ensures { result ≡ weekdays_to day }
{
    let place = day + 3;
    place / 7 * 5 + (place % 7 + 1).min(5)
}

/// The k-th weekday is the day up to which exactly k weekdays lie after the first.
pub fn nth_weekdays_are_counted()
    ensures { IsNthWeekday }
{}
