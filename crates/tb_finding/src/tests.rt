//! What a task has to be to be found.
ghost use Rattle.std.specs.Prelude.{◌≡◌, option_map};
ghost use Rattle.tb_finding.specs.Tests.{assignee, begins, begins_with_dot, contains, has_standing, has_text, is_as_wanted, is_found, is_in, is_of_project, is_on, is_overdue, is_past, is_within, letter_of, lowered, passes, passes_all, says, some_note_has, text_of};
ghost use Rattle.tb_report.specs.Urgencies.{is_waiting_now};

use tb_board::is_pending_or_waiting_status;
use tb_my::{Clock, Days, Query, Standing, Test, Wanted, after_key};
use tb_task::{Annotation, Extra, ExtraValue, Moment, Priority, Status, Task};
use tb_values::{NonEmptyText, Text};

/// Whether a query asks for a task, which is blocked or not.
pub fn is_found(clock: &Clock, query: &Query, is_blocked: bool, task: &Task) -> bool
    ensures { result ≡ is_found clock.now query.now is_blocked task.now }
{
    has_standing(query.standing, task.status)
        && passes_all(clock, is_blocked, task, query.tests.as_slice())
}

fn has_standing(standing: Standing, status: Status) -> bool
    ensures { result ≡ has_standing standing status }
{
    match standing {
        Standing::Open => is_pending_or_waiting_status(status),
        Standing::Pending => matches!(status, Status::Pending),
        Standing::Waiting => matches!(status, Status::Waiting),
        Standing::Recurring => matches!(status, Status::Recurring),
        Standing::Completed => matches!(status, Status::Completed),
        Standing::Deleted => matches!(status, Status::Deleted),
        Standing::Any => true,
    }
}

fn passes_all(clock: &Clock, is_blocked: bool, task: &Task, tests: &[Wanted]) -> bool
    ensures { result ≡ passes_all clock.now is_blocked task.now tests.now }
{
    for wanted in tests {
        if !is_as_wanted(clock, is_blocked, task, wanted) {
            return false;
        }
    }
    true
}

fn is_as_wanted(clock: &Clock, is_blocked: bool, task: &Task, wanted: &Wanted) -> bool
    ensures { result ≡ is_as_wanted clock.now is_blocked task.now wanted.now }
{
    let does_pass = passes(clock, is_blocked, task, &wanted.test);
    if wanted.is_so { does_pass } else { !does_pass }
}

fn passes(clock: &Clock, is_blocked: bool, task: &Task, test: &Test) -> bool
    ensures { result ≡ passes clock.now is_blocked task.now test.now }
{
    match test {
        Test::Project(whole) => is_of_project(whole.as_str(), &task.project),
        Test::Tag(tag) => has_text(tag, task.tags.as_slice()),
        Test::For(name) => assignee(task.extras.as_slice()) == name.as_str(),
        Test::Priority(letter) => letter_of(task.priority) == letter.as_str(),
        Test::Due(days) => is_on(clock, *days, task.due),
        Test::Overdue => is_overdue(clock, task.due),
        Test::Blocked => is_blocked,
        Test::Waiting => is_waiting(task.status),
        Test::Done(days) => is_on(clock, *days, task.end),
        Test::Says(part) => says(part.as_bytes(), task),
    }
}

pub(crate) fn letter_of(priority: Option<Priority>) -> &'static str
    ensures { result.now ≡ letter_of priority }
{
    match priority {
        None => "",
        Some(Priority::High) => "H",
        Some(Priority::Medium) => "M",
        Some(Priority::Low) => "L",
    }
}

/// Whether a task is of a project, or of none where that is empty.
fn is_of_project(whole: &str, project: &Option<NonEmptyText>) -> bool
    ensures { result ≡ is_of_project whole.now project.now }
{
    match project {
        Some(project) => is_within(whole, project.as_str()),
        None => whole.is_empty(),
    }
}

/// Whether a project is that one or a part of it, as `Home.garden` of `Home`.
fn is_within(whole: &str, project: &str) -> bool
    ensures { result ≡ is_within whole.now project.now }
{
    project == whole || begins_with_dot(after_key(project, whole))
}

fn begins_with_dot(rest: Option<&str>) -> bool
    ensures { result ≡ begins_with_dot (option_map (λ text. text.now) rest.entry) }
{
    let Some(rest) = rest else {
        return false;
    };
    match rest.as_bytes() {
        [first, ..] => *first == b'.',
        [] => false,
    }
}

fn has_text(text: &Text, texts: &[Text]) -> bool
    ensures { result ≡ has_text text.now texts.now }
{
    for other in texts {
        if text.is(other) {
            return true;
        }
    }
    false
}

/// Who has a task: nobody where it is empty.
pub(crate) fn assignee(extras: &[Extra]) -> &str
    ensures { result.now ≡ assignee extras.now }
{
    for extra in extras {
        if extra.name.as_str() == "assignee" {
            return text_of(&extra.value);
        }
    }
    ""
}

fn text_of(value: &ExtraValue) -> &str
    ensures { result.now ≡ text_of value.now }
{
    match value {
        ExtraValue::Text(text) => text.as_str(),
        ExtraValue::Whole(_) | ExtraValue::Truth(_) | ExtraValue::Null => "",
    }
}

fn is_waiting(status: Status) -> bool
    ensures { result ≡ is_waiting_now status }
{
    matches!(status, Status::Waiting)
}

fn is_on(clock: &Clock, days: Days, moment: Option<Moment>) -> bool
    ensures { result ≡ is_on clock.now days moment }
{
    match moment {
        Some(moment) => is_in(days, clock.day_at(moment)),
        None => false,
    }
}

fn is_in(days: Days, day: u64) -> bool
    ensures { result ≡ is_in days day }
{
    days.first <= day && day <= days.last
}

/// Whether a day before today, or a time before now, was due.
pub(crate) fn is_overdue(clock: &Clock, due: Option<Moment>) -> bool
    ensures { result ≡ is_overdue clock.now due }
{
    match due {
        Some(due) => is_past(clock, due),
        None => false,
    }
}

fn is_past(clock: &Clock, moment: Moment) -> bool
    ensures { result ≡ is_past clock.now moment }
{
    if clock.is_timed(moment) {
        moment.seconds() < clock.moment.seconds()
    } else {
        clock.day_at(moment) < clock.today()
    }
}

/// Whether the description or a note has a text.
fn says(part: &[u8], task: &Task) -> bool
    ensures { result ≡ says part.now task.now }
{
    contains(part, task.description.as_bytes()) || some_note_has(part, task.annotations.as_slice())
}

fn some_note_has(part: &[u8], notes: &[Annotation]) -> bool
    ensures { result ≡ some_note_has part.now notes.now }
{
    for note in notes {
        if contains(part, note.description.as_bytes()) {
            return true;
        }
    }
    false
}

/// Whether a text has a part somewhere; capitals of A to Z count as small letters.
fn contains(part: &[u8], text: &[u8]) -> bool
    ensures { result ≡ contains part.now text.now }
{
    for start in 0..text.len() {
        if begins(part, &text[start..]) {
            return true;
        }
    }
    part.is_empty()
}

#[tactic(auto, using(crate::proofs::Texts::shorter_text))]
fn begins(part: &[u8], text: &[u8]) -> bool
    ensures { result ≡ begins part.now text.now }
{
    if part.len() > text.len() {
        return false;
    }
    for index in 0..part.len() {
        if lowered(part[index]) != lowered(text[index]) {
            return false;
        }
    }
    true
}

fn lowered(byte: u8) -> u8
    ensures { result ≡ lowered byte }
{
    if b'A' <= byte && byte <= b'Z' {
        byte + 32
    } else {
        byte
    }
}
