//! What words after `list` ask for.
ghost use Rattle.std.specs.Prelude.{◌≡◌, ◌≤◌, IfOk};
ghost use Rattle.tb_my.specs.Outcome.{Reads};
ghost use Rattle.tb_my.specs.Query.{after, all_open, before, begun, day_or_fault, days_in, done_in, due_days, due_in, filter_named, other_filter, person_named, priority_filter, query_of, sort_named, standing_named, status_filter, taken_filter, text_filter, week_ahead, week_back, with_filter, with_option, with_sort, with_standing, with_test, with_word, word_filter};

use crate::days::{after_key, day_named};
use crate::fault::{MyFault, no_day, no_filter, no_option, no_priority};
use crate::part::{after_either, after_sign, has_sign, is_named};
use crate::word::MyWord;
use crate::zone::Clock;
use std::alloc::{AllocError, Global};
use tb_values::{Items, Text};

/// Days from one to another, counted from 1970-01-01.
#[derive(Clone, Copy, Debug)]
pub struct Days {
    pub first: u64,
    pub last: u64,
}

/// What a task has to be.
#[derive(Drop)]
pub enum Test {
    /// Of this project, or of a part of it.
    Project(Text),
    Tag(Text),
    /// For the person of this name: for nobody where it is empty.
    For(Text),
    /// Of this letter: of none where it is empty.
    Priority(Text),
    Due(Days),
    Overdue,
    Blocked,
    Waiting,
    /// Completed on one of these days.
    Done(Days),
    /// Its description or a note has this text; capitals of A to Z count as small letters.
    Says(Text),
}

/// A test that a task has to pass, or not to pass.
#[derive(Drop)]
pub struct Wanted {
    pub test: Test,
    pub is_so: bool,
}

#[derive(Clone, Copy, Debug, PartialEq, Eq)]
pub enum Sort {
    /// The most urgent first.
    Urgency,
    /// The first due first, those without a due date last.
    Due,
    /// By the bytes of the project's name, those without one last.
    Project,
}

/// Where a task has to stand.
#[derive(Clone, Copy, Debug, PartialEq, Eq)]
pub enum Standing {
    /// Pending or waiting.
    Open,
    Pending,
    Waiting,
    Recurring,
    Completed,
    Deleted,
    Any,
}

/// What of the found tasks is told.
#[derive(Clone, Copy, Debug, PartialEq, Eq)]
pub enum Listing {
    Tasks,
    /// Of those, the ones that wait for nothing.
    Next,
    /// Their projects, each with the number of its tasks.
    Projects,
    Tags,
}

/// Which tasks are asked for, and how they are told.
#[derive(Drop)]
pub struct Query {
    /// A task has to be all of this.
    pub tests: Items<Wanted>,
    pub sort: Sort,
    pub is_json: bool,
    pub standing: Standing,
    pub listing: Listing,
}

/// What the next word is.
#[derive(Clone, Copy, Debug, PartialEq, Eq)]
pub(crate) enum Next {
    Filter,
    Order,
    Text,
}

/// What the words after the word of a listing ask for, of the person of a name.
#[tactic(auto, unfolding(crate::specs::Query::with_words))]
pub fn query_of(
    alloc: Global,
    clock: &Clock,
    me: &Text,
    listing: Listing,
    words: &[Text],
) -> Result<Query, MyFault>
    ensures { Reads result (query_of clock.now me.now listing words.now) }
{
    let mut query = Query::begun(alloc, listing)?;
    let mut next = Next::Filter;
    for word in words {
        match next {
            Next::Filter if word.as_str() == "--sort" => next = Next::Order,
            Next::Filter if word.as_str() == "--" => next = Next::Text,
            Next::Filter => query = with_word(alloc, clock, me, query, word)?,
            Next::Order => {
                query = with_sort(query, word.as_str())?;
                next = Next::Filter;
            }
            Next::Text => {
                let text = Text::from_str(alloc, word.as_str())?;
                query = query.with(Test::Says(text), true)?;
            }
        }
    }
    match next {
        Next::Order => Err(MyFault::NoForm(MyWord::List)),
        Next::Filter | Next::Text => Ok(query),
    }
}

impl Query {
    fn all_open(alloc: Global, listing: Listing) -> Query
        ensures { result ≡ all_open listing }
    {
        Query {
            tests: Items::new(alloc),
            sort: Sort::Urgency,
            is_json: false,
            standing: Standing::Open,
            listing,
        }
    }

    /// What no words ask for.
    fn begun(alloc: Global, listing: Listing) -> Result<Query, AllocError>
        ensures { IfOk result (λ query. query ≡ begun listing) }
    {
        let query = Query::all_open(alloc, listing);
        match listing {
            Listing::Next => query.with(Test::Waiting, false)?.with(Test::Blocked, false),
            Listing::Tasks | Listing::Projects | Listing::Tags => Ok(query),
        }
    }

    fn with(self, test: Test, is_so: bool) -> Result<Query, AllocError>
        ensures { IfOk result (λ query. query ≡ with_test self test is_so) }
    {
        let mut query = self;
        query.tests.push(Wanted { test, is_so })?;
        Ok(query)
    }
}

fn with_sort(query: Query, word: &str) -> Result<Query, MyFault>
    ensures { Reads result (with_sort query word.now) }
{
    let Some(sort) = sort_named(word) else {
        return Err(MyFault::NoForm(MyWord::List));
    };
    let mut query = query;
    query.sort = sort;
    Ok(query)
}

fn sort_named(word: &str) -> Option<Sort>
    ensures { result ≡ sort_named word.now }
{
    match word {
        "urgency" => Some(Sort::Urgency),
        "due" => Some(Sort::Due),
        "project" => Some(Sort::Project),
        _ => None,
    }
}

/// An option, or a filter that tasks have to pass, or not to pass after `not:` or `-`.
fn with_word(
    alloc: Global,
    clock: &Clock,
    me: &Text,
    query: Query,
    word: &Text,
) -> Result<Query, MyFault>
    ensures { Reads result (with_word clock.now me.now query word.now) }
{
    let text = word.as_str();
    if let Some(filter) = after_key(text, "not:") {
        return with_filter(alloc, clock, me, query, filter, false);
    }
    if after_key(text, "--").is_some() {
        return with_option(alloc, query, text);
    }
    match after_key(text, "-") {
        Some(filter) => taken_filter(alloc, clock, me, query, text, filter),
        None => with_filter(alloc, clock, me, query, text, true),
    }
}

/// `-@tag` or `-+project`.
fn taken_filter(
    alloc: Global,
    clock: &Clock,
    me: &Text,
    query: Query,
    word: &str,
    filter: &str,
) -> Result<Query, MyFault>
    ensures { Reads result (taken_filter clock.now me.now query word.now filter.now) }
{
    if has_sign(filter.as_bytes(), b'+') || has_sign(filter.as_bytes(), b'@') {
        with_filter(alloc, clock, me, query, filter, false)
    } else {
        Err(no_filter(alloc, word))
    }
}

fn with_option(alloc: Global, query: Query, word: &str) -> Result<Query, MyFault>
    ensures { Reads result (with_option query word.now) }
{
    if word != "--json" {
        return Err(no_option(alloc, word));
    }
    let mut query = query;
    query.is_json = true;
    Ok(query)
}

fn with_filter(
    alloc: Global,
    clock: &Clock,
    me: &Text,
    query: Query,
    word: &str,
    is_so: bool,
) -> Result<Query, MyFault>
    ensures { Reads result (with_filter clock.now me.now query word.now is_so) }
{
    if has_sign(word.as_bytes(), b'+') {
        let project = Text::from_str(alloc, after_sign(word))?;
        return Ok(query.with(Test::Project(project), is_so)?);
    }
    if has_sign(word.as_bytes(), b'@') {
        let tag = Text::from_str(alloc, after_sign(word))?;
        return Ok(query.with(Test::Tag(tag), is_so)?);
    }
    filter_named(alloc, clock, me, query, word, is_so)
}

#[tactic(auto, unfolding(crate::specs::Query::filter_named))]
fn filter_named(
    alloc: Global,
    clock: &Clock,
    me: &Text,
    query: Query,
    word: &str,
    is_so: bool,
) -> Result<Query, MyFault>
    ensures { Reads result (filter_named clock.now me.now query word.now is_so) }
{
    if let Some(day) = after_key(word, "due:") {
        return due_in(alloc, clock, query, day, is_so);
    }
    if let Some(day) = after_key(word, "done:") {
        return done_in(alloc, clock, query, word, day, is_so);
    }
    if let Some(name) = after_either(word, "for:", "assignee:") {
        let name = Text::from_str(alloc, person_named(me.as_str(), name))?;
        return Ok(query.with(Test::For(name), is_so)?);
    }
    other_filter(alloc, me, query, word, is_so)
}

#[tactic(auto, unfolding(crate::specs::Query::other_filter))]
fn other_filter(
    alloc: Global,
    me: &Text,
    query: Query,
    word: &str,
    is_so: bool,
) -> Result<Query, MyFault>
    ensures { Reads result (other_filter me.now query word.now is_so) }
{
    if let Some(priority) = after_either(word, "pri:", "priority:") {
        return priority_filter(alloc, query, priority, is_so);
    }
    if let Some(project) = after_either(word, "project:", "pro:") {
        let project = Text::from_str(alloc, project)?;
        return Ok(query.with(Test::Project(project), is_so)?);
    }
    if let Some(status) = after_key(word, "status:") {
        return status_filter(alloc, query, word, status, is_so);
    }
    word_filter(alloc, me, query, word, is_so)
}

/// Who is named: `me` is who says so.
fn person_named<'t>(me: &'t str, name: &'t str) -> &'t str
    ensures { result.now ≡ person_named me.now name.now }
{
    if name == "me" { me } else { name }
}

fn priority_filter(
    alloc: Global,
    query: Query,
    priority: &str,
    is_so: bool,
) -> Result<Query, MyFault>
    ensures { Reads result (priority_filter query priority.now is_so) }
{
    match priority {
        "" | "H" | "M" | "L" => {
            let priority = Text::from_str(alloc, priority)?;
            Ok(query.with(Test::Priority(priority), is_so)?)
        }
        _ => Err(no_priority(alloc, priority)),
    }
}

fn status_filter(
    alloc: Global,
    query: Query,
    word: &str,
    status: &str,
    is_so: bool,
) -> Result<Query, MyFault>
    ensures { Reads result (status_filter query word.now status.now is_so) }
{
    match standing_named(status) {
        Some(standing) => with_standing(alloc, query, word, standing, is_so),
        None => Err(no_filter(alloc, word)),
    }
}

#[tactic(auto, unfolding(crate::specs::Query::standing_named))]
fn standing_named(status: &str) -> Option<Standing>
    ensures { result ≡ standing_named status.now }
{
    match status {
        "pending" => Some(Standing::Pending),
        "waiting" => Some(Standing::Waiting),
        "recurring" => Some(Standing::Recurring),
        "completed" | "done" => Some(Standing::Completed),
        "deleted" => Some(Standing::Deleted),
        "all" => Some(Standing::Any),
        _ => None,
    }
}

/// Tasks that stand elsewhere, in place of the open ones.
fn with_standing(
    alloc: Global,
    query: Query,
    word: &str,
    standing: Standing,
    is_so: bool,
) -> Result<Query, MyFault>
    ensures { Reads result (with_standing query word.now standing is_so) }
{
    if !is_so {
        return Err(no_filter(alloc, word));
    }
    let mut query = query;
    query.standing = standing;
    Ok(query)
}

/// A filter of one word, or a text.
#[tactic(auto, unfolding(crate::specs::Query::word_filter))]
fn word_filter(
    alloc: Global,
    me: &Text,
    query: Query,
    word: &str,
    is_so: bool,
) -> Result<Query, MyFault>
    ensures { Reads result (word_filter me.now query word.now is_so) }
{
    match word {
        "mine" => {
            let me = Text::from_str(alloc, me.as_str())?;
            Ok(query.with(Test::For(me), is_so)?)
        }
        "overdue" => Ok(query.with(Test::Overdue, is_so)?),
        "blocked" => Ok(query.with(Test::Blocked, is_so)?),
        "waiting" => Ok(query.with(Test::Waiting, is_so)?),
        "done" => with_standing(alloc, query, word, Standing::Completed, is_so),
        "recurring" => with_standing(alloc, query, word, Standing::Recurring, is_so),
        "all" => with_standing(alloc, query, word, Standing::Any, is_so),
        _ => text_filter(alloc, query, word, is_so),
    }
}

fn text_filter(alloc: Global, query: Query, word: &str, is_so: bool) -> Result<Query, MyFault>
    ensures { Reads result (text_filter query word.now is_so) }
{
    if is_named(word.as_bytes()) {
        return Err(no_filter(alloc, word));
    }
    let text = Text::from_str(alloc, word)?;
    Ok(query.with(Test::Says(text), is_so)?)
}

fn due_in(
    alloc: Global,
    clock: &Clock,
    query: Query,
    word: &str,
    is_so: bool,
) -> Result<Query, MyFault>
    ensures { Reads result (due_in clock.now query word.now is_so) }
{
    let days = due_days(alloc, clock, word)?;
    Ok(query.with(Test::Due(days), is_so)?)
}

/// The days before or after one, a week, or a day by its name.
fn due_days(alloc: Global, clock: &Clock, word: &str) -> Result<Days, MyFault>
    ensures { Reads result (due_days clock.now word.now) }
{
    if let Some(day) = after_key(word, "before:") {
        return Ok(before(day_or_fault(alloc, clock, day)?));
    }
    if let Some(day) = after_key(word, "after:") {
        return Ok(after(day_or_fault(alloc, clock, day)?));
    }
    days_in(alloc, clock, week_ahead(clock.today()), word)
}

fn before(day: u64) -> Days
    ensures { result ≡ before day }
{
    if day == 0 {
        return Days { first: 1, last: 0 };
    }
    Days {
        first: 0,
        last: day - 1,
    }
}

fn after(day: u64) -> Days
    ensures { result ≡ after day }
{
    Days {
        first: day.saturating_add(1),
        last: u64::MAX,
    }
}

/// Completed tasks, in place of the open ones.
fn done_in(
    alloc: Global,
    clock: &Clock,
    query: Query,
    word: &str,
    day: &str,
    is_so: bool,
) -> Result<Query, MyFault>
    ensures { Reads result (done_in clock.now query word.now day.now is_so) }
{
    let days = days_in(alloc, clock, week_back(clock.today()), day)?;
    let query = query.with(Test::Done(days), true)?;
    with_standing(alloc, query, word, Standing::Completed, is_so)
}

/// The seven days that begin today.
fn week_ahead(today: u64) -> Days
    requires { today ≤ 100000000000 }
    ensures { result ≡ week_ahead today }
{
    Days {
        first: today,
        last: today + 6,
    }
}

/// The seven days that end today.
fn week_back(today: u64) -> Days
    ensures { result ≡ week_back today }
{
    Days {
        first: today.saturating_sub(6),
        last: today,
    }
}

/// A week, or a day by its name.
fn days_in(alloc: Global, clock: &Clock, week: Days, word: &str) -> Result<Days, MyFault>
    ensures { Reads result (days_in clock.now week word.now) }
{
    if word == "week" {
        return Ok(week);
    }
    let day = day_or_fault(alloc, clock, word)?;
    Ok(Days {
        first: day,
        last: day,
    })
}

fn day_or_fault(alloc: Global, clock: &Clock, word: &str) -> Result<u64, MyFault>
    ensures { Reads result (day_or_fault clock.now word.now) }
{
    match day_named(alloc, clock, word)? {
        Some(day) => Ok(day),
        None => Err(no_day(alloc, word)),
    }
}
