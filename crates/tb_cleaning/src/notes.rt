//! What is told of a text's tasks, a line each.

ghost use Rattle.std.specs.Prelude.{◌≡◌, ◌++◌, [], IfOk, OnOk, decimal, map, string_bytes};
ghost use Rattle.serde_json.specs.View.{view};
ghost use Rattle.tb_cleaning.specs.Entries.{seen};
ghost use Rattle.tb_cleaning.specs.Notes.{all_changes, changed_part, changes_on, counted, counts_text, double_line, doubles_on, doubles_part, drops_part, left_out, lines_text, losses_lines, losses_part, losses_text, notes_on, notes_text, refused_line, refused_on, refused_part, taken_part, tasks_lines, tasks_text};

use crate::entry::Entry;
use crate::losses::{all_drops, all_links};
use crate::orphans::all_orphans;
use crate::respelling::push_text;
use crate::telling::line_of;
use crate::verdict::Verdict;
use std::alloc::{AllocError, Global};
use tb_values::{Items, Text};

const REFUSED: &str = "can't be taken: ";

const DOUBLE: &str = "left out: ";

const KNOWN: &str = "its uuid was there before";

const CHANGED: &str = "changed: ";

/// The lines of each kind, and how many tasks are brought.
#[derive(Drop)]
pub(crate) struct Notes {
    pub refused: Items<Text>,
    pub doubles: Items<Text>,
    pub changes: Items<Text>,
    pub orphans: Items<Text>,
    pub links: Items<Text>,
    pub drops: Items<Text>,
    pub taken: usize,
}

impl Notes {
    /// Of all tasks of a text, and those that are brought.
    pub(crate) fn of(alloc: Global, entries: &[Entry], list: &[&Entry]) -> Result<Notes, AllocError>
        ensures { IfOk result (λ notes. notes
            ≡ notes_on (map seen entries.now) (map (λ e. seen e.now) list.entry.now)) }
    {
        Ok(Notes {
            refused: refused_on(alloc, entries)?,
            doubles: doubles_on(alloc, entries)?,
            changes: all_changes(alloc, list)?,
            orphans: all_orphans(alloc, list)?,
            links: all_links(alloc, list)?,
            drops: all_drops(alloc, list)?,
            taken: list.len(),
        })
    }

    /// A line each, and the counts.
    pub(crate) fn text(&self, alloc: Global, skips: bool) -> Result<Text, AllocError>
        ensures { IfOk result (λ text. text ≡ notes_text skips self.now) }
    {
        let mut text = String::new(alloc);
        self.push_tasks_lines(&mut text)?;
        self.push_losses_lines(&mut text)?;
        self.push_counts_text(&mut text, skips)?;
        Ok(Text::from_string(text))
    }

    fn push_tasks_lines(&self, text: &mut String) -> Result<(), AllocError>
        ensures { OnOk result
            (string_bytes text.new ≡ string_bytes text.old ++ tasks_lines self.now) }
    {
        push_lines(text, self.refused.as_slice())?;
        push_lines(text, self.doubles.as_slice())?;
        push_lines(text, self.changes.as_slice())
    }

    fn push_losses_lines(&self, text: &mut String) -> Result<(), AllocError>
        ensures { OnOk result
            (string_bytes text.new ≡ string_bytes text.old ++ losses_lines self.now) }
    {
        push_lines(text, self.orphans.as_slice())?;
        push_lines(text, self.links.as_slice())?;
        push_lines(text, self.drops.as_slice())
    }

    fn push_counts_text(&self, text: &mut String, skips: bool) -> Result<(), AllocError>
        ensures { OnOk result
            (string_bytes text.new ≡ string_bytes text.old ++ counts_text skips self.now) }
    {
        self.push_tasks_text(text, skips)?;
        self.push_losses_text(text)
    }

    fn push_tasks_text(&self, text: &mut String, skips: bool) -> Result<(), AllocError>
        ensures { OnOk result
            (string_bytes text.new ≡ string_bytes text.old ++ tasks_text skips self.now) }
    {
        self.push_taken_part(text)?;
        self.push_refused_part(text, skips)?;
        self.push_changed_part(text)
    }

    fn push_losses_text(&self, text: &mut String) -> Result<(), AllocError>
        ensures { OnOk result
            (string_bytes text.new ≡ string_bytes text.old ++ losses_text self.now) }
    {
        self.push_doubles_part(text)?;
        self.push_losses_part(text)?;
        self.push_drops_part(text)
    }

    fn push_taken_part(&self, text: &mut String) -> Result<(), AllocError>
        ensures { OnOk result
            (string_bytes text.new ≡ string_bytes text.old ++ taken_part self.now) }
    {
        push_counted(text, self.taken, " task")?;
        text.push_str(" can be taken, ")
    }

    fn push_refused_part(&self, text: &mut String, skips: bool) -> Result<(), AllocError>
        ensures { OnOk result
            (string_bytes text.new ≡ string_bytes text.old ++ refused_part skips self.now) }
    {
        push_number(text, self.refused.len())?;
        text.push_str(" can't be taken")?;
        text.push_str(left_out(skips))
    }

    fn push_changed_part(&self, text: &mut String) -> Result<(), AllocError>
        ensures { OnOk result
            (string_bytes text.new ≡ string_bytes text.old ++ changed_part self.now) }
    {
        text.push_str(", ")?;
        push_counted(text, self.changes.len(), " change")?;
        text.push_str(", ")
    }

    fn push_doubles_part(&self, text: &mut String) -> Result<(), AllocError>
        ensures { OnOk result
            (string_bytes text.new ≡ string_bytes text.old ++ doubles_part self.now) }
    {
        push_counted(text, self.doubles.len(), " double")?;
        text.push_str(" left out, ")
    }

    fn push_losses_part(&self, text: &mut String) -> Result<(), AllocError>
        ensures { OnOk result
            (string_bytes text.new ≡ string_bytes text.old ++ losses_part self.now) }
    {
        push_counted(text, self.orphans.len(), " orphan")?;
        text.push_str(", ")?;
        push_counted(text, self.links.len(), " link")
    }

    fn push_drops_part(&self, text: &mut String) -> Result<(), AllocError>
        ensures { OnOk result
            (string_bytes text.new ≡ string_bytes text.old ++ drops_part self.now) }
    {
        text.push_str(" and ")?;
        push_counted(text, self.drops.len(), " member")?;
        text.push_str(" dropped\n")
    }
}

fn left_out(skips: bool) -> &'static str
    ensures { result.now ≡ left_out skips }
{
    if skips { " and are left out" } else { "" }
}

fn push_number(text: &mut String, number: usize) -> Result<(), AllocError>
    ensures { OnOk result (string_bytes text.new ≡ string_bytes text.old ++ decimal number) }
{
    write!(text, "{number}")
}

/// A number of things.
fn push_counted(text: &mut String, number: usize, what: &str) -> Result<(), AllocError>
    ensures { OnOk result
        (string_bytes text.new ≡ string_bytes text.old ++ counted number what.now) }
{
    push_number(text, number)?;
    text.push_str(what)?;
    if number == 1 {
        return Ok(());
    }
    text.push_str("s")
}

fn push_lines(text: &mut String, lines: &[Text]) -> Result<(), AllocError>
    ensures { OnOk result
        (string_bytes text.new ≡ string_bytes text.old ++ lines_text lines.now) }
{
    for line in lines {
        text.push_str(line.as_str())?;
        text.push_str("\n")?;
    }
    Ok(())
}

fn refused_line(alloc: Global, entry: &Entry) -> Result<Option<Text>, AllocError>
    ensures { IfOk result
        (λ line. line ≡ refused_line (view entry.now.value) entry.now.verdict) }
{
    match &entry.verdict {
        Verdict::Refused(reason) => {
            Ok(Some(line_of(alloc, REFUSED, &entry.value, reason.as_str())?))
        }
        Verdict::Taken(_) | Verdict::Double => Ok(None),
    }
}

fn refused_on(alloc: Global, entries: &[Entry]) -> Result<Items<Text>, AllocError>
    ensures { IfOk result (λ lines. lines ≡ refused_on [] (map seen entries.now)) }
{
    let mut found = Items::new(alloc);
    for entry in entries {
        push_text(&mut found, refused_line(alloc, entry)?)?;
    }
    Ok(found)
}

fn double_line(alloc: Global, entry: &Entry) -> Result<Option<Text>, AllocError>
    ensures { IfOk result
        (λ line. line ≡ double_line (view entry.now.value) entry.now.verdict) }
{
    match &entry.verdict {
        Verdict::Double => Ok(Some(line_of(alloc, DOUBLE, &entry.value, KNOWN)?)),
        Verdict::Taken(_) | Verdict::Refused(_) => Ok(None),
    }
}

fn doubles_on(alloc: Global, entries: &[Entry]) -> Result<Items<Text>, AllocError>
    ensures { IfOk result (λ lines. lines ≡ doubles_on [] (map seen entries.now)) }
{
    let mut found = Items::new(alloc);
    for entry in entries {
        push_text(&mut found, double_line(alloc, entry)?)?;
    }
    Ok(found)
}

fn push_changes(alloc: Global, found: &mut Items<Text>, entry: &Entry) -> Result<(), AllocError>
    ensures { OnOk result
        (found.new ≡ changes_on found.old (view entry.now.value) entry.now.changes) }
{
    for change in entry.changes.as_slice() {
        found.push(line_of(alloc, CHANGED, &entry.value, change.as_str())?)?;
    }
    Ok(())
}

fn all_changes(alloc: Global, entries: &[&Entry]) -> Result<Items<Text>, AllocError>
    ensures { IfOk result
        (λ lines. lines ≡ all_changes [] (map (λ e. seen e.now) entries.entry.now)) }
{
    let mut found = Items::new(alloc);
    for entry in entries {
        push_changes(alloc, &mut found, entry)?;
    }
    Ok(found)
}
