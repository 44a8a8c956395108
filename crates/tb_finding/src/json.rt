//! Found tasks as JSON.
ghost use Rattle.std.specs.Prelude.{◌≡◌, ◌<◌, ◌+◌, ◌^◌, ◌++◌, IfOk, OnOk, option_map, slice_get, string_bytes, true};
ghost use Rattle.tb_finding.specs.Json.{json_at, json_list, json_marks, json_numbers, json_task, json_tasks, truth, unended};

use crate::finding::Key;
use crate::look::Look;
use std::alloc::{AllocError, Global};
use std::fmt::Write;
use tb_json::write_stored;
use tb_my::before_key;
use tb_report::decimals;
use tb_task::Task;
use tb_values::Text;

/// Found tasks as a list, with a task on each line.
pub(crate) fn json_list(alloc: Global, look: &Look, keys: &[Key]) -> Result<Text, AllocError>
    ensures { IfOk result (λ text. text ≡ json_list look.now keys.now) }
{
    let mut text = String::from_str(alloc, "[\n")?;
    push_tasks(alloc, &mut text, look, keys)?;
    text.push_str("\n]\n")?;
    Ok(Text::from_string(text))
}

fn push_tasks(alloc: Global, text: &mut String, look: &Look, keys: &[Key]) -> Result<(), AllocError>
    ensures { OnOk result (string_bytes text.new
        ≡ string_bytes text.old ++ json_tasks look.now true keys.now) }
{
    let mut is_first = true;
    for key in keys {
        push_at(alloc, text, look, *key, is_first)?;
        is_first = false;
    }
    Ok(())
}

fn push_at(
    alloc: Global,
    text: &mut String,
    look: &Look,
    key: Key,
    is_first: bool,
) -> Result<(), AllocError>
    ensures { OnOk result (string_bytes text.new ≡ string_bytes text.old
        ++ json_at look.now key (slice_get look.now.tasks key.1.1) is_first) }
{
    let Some(task) = look.task(key.1.1) else {
        return Ok(());
    };
    if !is_first {
        text.push_str(",\n")?;
    }
    push_task(alloc, text, look, key, task)
}

fn push_task(
    alloc: Global,
    text: &mut String,
    look: &Look,
    key: Key,
    task: &Task,
) -> Result<(), AllocError>
    requires { key.1.1 + 1 < 2 ^ 64 }
    ensures { OnOk result (string_bytes text.new
        ≡ string_bytes text.old ++ json_task look.now key task.now) }
{
    let stored = write_stored(alloc, task)?;
    text.push_str(unended(stored.as_str()))?;
    push_marks(text, look, key.1.1)?;
    push_numbers(alloc, text, key)
}

fn push_marks(text: &mut String, look: &Look, place: usize) -> Result<(), AllocError>
    ensures { OnOk result (string_bytes text.new
        ≡ string_bytes text.old ++ json_marks look.now place) }
{
    let blocked = truth(look.is_blocked(place));
    let blocking = truth(look.is_blocking(place));
    write!(text, ",\"blocked\":{blocked},\"blocking\":{blocking}")
}

fn push_numbers(alloc: Global, text: &mut String, key: Key) -> Result<(), AllocError>
    requires { key.1.1 + 1 < 2 ^ 64 }
    ensures { OnOk result (string_bytes text.new ≡ string_bytes text.old ++ json_numbers key) }
{
    let urgency = decimals(alloc, key.1.0.0)?;
    let place = key.1.1 + 1;
    let urgency = urgency.as_str();
    write!(text, ",\"place\":{place},\"urgency\":{urgency}}}")
}

/// An object without the brace that ends it.
fn unended(text: &str) -> &str
    ensures { result.now ≡ unended text.now }
{
    match before_key(text, "}") {
        Some(front) => front,
        None => text,
    }
}

pub(crate) fn truth(is_so: bool) -> &'static str
    ensures { result.now ≡ truth is_so }
{
    if is_so { "true" } else { "false" }
}
