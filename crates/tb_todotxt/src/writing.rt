//! The text of a file of tasks.
ghost use Rattle.std.specs.Prelude.{◌≡◌, ◌++◌, IfOk, OnOk, string_bytes};
ghost use Rattle.tb_todotxt.specs.FileTexts.{file_text, line_text};

use crate::reading::write_line;
use crate::showing::from_task;
use std::alloc::{AllocError, Global};
use tb_task::{Shown, check};
use tb_values::Text;

/// A line for each task that has one, each ended by a line feed. A task that no board takes has none.
pub fn write_file(alloc: Global, tasks: &[Shown]) -> Result<Text, AllocError>
    ensures { IfOk result (λ text. text ≡ file_text tasks.now) }
{
    let mut text = String::new(alloc);
    for shown in tasks {
        push_task(alloc, &mut text, shown)?;
    }
    Ok(Text::from_string(text))
}

fn push_task(alloc: Global, text: &mut String, shown: &Shown) -> Result<(), AllocError>
    ensures { OnOk result
        (string_bytes text.new ≡ string_bytes text.old ++ line_text shown.now.task) }
{
    if check(shown.task.get()).is_err() {
        return Ok(());
    }
    if let Some(line) = from_task(alloc, shown)? {
        let spelled = write_line(alloc, &line)?;
        text.push_str(spelled.as_str())?;
        text.push('\n')?;
    }
    Ok(())
}
