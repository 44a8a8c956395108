//! Tasks as JSON, both ways: the attributes of Taskwarrior's format, imports, edits and stored texts.
//! It stands on tb_task's tasks and on serde_json, whose definition says which text is which value.
#![tactic(auto)]

mod annotations;
mod attribute;
mod extras;
mod fault;
mod fields;
mod import;
mod import_fault;
mod lines;
mod lists;
mod members;
mod modify;
mod numbers;
mod parsing;
mod reading;
mod stored;
mod values;
mod writing;

pub use fault::JsonFault;
pub use import::read_import;
pub use import_fault::ImportFault;
pub use members::{put_id, put_moment, put_priority, put_tags, put_text, put_text_if_some};
pub use modify::read_modify;
pub use parsing::parse;
pub use reading::read_task;
pub use stored::{read_stored, write_stored};
pub use writing::{write_task, write_tasks};
