//! Lines of todo.txt: read and written exactly, and tasks made of them and shown as them.
//! A line is canonical by its type: whatever would be read as a mark is one, so each line has one spelling.
//! Stands on `tb_task` for moments, identifiers and tasks, and on `tb_values` for texts and lists.
#![tactic(auto)]

mod day;
mod fault;
mod file;
mod letter;
mod line;
mod making;
mod marks;
mod reading;
mod showing;
mod tags;
mod words;
mod writing;

pub use day::Day;
pub use fault::{FileFault, LineFault};
pub use file::read_file;
pub use letter::Letter;
pub use line::{Line, LineParts};
pub use making::to_task;
pub use reading::{lines_are_read, lines_are_spelled, one_spelling, read_line, write_line};
pub use showing::from_task;
pub use words::{id_in, words_of};
pub use writing::write_file;
