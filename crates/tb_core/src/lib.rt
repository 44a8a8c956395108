//! What each command makes of the task boards that people share.
//!
//! It owns the commands, what each of them looks at, their refusals and answers, and the laws that good worlds stay good. It stands
//! on `tb_board` for boards, people and changes, and on `tb_task` for tasks.
#![tactic(auto)]

mod action;
mod add;
mod allowed;
mod command;
mod deciding;
mod edits;
mod effect;
mod giving;
mod import_json;
mod import_todo;
mod judged;
mod keys;
pub mod laws;
mod linking;
mod look;
mod modify;
mod notes;
mod people;
mod refusal;
mod transitions;

pub use action::Action;
pub use add::lacks_one;
pub use command::{Answer, AnswerDetail, BoardAnswer, BoardCommand, Command, Import};
pub use deciding::{Decision, decide};
pub use look::{Seen, SeenBoard, SeenPerson, look_for};
pub use refusal::Refusal;
