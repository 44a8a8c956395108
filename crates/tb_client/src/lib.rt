//! A client: the message of a call or view by its words, the reading of an answer, and the sending of a message until it is answered.
//! Generic over what reaches a server, so that tests can stand in for it. Stands on `httparse` for the grammar of heads, on
//! `serde_json` for bodies, on `tb_board` for names and keys, and on `tb_task` for identifiers.
#![tactic(auto)]

mod answer;
mod asking;
mod given;
mod line;
mod message;
mod own_key;
mod places;
mod request;

pub use answer::{Reply, read_reply};
pub use asking::{AskFault, Line, ask_until_answered};
pub use message::{Sender, message_of};
pub use own_key::{is_own_key_alone, own_key_words};
pub use places::{BoardTask, export_of, named_words, places_of, read_tasks, task_at};
pub use request::{Request, request_of};
