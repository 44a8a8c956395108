//! The messages of HTTP/1.1: heads and bodies taken from the bytes of any reader, the resources that they ask for,
//! and the heads of their answers. It stands on `httparse` for the grammar of heads, on `matchit` for routes, on
//! `serde_json` for bodies, on `tb_board` for names, on `tb_task` for identifiers and on `tb_values` for texts, lists and writing.
#![tactic(auto)]

mod answer;
mod begun;
mod body;
mod closing;
mod fault;
mod framing;
mod head;
mod inbox;
mod kind;
pub mod laws;
mod message;
mod numerals;
mod open_head;
mod person_name;
mod reader;
mod resource;
mod route;
mod sender;

pub use answer::{Answer, ContentType, HeadRoom, MediaType};
pub use body::{
    OwnKeyBody, PersonBody, RoleBody, is_empty_object, read_ahead, read_description, read_key,
    read_link, read_own_key, read_person, read_role, read_title,
};
pub use closing::MESSAGE_LIMIT;
pub use fault::WireFault;
pub use framing::{BODY_LIMIT, FIELD_LIMIT};
pub use head::HEAD_LIMIT;
pub use inbox::{FieldRoom, Inbox};
pub use kind::{BoardCall, BoardView, Kind, TaskCall};
pub use message::{Field, Message, find_field};
pub use person_name::PersonName;
pub use reader::Reader;
pub use resource::{CallTarget, Resource, RouteFault};
pub use route::{Routes, Verb};
