//! Calls and views, the words that ask for them, the replies to them, and the trait of what keeps a world with the replies given.
//!
//! It owns what a call leads to, what a reply says, boards and people by their roles, and what a keeper promises. It stands on `tb_core`
//! for commands, answers and refusals, and on `serde_json` for JSON.
#![tactic(auto)]

mod bodies;
mod call;
mod fault;
mod keep;
mod lookup;
mod reply;
mod role_bodies;
mod roles;
mod view;
mod word;
mod writing;

pub use call::{Call, KeptReply};
pub use fault::KeepFault;
pub use keep::{Keep, Written};
pub use lookup::{kept_reply, key_in};
pub use reply::Reply;
pub use role_bodies::{BoardRole, PersonRole, write_me, write_people};
pub use roles::{boards_of, people_for};
pub use view::View;
pub use word::Word;
pub use writing::{reply_to, reply_to_refused};
