//! Connections and lines of scripts, as they are read from files, and how connections are played over lists.
//!
//! It owns the lines of these files, and the scenes with the ways and orders in which their connections are played;
//! `crates/tests/data/README.md` says what the files hold. It stands on `tb_serve` for messages and on `tb_script` for lines.
#![tactic(auto)]

mod at_once;
pub mod ends;
pub mod lines;
mod owner;
mod play;
mod scene;

pub use owner::Owner;
pub use play::play_over_lists;
pub use scene::{Connection, read_scenes};
