//! The boards that were used last, at hand beside what stores them.
//!
//! It owns which boards stay at hand, and how they follow the changes of their world. It stands on `tb_board` for boards and changes,
//! and on `lru` for the order of their last use.
#![tactic(auto)]

mod board_cache;
mod following;

pub use board_cache::{BoardCache, MOST_BOARDS_AT_HAND};
