//! Whether a world is good, as one that was read from a file may not be.
//!
//! It owns the tests of people, roles and boards, each exact. It stands on `tb_core` for what a good world is, and on `tb_board` for
//! boards, their places and their links.
#![tactic(auto)]

mod boards;
mod distinct;
mod gone;
mod links;
mod owners;
mod parents;
mod people;
mod roles;
mod runs;
mod tasks;
mod worlds;

pub use boards::is_good_board;
pub use worlds::is_good_world;
