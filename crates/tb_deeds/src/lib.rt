//! What an accepted command did on a board, as the board's history tells it.
//!
//! It owns deeds and their words. It stands on `tb_core` for commands, what they look at and their answers, and on `tb_sweep` for sweeps.
#![tactic(auto)]

mod deed;
mod kind;
pub mod laws;

pub use deed::{Deed, deed_of};
pub use kind::DeedKind;
