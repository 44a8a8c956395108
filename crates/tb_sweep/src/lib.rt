//! The sweep, by which a board comes up to a moment: tasks that waited until then are pending, and templates get their instances.
//!
//! It owns the counts and the masks of a board's templates, and the order in which instances are added. It stands on `tb_recur` for what
//! is wanted and what an instance holds, and on `tb_board` for boards and their changes.
#![tactic(auto)]

mod counts;
mod growing;
pub mod laws;
mod masks;
mod quiet;
mod sweeping;

pub use masks::mask_of;
pub use quiet::is_quiet;
pub use sweeping::{Swept, sweep_draft};
