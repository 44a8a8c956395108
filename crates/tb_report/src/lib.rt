//! What a board shows at a moment: its tasks, and their listing.
//!
//! It owns the urgency of tasks, the order of the listing and the form of its lines. It stands on `tb_board` for boards and what
//! blocks what, on `tb_sweep` for masks, and on `tb_task`.
#![tactic(auto)]

mod board_list;
mod cells;
mod lists;
mod rank;
mod row;
mod showing;
mod urgencies;

pub use board_list::listing;
pub use lists::list_tasks;
pub use rank::{Rank, in_order};
pub use row::{Row, URGENCY_UNIT, decimals, push_row, without_controls};
pub use showing::{shown, shown_task};
pub use urgencies::{urgency, urgency_of_task};
