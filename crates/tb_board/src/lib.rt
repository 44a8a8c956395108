//! Boards of tasks and the world of people, boards and roles, as they stand at a moment.
//!
//! It owns boards, the index by which a board's tasks are found, how far boards look ahead, names, keys, titles and roles, the list of changes by
//! which a world changes, waking, and the numbers that a board gives to new tasks. It stands on `tb_task` for tasks and on `tb_values` for lists.
#![tactic(auto)]

mod ahead;
mod blocked;
mod board;
mod change;
mod changing;
mod draft;
mod first;
mod first_wait;
mod gone;
mod key;
mod links;
mod name;
mod numbers;
mod replaying;
mod statuses;
mod task_index;
mod task_list;
mod template_index;
mod title;
mod viewing;
mod waking;
mod world;

pub use ahead::Ahead;
pub use blocked::{is_blocked_task, is_blocking_task};
pub use board::Board;
pub use change::Change;
pub use changing::{roles_with, roles_without};
pub use draft::Draft;
pub use first::place_of_board;
pub use gone::{Gone, gone_without};
pub use key::Key;
pub use links::{
    Waits, acyclic_boards_have_no_walks_back, is_acyclic_board, is_led, places_of, waits_of,
    walks_are_found,
};
pub use name::Name;
pub use numbers::{least_number, next_number, taken_numbers};
pub use replaying::{changed_on, replayed};
pub use statuses::{
    has_template_form, is_open_status, is_pending_or_waiting_status, is_pending_status,
    is_template_task, settled_status,
};
pub use task_list::TaskList;
pub use template_index::TemplateIndex;
pub use title::Title;
pub use viewing::{woken, woken_task};
pub use waking::{has_waited, wake_draft};
pub use world::{Person, Role, RoleOn, World};
