//! Which tasks of a board are found, and how they are told: in lines for people, or as JSON.
//! It owns the tests of a query, the order of what is found, days in words, and the list's form. It stands on `tb_my` for queries and
//! clocks, on `tb_json` for exports, on `tb_board` for what blocks what, and on `tb_report` for urgency.
#![tactic(auto)]

mod cells;
mod deeds;
mod finding;
mod json;
mod listing;
mod look;
mod names;
mod showing;
mod table;
mod tests;
mod words;

pub use deeds::log_text;
pub use finding::{Key, found};
pub use listing::found_text;
pub use look::{Look, read_tasks};
pub use showing::show_text;
pub use table::{Cells, Style, Widths};
pub use tests::is_found;
