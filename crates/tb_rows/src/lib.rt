//! Worlds as rows of the tables of a store, rows as worlds, and the two compared.
//!
//! It owns the rows of a world, the changes of rows that follow from changes of a world, the readers of rows, and the comparison that
//! `check` makes. It stands on `tb_board` and `tb_core` for worlds, `tb_json` for texts of tasks, `tb_report` for masks, `tb_sql` for rows.
#![tactic(auto)]

mod boards;
mod compared_boards;
mod compared_instances;
mod compared_links;
mod compared_masks;
mod concerned;
mod fault;
mod gone;
pub mod laws;
mod linking;
mod numbering;
mod opening;
mod part;
mod people;
mod quick;
mod reading_boards;
mod reading_gone;
mod reading_people;
mod reading_roles;
mod reading_tasks;
mod roles;
mod task_places;
mod tasks;

pub use compared_boards::is_as_stored;
pub use fault::ReopenFault;
pub use linking::{instance_row, link_row, place_number};
pub use opening::{FirstRows, opening_rows};
pub use part::{BoardPart, part_changes, touched_board};
pub use reading_boards::read_board;
pub use reading_people::{read_people, read_secret};
pub use reading_roles::add_roles;
pub use task_places::TaskPlaces;
