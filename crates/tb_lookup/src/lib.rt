//! What it means that the tables of a store are the rows of a state, and what they then tell of it: a person by name, a kept reply by
//! its call, the roles on a board, a board by its number, and how many people and boards there are.
//!
//! It stands on `tb_sql` for the statements, on `tb_rows` for the rows of a world, on `tb_calls` for states, and on `tb_good` for whether
//! a board is good.
#![tactic(auto)]

pub mod boards;
pub mod boards_of;
pub mod by_key;
pub mod faults;
mod gathering;
mod halves;
pub mod histories;
pub mod history_rows;
pub mod own_roles;
pub mod people;
pub mod people_on;
pub mod reading;
pub mod replies;
pub mod roles;
