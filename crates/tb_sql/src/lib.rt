//! The statements on the tables of a store, one function each, whose contract says what it does to typed rows.
//! Above them the transactions: a new store, changes with a kept reply, and the taking of a database as a store.
//! Stands on `tb_sql_tables` for the tables, their rows and what statements of a kind do.
#![tactic(auto)]

mod bind;
pub mod boards;
pub mod changes;
pub mod first_version;
pub mod gone;
pub mod horizons;
pub mod instances;
pub mod kept;
mod layout;
pub mod lend;
pub mod links;
pub mod meta;
pub mod migrating;
pub mod opening;
pub mod people;
pub mod roles;
pub mod roles_of;
pub mod store;
pub mod tasks;
pub mod widening;
