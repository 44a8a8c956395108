//! The tables of a store: their schema, their rows as values, and the statements that make them.
//! A content is the rows of every table but the first, in any order; contracts say what the tables hold by it.
//! Stands on `sqlite`; `tb_sql` writes and reads the rows.
#![tactic(auto)]

pub mod create;
pub mod fitting;
pub mod read;
pub mod rows;
pub mod run;
