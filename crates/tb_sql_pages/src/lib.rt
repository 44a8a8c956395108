//! The statements on the table `history`, one function each: an entry goes in; a board's last number, a range of its entries, and the
//! last hundred of one of its tasks come out. It stands on `tb_sql_tables` for the table, its rows and what a query without a limit answers.
#![tactic(auto)]

mod bind;
pub mod histories;
mod read;
