//! The desk: each call acts once, however often it is sent, and is answered from what is kept.
//!
//! It owns the handling of calls and views over any keeper, and a keeper that holds lists. It stands on `tb_calls` for calls and
//! keepers, on `tb_core` for answers, on `tb_deeds` for what calls do, and on `tb_report`, `tb_json`, `tb_todotxt` and `tb_history` for
//! what views show.
#![tactic(auto)]

mod admitting;
mod desk;
mod entry_list;
mod handling;
pub mod laws;
mod list_keep;
mod looking_back;
mod pages;
mod viewing;

pub use desk::{Desk, RunEnd};
pub use list_keep::ListKeep;
