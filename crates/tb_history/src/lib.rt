//! What a board's history is: its entries, a page of them, and the page's text.
//!
//! It owns entries, which of them a page shows, and how a page is written. It stands on `tb_deeds` for what an entry tells, and on
//! `serde_json` for JSON.
#![tactic(auto)]

mod content;
mod entry;
pub mod laws;
mod page;
mod writing;

pub use content::shown_content;
pub use entry::Entry;
pub use page::{HistoryPage, ShownEntry, Which};
pub use writing::write_history;
