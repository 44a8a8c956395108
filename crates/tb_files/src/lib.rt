//! The file of boards at a path, and the orders over it but serving: making it, a view, an import, a new key,
//! the comparison of its rows.
//! It owns how a file is opened, privately made and closed, what each order comes to over it, and what the faults of the crates below are
//! told as.
//! It stands on `tb_headline` for sessions, on `tb_orders` for what orders ask and print, and on `sqlite` for real files.
#![tactic(auto)]

mod auditing;
mod check;
mod exporting;
mod fault;
mod file;
mod giving;
mod import;
mod init;
mod key;
mod not_done;
mod view;

pub use auditing::print_audit;
pub use check::check_file;
pub use exporting::{Export, print_stored_view};
pub use fault::{fault_of_making, fault_of_opening, fault_of_script};
pub use file::{RealFile, close_desk, give_up_desk, open_desk, open_file, open_new_file};
pub use giving::{FirstPerson, give_key};
pub use import::{import_into_file, import_parts_into_file};
pub use init::make_file;
pub use key::give_key_in_file;
pub use not_done::{NotDone, Untaken};
pub use view::print_board;
