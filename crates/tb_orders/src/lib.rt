//! The orders of the command line: the words as they come from the machine, what views and imports ask a desk, what they print, the new
//! keys and the identifiers that they draw, and the status at the end of an order. None of it knows how boards are stored.
//! Stands on `tb_command_line` for the orders, on `tb_json` for lists, on `tb_asking` for what a message asks for, on `tb_desk` for its
//! answer, and on `tb_program` for faults and printing.
#![tactic(auto)]

mod chance;
mod cutting;
mod elsewhere;
mod ending;
mod identifier;
mod importing;
mod input;
mod lists;
mod message;
mod new_key;
mod order_fault;
mod reading;
mod running;
mod status;
mod viewing;
mod whole;
mod words;

pub use chance::{Chance, MachineChance};
pub use elsewhere::kept_key;
pub use ending::{Ending, ending_of, fault_of_keep};
pub use identifier::random_id;
pub use importing::import_text;
pub use input::import_input;
pub use lists::parts_of;
pub use message::import_message;
pub use new_key::{NewKey, new_key_of};
pub use order_fault::{BadItem, OrderFault};
pub use running::Progress;
pub use status::{print_fault, status_of};
pub use viewing::{print_shown, print_view, view_of};
pub use whole::import_all;
pub use words::{MachineStarted, Started, order_of, read_order};
