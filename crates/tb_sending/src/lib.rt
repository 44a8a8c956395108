//! A call or a view that is sent to a server until it is answered: under whose key and which identifier, with which tasks in place
//! of their places, and what is printed of the reply. Stands on `tb_client` for messages and their answers, on `tb_command_line` for
//! the order, on `tb_orders` for how it ends, and on `tb_program` for faults and printing.
#![tactic(auto)]

mod beside;
mod changing;
mod dial;
mod folder;
mod identifier;
mod key;
mod machine_folder;
mod places;
mod printing;
mod sending;
mod server_line;
mod settling;

pub use dial::{Dial, MachineDial};
pub use folder::{Folder, key_in_file};
pub use identifier::{name_call, new_id};
pub use machine_folder::{KeyFolder, path_at_home, private_text};
pub use sending::send_order;
pub use server_line::ServerLine;
