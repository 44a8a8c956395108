//! What the program takes from the machine and tells it: its faults, the clock, standard input, what is printed, the address that is
//! listened on.
//! All of it is generic over readers, writers and clocks, so that tests can stand in for the machine.
//! Stands on `tb_values` for texts and writing, and on `tb_task` for moments.
#![tactic(auto)]

mod clock;
mod fault;
mod input;
mod listening;
mod printing;

pub use clock::{Clock, machine_moment};
pub use fault::Fault;
pub use input::read_text;
pub use listening::loopback;
pub use printing::{print_line, print_text};
