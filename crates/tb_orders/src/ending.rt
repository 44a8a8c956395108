//! How an order ended.
ghost use Rattle.std.specs.Prelude.{◌≡◌, true};
ghost use Rattle.tb_orders.specs.Orders.{ending_of, fault_of_keep};
ghost use Rattle.tb_orders.specs.Telling.{is_of_answers};

use tb_calls::{KeepFault, Reply};
use tb_program::Fault;

/// How an order ended that was carried out.
#[derive(Clone, Copy, Debug, PartialEq, Eq)]
pub enum Ending {
    Accepted,
    /// The reply is a refusal.
    Refused,
}

pub fn ending_of(reply: &Reply) -> Ending
    ensures { result ≡ ending_of reply.now }
{
    if reply.number == 0 {
        Ending::Accepted
    } else {
        Ending::Refused
    }
}

/// What the program tells of a keeper that failed.
pub fn fault_of_keep(fault: KeepFault) -> Fault
    ensures value { result ≡ fault_of_keep fault }
    ensures kind { is_of_answers result ≡ true }
{
    match fault {
        KeepFault::Memory => Fault::Memory,
        KeepFault::Store => Fault::Store,
    }
}
