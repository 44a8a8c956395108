//! Why an order over what a connection found wasn't carried out.
use tb_orders::OrderFault;
use tb_program::Fault;

/// Why no session began over what a connection found, and what is left of the connection.
#[derive(Drop)]
pub struct Untaken<L> {
    pub left: L,
    pub fault: Fault,
}

/// Why an order over what a connection found wasn't carried out.
#[derive(Drop)]
pub enum NotDone<L> {
    /// No session began.
    Untaken(Untaken<L>),
    /// A session began, and the order failed after that.
    Failed(OrderFault),
}

impl<L: Drop> From<Untaken<L>> for Fault {
    ghost use Rattle.std.specs.Prelude.{◌≡◌};

    ghost from_gives = { λ untaken fault. fault ≡ untaken.fault };

    fn from(untaken: Untaken<L>) -> Fault {
        untaken.fault
    }
}

impl<L: Drop> From<Untaken<L>> for OrderFault {
    ghost use Rattle.std.specs.Prelude.{◌≡◌};
    ghost use Rattle.tb_orders.specs.Items.{fault_alone};

    ghost from_gives = { λ untaken failed. failed ≡ fault_alone untaken.fault };

    fn from(untaken: Untaken<L>) -> OrderFault {
        OrderFault {
            fault: untaken.fault,
            item: None,
        }
    }
}

impl<L: Drop> From<NotDone<L>> for OrderFault {
    ghost use Rattle.std.specs.Prelude.{◌≡◌};
    ghost use Rattle.tb_files.specs.NotDone.{failure_of};

    ghost from_gives = { λ undone failed. failed ≡ failure_of undone };

    fn from(undone: NotDone<L>) -> OrderFault {
        match undone {
            NotDone::Untaken(untaken) => OrderFault {
                fault: untaken.fault,
                item: None,
            },
            NotDone::Failed(failed) => failed,
        }
    }
}
