//! Why an order wasn't carried out.
ghost use Rattle.std.specs.Prelude.{◌≡◌, IfErr, IfOk, IfSome, Some};
ghost use Rattle.tb_asking.specs.Asking.{asked_of};
ghost use Rattle.tb_orders.specs.Items.{end_of, item_in, item_of};

use crate::ending::Ending;
use std::alloc::{AllocError, Global};
use tb_asking::{BadBody, CallFault, Rejection, call_of};
use tb_http::Message;
use tb_program::Fault;
use tb_task::Moment;
use tb_values::Text;

/// Why an order wasn't carried out.
#[derive(Debug, Drop)]
pub struct OrderFault {
    pub fault: Fault,
    /// The task of an import for which its text is bad, where it is one.
    pub item: Option<BadItem>,
}

/// A task of an import that is in a wrong form.
#[derive(Debug, Drop)]
pub struct BadItem {
    /// The number of the part that it stands in, counted from 1.
    pub part: usize,
    /// Its place among the tasks of that part, counted from 0.
    pub at: usize,
    /// The name of the member at fault, and empty where it is no object.
    pub member: Text,
}

impl From<Fault> for OrderFault {
    ghost use Rattle.tb_orders.specs.Items.{fault_alone};

    ghost from_gives = { λ fault e. e ≡ fault_alone fault };

    fn from(fault: Fault) -> OrderFault {
        OrderFault { fault, item: None }
    }
}

/// How the import of a part ended that came as a message, with the task for which it is bad. That is told where there is memory to read
/// the message once more.
#[tactic(auto, using(crate::proofs::Items::is_told))]
pub(crate) fn with_item(
    alloc: Global,
    end: Result<Ending, Fault>,
    message: &Message,
    at: Moment,
    part: usize,
) -> Result<Ending, OrderFault>
    ensures end { end_of result ≡ end }
    ensures item { IfErr result
        (λ failed. IfSome failed.item
        (λ item. item_in part (asked_of message.now at) ≡ Some item)) }
{
    match end {
        Ok(ending) => Ok(ending),
        Err(Fault::BadBody) => Err(bad_body(alloc, message, at, part)),
        Err(fault) => Err(OrderFault { fault, item: None }),
    }
}

#[tactic(auto, using(crate::proofs::Items::is_told))]
fn bad_body(alloc: Global, message: &Message, at: Moment, part: usize) -> OrderFault
    ensures fault { result.fault ≡ Fault.BadBody }
    ensures item { IfSome result.item (λ item. item_in part (asked_of message.now at) ≡ Some item) }
{
    match read_item(alloc, message, at, part) {
        Ok(item) => OrderFault {
            fault: Fault::BadBody,
            item,
        },
        Err(AllocError) => OrderFault {
            fault: Fault::BadBody,
            item: None,
        },
    }
}

/// The task for which a message is rejected.
fn read_item(
    alloc: Global,
    message: &Message,
    at: Moment,
    part: usize,
) -> Result<Option<BadItem>, AllocError>
    ensures { IfOk result (λ item. item ≡ item_in part (asked_of message.now at)) }
{
    match call_of(alloc, message, at) {
        Ok(_) => Ok(None),
        Err(CallFault::Rejected(rejection)) => Ok(item_of(part, rejection)),
        Err(CallFault::Memory) => Err(AllocError),
    }
}

fn item_of(part: usize, rejection: Rejection) -> Option<BadItem>
    ensures { result ≡ item_of part rejection }
{
    match rejection {
        Rejection::Route(_) => None,
        Rejection::NoId => None,
        Rejection::Body(BadBody::Whole) => None,
        Rejection::Body(BadBody::Field(_)) => None,
        Rejection::Body(BadBody::Item(at, member)) => Some(BadItem { part, at, member }),
    }
}
