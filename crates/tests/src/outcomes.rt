//! Lines on standard output and standard error, and the status at the end.

use std::alloc::Global;
use tb_files::{fault_of_making, fault_of_opening, fault_of_script, print_audit};
use tb_keeper::{Audit, CreateFault};
use tb_orders::{Ending, print_fault, status_of};
use tb_program::Fault;
use tb_script::LinesFault;
use tb_sql::opening::OpenFault;
use test_values::finding::{Finding, ended, show};
use test_values::given::halves;

/// The line of an audit: how many boards, tasks, and faults.
pub(crate) fn audit(alloc: Global, given: &str) -> Finding {
    let (boards, rest) = halves(given);
    let (tasks, faults) = halves(rest);
    let audit = Audit {
        boards: boards.parse().unwrap_or(0),
        tasks: tasks.parse().unwrap_or(0),
        faults: faults.parse().unwrap_or(0),
    };
    let mut out = Vec::new(alloc);
    let end = print_audit(alloc, &audit, &mut out);
    ended(alloc, &end, out)
}

/// Some faults by their names, their statuses, and the lines that tell them.
pub(crate) fn faults(alloc: Global) -> Finding {
    let mut told = String::new(alloc);
    for fault in [Fault::Bad, Fault::NotOurs, Fault::Store] {
        let mut out = Vec::new(alloc);
        let end = print_fault(fault, &mut out);
        let line = ended(alloc, &end, out)?;
        writeln!(told, "{} {} {line}", fault.name(), fault.status())?;
    }
    Ok(told)
}

/// The status of orders that are accepted, refused, no order, and that a store fails.
pub(crate) fn statuses(alloc: Global) -> Finding {
    let ends = [
        status_of(Ok(Ending::Accepted)),
        status_of(Ok(Ending::Refused)),
        status_of(Err(Fault::Bad)),
        status_of(Err(Fault::Store)),
    ];
    show(alloc, &ends)
}

/// What faults of a script, of opening and of making a store are told as.
pub(crate) fn told_as(alloc: Global) -> Finding {
    let faults = [
        fault_of_script(LinesFault::ReadFailed),
        fault_of_opening(OpenFault::WrongVersion),
        fault_of_making(CreateFault::NotEmpty),
    ];
    show(alloc, &faults)
}
