//! The faults of the crates below, as the program tells them.
ghost use Rattle.std.specs.Prelude.{◌≡◌, true};
ghost use Rattle.tb_files.specs.Faults.{fault_of_making, fault_of_opening, fault_of_script};
ghost use Rattle.tb_orders.specs.Faults.{is_of_making, is_of_opening, is_of_scripts};

use tb_keeper::CreateFault;
use tb_program::Fault;
use tb_script::LinesFault;
use tb_sql::opening::OpenFault;

/// Of a script that wasn't run to its end.
pub fn fault_of_script(fault: LinesFault) -> Fault
    ensures value { result ≡ fault_of_script fault }
    ensures kind { is_of_scripts result ≡ true }
{
    match fault {
        LinesFault::ReadFailed => Fault::ReadFailed,
        LinesFault::WriteFailed => Fault::WriteFailed,
        LinesFault::Memory => Fault::Memory,
        LinesFault::Store => Fault::Store,
    }
}

/// Of a file that can't be taken as boards.
pub fn fault_of_opening(fault: OpenFault) -> Fault
    ensures value { result ≡ fault_of_opening fault }
    ensures kind { is_of_opening result ≡ true }
{
    match fault {
        OpenFault::NotOurs => Fault::NotOurs,
        OpenFault::WrongVersion => Fault::WrongVersion,
        OpenFault::Store => Fault::Store,
        OpenFault::Memory => Fault::Memory,
    }
}

/// Of a file in which no boards could be made.
pub fn fault_of_making(fault: CreateFault) -> Fault
    ensures value { result ≡ fault_of_making fault }
    ensures kind { is_of_making result ≡ true }
{
    match fault {
        CreateFault::NotEmpty => Fault::NotEmpty,
        CreateFault::Store => Fault::Store,
        CreateFault::Memory => Fault::Memory,
    }
}
