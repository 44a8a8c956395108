//! Why the program ends without success.
ghost use Rattle.std.specs.Prelude.{◌≡◌};
ghost use Rattle.tb_program.specs.declared.fault.Fault.TheVariants.{Memory};
ghost use Rattle.tb_program.specs.Fault.{name_of, status_of};

use std::alloc::AllocError;

/// Why an order wasn't carried out.
#[derive(Clone, Copy, Debug, PartialEq, Eq)]
pub enum Fault {
    /// The words are no order.
    Bad,
    /// The text of an import is too long, or can't be read as its kind.
    BadBody,
    Memory,
    /// No server answered while the message was sent again.
    NoAnswer,
    /// The machine's clock gives no moment.
    NoClock,
    /// The key can't be read from where it is kept, or others may read it there.
    NoKey,
    /// The port can't be listened on.
    NoListen,
    /// The folder of the page can't be read.
    NoPage,
    /// The file has a table, an index or a view already.
    NotEmpty,
    /// The file doesn't have our tables.
    NotOurs,
    ReadFailed,
    /// The file can't be opened, or the store failed.
    Store,
    WriteFailed,
    /// The tables are of another version.
    WrongVersion,
}

impl Fault {
    /// The name by which the fault is told on standard error.
    pub fn name(self) -> &'static str
        ensures { result.now ≡ name_of self }
    {
        match self {
            Fault::Bad => "Bad",
            Fault::BadBody => "BadBody",
            Fault::Memory => "Memory",
            Fault::NoAnswer => "NoAnswer",
            Fault::NoClock => "NoClock",
            Fault::NoKey => "NoKey",
            Fault::NoListen => "NoListen",
            Fault::NoPage => "NoPage",
            Fault::NotEmpty => "NotEmpty",
            Fault::NotOurs => "NotOurs",
            Fault::ReadFailed => "ReadFailed",
            Fault::Store => "Store",
            Fault::WriteFailed => "WriteFailed",
            Fault::WrongVersion => "WrongVersion",
        }
    }

    /// The status with which the program ends.
    pub fn status(self) -> u8
        ensures { result ≡ status_of self }
    {
        match self {
            Fault::Bad => 2,
            _ => 1,
        }
    }
}

impl From<AllocError> for Fault {
    ghost from_gives = { λ _ e. e ≡ Memory };

    fn from(_e: AllocError) -> Fault {
        Fault::Memory
    }
}
