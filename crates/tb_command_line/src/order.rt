//! What the command line asks for.
ghost use Rattle.std.specs.Prelude.{◌≡◌};
ghost use Rattle.tb_command_line.specs.declared.order.WordsFault.TheVariants.{Memory};

use std::alloc::AllocError;
use std::fmt;
use std::fmt::{Debug, Formatter};
use tb_board::{Key, Name};
use tb_task::TaskId;
use tb_values::{Items, Text};

/// What the program is to do.
#[derive(Debug, Drop)]
pub enum Order {
    Init(InitOrder),
    Serve(ServeOrder),
    Run,
    Import(ImportOrder),
    /// The same of a text of any length, in as many parts as it takes.
    ImportAll(ImportOrder),
    /// An import whose text is cleaned first.
    Clean(CleanOrder),
    View(ViewOrder),
    /// Compares what the file stores with what its tasks say.
    Check(Text),
    /// Gives a person a new key.
    Key(KeyOrder),
    Send(SendOrder),
    /// Words of every day, whose server and person stand elsewhere.
    My(MyOrder),
    Help(Topic),
    Version,
}

/// A new file of boards, and its first person.
#[derive(Debug, Drop)]
pub struct InitOrder {
    pub file: Text,
    pub name: Name,
    pub key: Key,
}

/// A new key of a person of a file that isn't served.
#[derive(Debug, Drop)]
pub struct KeyOrder {
    pub file: Text,
    pub name: Name,
    /// The key is the first line of standard input. Else it is made, and printed.
    pub is_read: bool,
}

/// The server of a file, on a port of the loopback.
#[derive(Debug, Drop)]
pub struct ServeOrder {
    pub file: Text,
    pub port: u16,
    pub connections: Connections,
    /// The folder whose files are answered beside the boards.
    pub page: Option<Text>,
    /// How much each person may add in a second, in KiB: 0 for no bound. And at once, in MiB.
    pub growth: u32,
    pub burst: u32,
    /// Each message has a line on standard error.
    pub log: bool,
}

/// How many connections a server takes before it ends.
#[derive(Clone, Copy, Debug, PartialEq, Eq)]
pub enum Connections {
    UpTo(u32),
    Forever,
}

/// An import of standard input.
#[derive(Debug, Drop)]
pub struct ImportOrder {
    pub file: Text,
    pub member: Name,
    pub key: Key,
    pub id: TaskId,
    pub board: u32,
    pub kind: ImportKind,
}

/// An import of standard input as another tool exported it.
#[derive(Debug, Drop)]
pub struct CleanOrder {
    pub mode: CleanMode,
    /// In as many parts as it takes.
    pub is_all: bool,
    pub import: ImportOrder,
}

/// What is done with what an import would refuse, or read otherwise than it was meant.
#[derive(Clone, Copy, Debug, PartialEq, Eq)]
pub enum CleanMode {
    /// It is told, and nothing is imported.
    Check,
    /// It is mended. Where a task can't be taken, nothing is imported.
    Clean,
    /// It is mended, and tasks that can't be taken are left out.
    Skip,
}

/// What the text of an import is written in.
#[derive(Clone, Copy, Debug, PartialEq, Eq)]
pub enum ImportKind {
    Json,
    Todo,
}

/// A view of a board.
#[derive(Debug, Drop)]
pub struct ViewOrder {
    pub kind: ViewKind,
    pub file: Text,
    pub member: Name,
    pub key: Key,
    pub board: u32,
}

/// What a view shows of a board.
#[derive(Clone, Copy, Debug, PartialEq, Eq)]
pub enum ViewKind {
    Export,
    Listing,
    Todo,
}

/// A call or view that is sent to a server until it is answered.
#[derive(Drop)]
pub struct SendOrder {
    /// An address and a port, as they were written.
    pub server: Text,
    pub member: Name,
    /// None where it is kept elsewhere.
    pub key: Option<Key>,
    /// None where a new one is to be made.
    pub id: Option<TaskId>,
    /// How long it is sent again.
    pub seconds: u32,
    /// The word of a script, and its arguments.
    pub words: Items<Text>,
}

impl Debug for SendOrder {
    fn fmt<W: fmt::Write>(&self, f: &mut Formatter<W>) -> fmt::Result {
        write!(
            f,
            "SendOrder {{ server: {:?}, member: {:?}, key: {:?}, id: {:?}, seconds: {}, words: {} }}",
            self.server,
            self.member,
            self.key,
            self.id,
            self.seconds,
            self.words.len()
        )
    }
}

/// Words that are made calls and views of.
#[derive(Drop)]
pub struct MyOrder {
    pub words: Items<Text>,
}

impl Debug for MyOrder {
    fn fmt<W: fmt::Write>(&self, f: &mut Formatter<W>) -> fmt::Result {
        write!(f, "MyOrder {{ words: {} }}", self.words.len())
    }
}

/// What help is asked for.
#[derive(Clone, Copy, Debug, PartialEq, Eq)]
pub enum Topic {
    Program,
    Init,
    Serve,
    Run,
    Import,
    Export,
    List,
    Todo,
    Check,
    Key,
    Send,
    My,
}

/// Why words are no order.
#[derive(Debug, Drop, PartialEq, Eq)]
pub enum WordsFault {
    Bad,
    Memory,
    /// The key is `-`, and none is kept elsewhere.
    NoKey,
}

impl From<AllocError> for WordsFault {
    ghost from_gives = { λ _ e. e ≡ Memory };

    fn from(_e: AllocError) -> WordsFault {
        WordsFault::Memory
    }
}
