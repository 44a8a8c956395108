//! What a request's path asks for, with its numbers and identifiers read.
ghost use Rattle.std.specs.Prelude.{◌≡◌, ◌==◌, codes, option_map};
ghost use Rattle.std.specs.Str.{bytes_eq};
ghost use Rattle.tb_http.specs.Resource as resources;

use crate::fault::WireFault;
use crate::kind::{BoardCall, BoardView, Kind, TaskCall};
use crate::person_name::PersonName;
use crate::route::{Routes, Verb};
use http::Method;
use tb_task::TaskId;
use tb_values::read_number;

/// What a call is made on: people, the key of the sender or of another person, boards, the roles on a board, the
/// ownership of a board, the board itself, or a task of it.
#[derive(Debug, Drop)]
pub enum CallTarget<'a> {
    People,
    OwnKey,
    PersonKey(PersonName<'a>),
    Boards,
    Roles(u32),
    Take(u32),
    Board(u32, BoardCall),
    Task(u32, TaskId, TaskCall),
}

/// What a path asks for: the boards of the sender, a view of a board or of a task, a part of a history, or a call.
#[derive(Debug, Drop)]
pub enum Resource<'a> {
    Me,
    Board(u32, BoardView),
    Task(u32, TaskId),
    /// The entries of a board's history from a number on.
    HistoryFrom(u32, u32),
    TaskHistory(u32, TaskId),
    Call(CallTarget<'a>),
}

/// Why a request asks for no resource.
#[derive(Clone, Copy, Debug, PartialEq, Eq)]
pub enum RouteFault {
    /// No route has the path, or a part of it can't be read.
    NoRoute,
    /// The path has this method alone.
    NoMethod(Verb),
}

impl RouteFault {
    /// The fault that is answered.
    pub fn fault(self) -> WireFault
        ensures { result ≡ resources.fault_of self }
    {
        match self {
            RouteFault::NoRoute => WireFault::NoRoute,
            RouteFault::NoMethod(_) => WireFault::NoMethod,
        }
    }

    /// The method that the answer allows.
    pub fn allow(self) -> Option<Verb>
        ensures { result ≡ resources.allowed_by self }
    {
        match self {
            RouteFault::NoRoute => None,
            RouteFault::NoMethod(verb) => Some(verb),
        }
    }
}

// The part of a path after so many slashes, up to the next one; the empty text where there is none.
fn segment(path: &str, slashes: usize) -> &str
    ensures { result.now ≡ resources.segment path.now slashes }
{
    match path.split('/').nth(slashes) {
        Some(part) => part,
        None => "",
    }
}

#[tactic(auto, unfolding(crate::specs::Resource::board_number))]
fn board_in(path: &str) -> Option<u32>
    ensures { result ≡ resources.board_in path.now }
{
    read_number(segment(path, 2), u32::MAX)
}

fn person_in(path: &str) -> Option<PersonName<'_>>
    ensures { result ≡ resources.person_in path.now }
{
    PersonName::read(segment(path, 2))
}

#[tactic(auto, unfolding(crate::specs::Resource::board_number))]
fn entry_in(path: &str) -> Option<u32>
    ensures { result ≡ resources.entry_in path.now }
{
    read_number(segment(path, 4), u32::MAX)
}

fn task_in(path: &str) -> Option<TaskId>
    ensures { result ≡ resources.task_in path.now }
{
    TaskId::read(segment(path, 4))
}

// What a path of this kind asks for, if its parts can be read.
#[tactic(auto, unfolding(crate::specs::Resource::resource_of))]
fn resource_of(kind: Kind, path: &str) -> Option<Resource<'_>>
    ensures { result ≡ resources.resource_of kind path.now }
{
    let target = match kind {
        Kind::Me => return Some(Resource::Me),
        Kind::BoardView(view) => return Some(Resource::Board(board_in(path)?, view)),
        Kind::Task => return Some(Resource::Task(board_in(path)?, task_in(path)?)),
        Kind::HistoryFrom => return Some(Resource::HistoryFrom(board_in(path)?, entry_in(path)?)),
        Kind::TaskHistory => return Some(Resource::TaskHistory(board_in(path)?, task_in(path)?)),
        Kind::People => CallTarget::People,
        Kind::OwnKey => CallTarget::OwnKey,
        Kind::PersonKey => CallTarget::PersonKey(person_in(path)?),
        Kind::Boards => CallTarget::Boards,
        Kind::Roles => CallTarget::Roles(board_in(path)?),
        Kind::Take => CallTarget::Take(board_in(path)?),
        Kind::BoardCall(call) => CallTarget::Board(board_in(path)?, call),
        Kind::TaskCall(call) => CallTarget::Task(board_in(path)?, task_in(path)?, call),
    };
    Some(Resource::Call(target))
}

fn has_verb(method: &Method, verb: Verb) -> bool
    ensures { result ≡ resources.has_verb method.now verb }
{
    method.as_str() == verb.name()
}

impl Resource<'_> {
    /// The one method by which it is asked for.
    pub fn verb(&self) -> Verb
        ensures { result ≡ resources.verb_of self.now }
    {
        match self {
            Resource::Me
            | Resource::Board(_, _)
            | Resource::Task(_, _)
            | Resource::HistoryFrom(_, _)
            | Resource::TaskHistory(_, _) => Verb::Get,
            Resource::Call(_) => Verb::Post,
        }
    }
}

impl Routes {
    /// The resource that a method and a target ask for. A path whose parts can't be read has no route,
    /// whatever the method.
    pub fn resource<'a>(&self, method: &Method, target: &'a str) -> Result<Resource<'a>, RouteFault>
        ensures { result ≡ resources.resource_asked method.now target.now }
    {
        let Some(kind) = self.find(target) else {
            return Err(RouteFault::NoRoute);
        };
        let Some(resource) = resource_of(kind, target) else {
            return Err(RouteFault::NoRoute);
        };
        let verb = resource.verb();
        if has_verb(method, verb) {
            Ok(resource)
        } else {
            Err(RouteFault::NoMethod(verb))
        }
    }
}
