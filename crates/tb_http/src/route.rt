//! The routes of the server: what kind of request a path is.
ghost use Rattle.std.specs.Prelude.{◌≡◌, ◌≤◌, [], length, IfOk, IfErr, OnOk, IsTrue, option_map};
ghost use Rattle.matchit.specs.Seek.{first};
ghost use Rattle.tb_http.specs.Route as routes;
ghost use Rattle.tb_http.specs.declared.kind.Kind.TheVariants as kind;

use crate::kind::{BoardCall, BoardView, Kind, TaskCall};
use matchit::{InsertError, Router};
use std::alloc::{AllocError, Global};

/// The methods that routes have.
#[derive(Clone, Copy, Debug, PartialEq, Eq)]
pub enum Verb {
    Get,
    Post,
}

impl Verb {
    /// The method's name.
    pub fn name(self) -> &'static str
        ensures value { result.now ≡ routes.verb_name self }
        ensures short { length result.now ≤ 4 }
    {
        match self {
            Verb::Get => "GET",
            Verb::Post => "POST",
        }
    }
}

// Adds a route that the router takes, so that it can only run out of memory.
fn add(to: &mut Router<Kind>, text: &str, kind: Kind) -> Result<(), InsertError>
    requires { IsTrue (routes.fits text.now to.old) }
    ensures row { OnOk result (to.new ≡ routes.with_route text.now kind to.old) }
    ensures memory { IfErr result (λ fault. fault ≡ InsertError.OutOfMemory) }
{
    to.insert(text, kind)
}

fn add_call(to: &mut Router<Kind>, text: &str, call: TaskCall) -> Result<(), InsertError>
    requires { IsTrue (routes.fits text.now to.old) }
    ensures row { OnOk result (to.new ≡ routes.with_route text.now (kind.TaskCall call) to.old) }
    ensures memory { IfErr result (λ fault. fault ≡ InsertError.OutOfMemory) }
{
    add(to, text, Kind::TaskCall(call))
}

// The paths without the number of a board.
fn add_alone(to: &mut Router<Kind>) -> Result<(), InsertError>
    requires { to.old ≡ [] }
    ensures rows { OnOk result (to.new ≡ routes.alone_rows) }
    ensures memory { IfErr result (λ fault. fault ≡ InsertError.OutOfMemory) }
{
    add(to, "/people", Kind::People)?;
    add(to, "/boards", Kind::Boards)?;
    add(to, "/me", Kind::Me)?;
    add(to, "/me/key", Kind::OwnKey)?;
    add(to, "/people/{name}/key", Kind::PersonKey)
}

// The paths with the number of a board, after those without one.
fn add_boards(to: &mut Router<Kind>) -> Result<(), InsertError>
    requires { to.old ≡ routes.alone_rows }
    ensures rows { OnOk result (to.new ≡ routes.board_rows) }
    ensures memory { IfErr result (λ fault. fault ≡ InsertError.OutOfMemory) }
{
    add(to, "/boards/{b}/roles", Kind::Roles)?;
    add(to, "/boards/{b}/take", Kind::Take)?;
    add(to, "/boards/{b}/tasks", Kind::BoardCall(BoardCall::Add))?;
    add(to, "/boards/{b}/sweep", Kind::BoardCall(BoardCall::Sweep))?;
    add(to, "/boards/{b}/ahead", Kind::BoardCall(BoardCall::Ahead))?;
    add(to, "/boards/{b}/title", Kind::BoardCall(BoardCall::Title))?;
    add(to, "/boards/{b}/import", Kind::BoardCall(BoardCall::Import))?;
    add(
        to,
        "/boards/{b}/import-todo",
        Kind::BoardCall(BoardCall::ImportTodo),
    )?;
    add(to, "/boards/{b}/list", Kind::BoardView(BoardView::List))?;
    add(to, "/boards/{b}/export", Kind::BoardView(BoardView::Export))?;
    add(to, "/boards/{b}/todo", Kind::BoardView(BoardView::Todo))?;
    add(to, "/boards/{b}/people", Kind::BoardView(BoardView::People))?;
    add(
        to,
        "/boards/{b}/history",
        Kind::BoardView(BoardView::History),
    )?;
    add(to, "/boards/{b}/history/{n}", Kind::HistoryFrom)
}

// The paths with the identifier of a task, after the others.
fn add_tasks(to: &mut Router<Kind>) -> Result<(), InsertError>
    requires { to.old ≡ routes.board_rows }
    ensures rows { OnOk result (to.new ≡ routes.route_rows) }
    ensures memory { IfErr result (λ fault. fault ≡ InsertError.OutOfMemory) }
{
    add(to, "/boards/{b}/tasks/{uuid}", Kind::Task)?;
    add_call(to, "/boards/{b}/tasks/{uuid}/done", TaskCall::Done)?;
    add_call(to, "/boards/{b}/tasks/{uuid}/delete", TaskCall::Delete)?;
    add_call(to, "/boards/{b}/tasks/{uuid}/reopen", TaskCall::Reopen)?;
    add_call(to, "/boards/{b}/tasks/{uuid}/start", TaskCall::Start)?;
    add_call(to, "/boards/{b}/tasks/{uuid}/stop", TaskCall::Stop)?;
    add_call(to, "/boards/{b}/tasks/{uuid}/modify", TaskCall::Modify)?;
    add_call(to, "/boards/{b}/tasks/{uuid}/annotate", TaskCall::Annotate)?;
    add_call(to, "/boards/{b}/tasks/{uuid}/denotate", TaskCall::Denotate)?;
    add_call(to, "/boards/{b}/tasks/{uuid}/depend", TaskCall::Depend)?;
    add_call(to, "/boards/{b}/tasks/{uuid}/undepend", TaskCall::Undepend)?;
    add(to, "/boards/{b}/tasks/{uuid}/history", Kind::TaskHistory)
}

// The rows of the table.
fn table(alloc: Global) -> Result<Router<Kind>, InsertError>
    ensures rows { IfOk result (λ router. router ≡ routes.route_rows) }
    ensures memory { IfErr result (λ fault. fault ≡ InsertError.OutOfMemory) }
{
    let mut router = Router::new(alloc);
    add_alone(&mut router)?;
    add_boards(&mut router)?;
    add_tasks(&mut router)?;
    Ok(router)
}

/// The table of the routes.
#[derive(Drop)]
pub struct Routes {
    router: Router<Kind>,
    ghost rows: { router ≡ routes.route_rows },
}

impl Routes {
    pub fn new(alloc: Global) -> Result<Routes, AllocError>
        ensures { IfOk result (λ table. table.router ≡ routes.route_rows) }
    {
        match table(alloc) {
            Ok(router) => Ok(Routes { router }),
            Err(_) => Err(AllocError),
        }
    }

    /// The kind of request that a path is: the whole target of a request, with any query.
    pub fn find(&self, path: &str) -> Option<Kind>
        ensures { result ≡ routes.kind_of path.now }
    {
        match self.router.at(path) {
            Ok(found) => Some(*found.value),
            Err(_) => None,
        }
    }
}
