//! What is looked up for a call.

ghost use Rattle.std.specs.Prelude.{◌≡◌, ℕ, IfOk, Some, false, find, Err};
ghost use Rattle.std.specs.FinMap.{get};
ghost use Rattle.std.specs.Option.{option_map};
ghost use Rattle.sqlite.specs.Held.{state};
ghost use Rattle.tb_board.specs.World.{find_board, has_name, key_of, number_of};
ghost use Rattle.tb_cache.specs.BoardCache.{AreOf};
ghost use Rattle.tb_calls.specs.Roles.{person_at};
ghost use Rattle.tb_core.specs.Apply.{board_of, number_for, other_of, own_for, seen_with};
ghost use Rattle.tb_sql.specs.Opening.{IsAsBefore};
ghost use Rattle.tb_sql_tables.specs.Failing.{KeepsFaults};
ghost use Rattle.tb_lookup.specs.Reopening.{OfState, FailsOfState};
ghost use Rattle.tb_lookup.specs.Stored.{IsStored};
ghost use Rattle.tb_keeper.specs.Failing.{FailsOf};
ghost use Rattle.tb_keeper.specs.Looking.{AreParties, IsGlance, IsGlanceAt, IsSeenAtHand, caller_role, takes};
ghost use Rattle.tb_keeper.specs.PeopleAtHand.{AreStillKnown, IsKnownIn};

use crate::at_hand::board_at;
use crate::people_at_hand::{People, person_at, roles_at};
use sqlite::{Alter, Connection};
use std::alloc::Global;
use tb_board::{Key, Name, Person, Role};
use tb_cache::BoardCache;
use tb_calls::KeptReply;
use tb_core::{Command, Seen, SeenBoard, SeenPerson};
use tb_lookup::people::stored_person;
use tb_lookup::people_on::stored_name;
use tb_lookup::replies::stored_reply;
use tb_sql::store::StoreFault;
use tb_task::TaskId;
use tb_values::Duplicate;

/// The key of the person of a name, who may have none.
pub(crate) fn find_key<S: Alter>(
    alloc: Global,
    conn: &mut Connection<S>,
    people: &mut People,
    name: &Name,
) -> Result<Option<Key>, StoreFault>
    ensures idle { conn.old.in_transaction ≡ false → conn.new.in_transaction ≡ false }
    ensures found { IfOk result
        (λ key. OfState (state S.Store conn.old) (state S.Store conn.new)
        (λ s. IsKnownIn s.world people.old.known → key ≡ key_of s.world name.now)) }
    ensures people { AreStillKnown (state S.Store conn.old) (state S.Store conn.new)
        people.old people.new }
    ensures excused { result ≡ Err StoreFault.Store
        → FailsOfState (state S.Store conn.old) (state S.Store conn.new) }
    ensures faults { KeepsFaults (state S.Store conn.old) (state S.Store conn.new) }
    ensures same { IsAsBefore (state S.Store conn.old) (state S.Store conn.new) }
{
    if !conn.is_autocommit() {
        return Err(StoreFault::Store); // Never: each call ends its transaction.
    }
    match person_at(alloc, conn, people, name)? {
        Some(person) => Ok(person.key),
        None => Ok(None),
    }
}

/// The first person.
pub(crate) fn find_first<S: Alter>(
    alloc: Global,
    conn: &mut Connection<S>,
) -> Result<Person, StoreFault>
    ensures idle { conn.old.in_transaction ≡ false → conn.new.in_transaction ≡ false }
    ensures found { IfOk result
        (λ person. OfState (state S.Store conn.old) (state S.Store conn.new)
        (λ s. person_at s.world 1 ≡ Some person)) }
    ensures same { IsAsBefore (state S.Store conn.old) (state S.Store conn.new) }
{
    if !conn.is_autocommit() {
        return Err(StoreFault::Store);
    }
    let name = stored_name(alloc, conn, 1)?;
    match find_person(alloc, conn, &name)? {
        Some(person) => Ok(person),
        None => Err(StoreFault::Store), // Never: somebody has the name that was read.
    }
}

/// What is kept under the name of a call.
pub(crate) fn find_reply<S: Alter>(
    alloc: Global,
    conn: &mut Connection<S>,
    people: &mut People,
    name: &Name,
    id: TaskId,
) -> Result<Option<KeptReply>, StoreFault>
    ensures idle { conn.old.in_transaction ≡ false → conn.new.in_transaction ≡ false }
    ensures found { IfOk result
        (λ kept. OfState (state S.Store conn.old) (state S.Store conn.new)
        (λ s. IsKnownIn s.world people.old.known → kept ≡ get s.kept (name.now, id))) }
    ensures people { AreStillKnown (state S.Store conn.old) (state S.Store conn.new)
        people.old people.new }
    ensures excused { result ≡ Err StoreFault.Store
        → FailsOf (state S.Store conn.old) (state S.Store conn.new)
        (λ s. IsStored s (state S.Store conn.old) × IsKnownIn s.world people.old.known) }
    ensures faults { KeepsFaults (state S.Store conn.old) (state S.Store conn.new) }
    ensures same { IsAsBefore (state S.Store conn.old) (state S.Store conn.new) }
{
    if !conn.is_autocommit() {
        return Err(StoreFault::Store);
    }
    let Some(person) = person_at(alloc, conn, people, name)? else {
        return Ok(None);
    };
    stored_reply(conn, person.number, id)
}

/// What a command looks at, but for how many people and boards there are.
#[derive(Drop)]
pub(crate) struct Glance {
    pub caller: Option<usize>,
    pub own: Option<Person>,
    pub board: Option<SeenBoard>,
    pub other: Option<SeenPerson>,
    pub owners: usize,
}

impl Glance {
    /// With so many people and boards.
    pub(crate) fn seen(self, people: usize, boards: usize) -> Seen
        ensures { result
            ≡ record {
              caller = self.caller;
              own = self.own;
              board = self.board;
              other = self.other;
              owners = self.owners;
              people = people;
              boards = boards;
            } }
    {
        let Glance {
            caller,
            own,
            board,
            other,
            owners,
        } = self;
        Seen {
            caller,
            own,
            board,
            other,
            owners,
            people,
            boards,
        }
    }
}

/// The caller's number, the caller where the command is about that person's own key, and the number of the other person whom a command
/// names.
#[derive(Drop)]
pub(crate) struct Parties {
    pub caller: Option<usize>,
    pub own: Option<Person>,
    pub other: Option<usize>,
}

/// What the command of a person looks at. A board that isn't there, or that the caller neither takes nor has a role on, is never read.
pub(crate) fn look_up<S: Alter>(
    alloc: Global,
    conn: &mut Connection<S>,
    cache: &mut BoardCache,
    people: &mut People,
    name: &Name,
    command: &Command,
) -> Result<Glance, StoreFault>
    ensures idle { conn.old.in_transaction ≡ false → conn.new.in_transaction ≡ false }
    ensures found { IfOk result (λ glance. OfState (state S.Store conn.old) (state S.Store conn.new)
        (λ s. AreOf s.world cache.old.entries → IsKnownIn s.world people.old.known
        → IsGlance s.world name.now command.now glance)) }
    ensures people { AreStillKnown (state S.Store conn.old) (state S.Store conn.new)
        people.old people.new }
    ensures at_hand { IfOk result (λ glance. (n : ℕ) → board_of command.now ≡ Some n
        → IsSeenAtHand cache.new.entries n glance.board) }
    ensures cached { OfState (state S.Store conn.old) (state S.Store conn.new)
        (λ s. AreOf s.world cache.old.entries → AreOf s.world cache.new.entries) }
    ensures excused { result ≡ Err StoreFault.Store
        → FailsOfState (state S.Store conn.old) (state S.Store conn.new) }
    ensures faults { KeepsFaults (state S.Store conn.old) (state S.Store conn.new) }
    ensures same { IsAsBefore (state S.Store conn.old) (state S.Store conn.new) }
{
    if !conn.is_autocommit() {
        return Err(StoreFault::Store);
    }
    let parties = find_parties(alloc, conn, people, name, command)?;
    match command.board() {
        Some(board) => glance_at(alloc, conn, cache, people, board, takes(command), parties),
        None => Ok(Glance {
            caller: parties.caller,
            own: parties.own,
            board: None,
            other: seen_person(parties.other, None),
            owners: 0,
        }),
    }
}

fn find_parties<S: Alter>(
    alloc: Global,
    conn: &mut Connection<S>,
    people: &mut People,
    name: &Name,
    command: &Command,
) -> Result<Parties, StoreFault>
    requires { conn.old.in_transaction ≡ false }
    ensures idle { conn.new.in_transaction ≡ false }
    ensures found { IfOk result
        (λ parties. OfState (state S.Store conn.old) (state S.Store conn.new)
        (λ s. IsKnownIn s.world people.old.known
        → AreParties s.world name.now command.now parties)) }
    ensures people { AreStillKnown (state S.Store conn.old) (state S.Store conn.new)
        people.old people.new }
    ensures excused { result ≡ Err StoreFault.Store
        → FailsOfState (state S.Store conn.old) (state S.Store conn.new) }
    ensures faults { KeepsFaults (state S.Store conn.old) (state S.Store conn.new) }
    ensures same { IsAsBefore (state S.Store conn.old) (state S.Store conn.new) }
{
    let caller = find_caller(alloc, conn, people, name)?;
    let own = find_own(alloc, conn, name, command)?;
    let other = find_other(alloc, conn, command)?;
    Ok(Parties { caller, own, other })
}

/// The number of the caller, who is known from then on.
fn find_caller<S: Alter>(
    alloc: Global,
    conn: &mut Connection<S>,
    people: &mut People,
    name: &Name,
) -> Result<Option<usize>, StoreFault>
    requires { conn.old.in_transaction ≡ false }
    ensures idle { conn.new.in_transaction ≡ false }
    ensures found { IfOk result (λ number. OfState (state S.Store conn.old) (state S.Store conn.new)
        (λ s. IsKnownIn s.world people.old.known → number ≡ number_of s.world name.now)) }
    ensures people { AreStillKnown (state S.Store conn.old) (state S.Store conn.new)
        people.old people.new }
    ensures excused { result ≡ Err StoreFault.Store
        → FailsOfState (state S.Store conn.old) (state S.Store conn.new) }
    ensures faults { KeepsFaults (state S.Store conn.old) (state S.Store conn.new) }
    ensures same { IsAsBefore (state S.Store conn.old) (state S.Store conn.new) }
{
    match person_at(alloc, conn, people, name)? {
        Some(person) => Ok(Some(person.number)),
        None => Ok(None),
    }
}

/// The caller, where the command is about that person's own key.
fn find_own<S: Alter>(
    alloc: Global,
    conn: &mut Connection<S>,
    name: &Name,
    command: &Command,
) -> Result<Option<Person>, StoreFault>
    requires { conn.old.in_transaction ≡ false }
    ensures idle { conn.new.in_transaction ≡ false }
    ensures found { IfOk result (λ own. OfState (state S.Store conn.old) (state S.Store conn.new)
        (λ s. own ≡ own_for s.world name.now command.now)) }
    ensures excused { result ≡ Err StoreFault.Store
        → FailsOfState (state S.Store conn.old) (state S.Store conn.new) }
    ensures faults { KeepsFaults (state S.Store conn.old) (state S.Store conn.new) }
    ensures same { IsAsBefore (state S.Store conn.old) (state S.Store conn.new) }
{
    match command {
        Command::OwnKey { .. } => find_person(alloc, conn, name),
        Command::NewPerson { .. }
        | Command::NewBoard { .. }
        | Command::SetKey { .. }
        | Command::SetRole { .. }
        | Command::Take { .. }
        | Command::OnBoard { .. } => Ok(None),
    }
}

fn find_person<S: Alter>(
    alloc: Global,
    conn: &mut Connection<S>,
    name: &Name,
) -> Result<Option<Person>, StoreFault>
    requires { conn.old.in_transaction ≡ false }
    ensures idle { conn.new.in_transaction ≡ false }
    ensures found { IfOk result (λ person. OfState (state S.Store conn.old) (state S.Store conn.new)
        (λ s. person ≡ find (has_name name.now) s.world.people)) }
    ensures excused { result ≡ Err StoreFault.Store
        → FailsOfState (state S.Store conn.old) (state S.Store conn.new) }
    ensures faults { KeepsFaults (state S.Store conn.old) (state S.Store conn.new) }
    ensures same { IsAsBefore (state S.Store conn.old) (state S.Store conn.new) }
{
    let Some(person) = stored_person(alloc, conn, name)? else {
        return Ok(None);
    };
    match name.duplicate() {
        Ok(name) => Ok(Some(Person {
            name,
            key: person.key,
        })),
        Err(_) => Err(StoreFault::Memory),
    }
}

fn find_other<S: Alter>(
    alloc: Global,
    conn: &mut Connection<S>,
    command: &Command,
) -> Result<Option<usize>, StoreFault>
    requires { conn.old.in_transaction ≡ false }
    ensures idle { conn.new.in_transaction ≡ false }
    ensures found { IfOk result (λ number. OfState (state S.Store conn.old) (state S.Store conn.new)
        (λ s. number ≡ number_for s.world (other_of command.now))) }
    ensures excused { result ≡ Err StoreFault.Store
        → FailsOfState (state S.Store conn.old) (state S.Store conn.new) }
    ensures faults { KeepsFaults (state S.Store conn.old) (state S.Store conn.new) }
    ensures same { IsAsBefore (state S.Store conn.old) (state S.Store conn.new) }
{
    match command.other() {
        Some(name) => find_number(alloc, conn, name),
        None => Ok(None),
    }
}

fn find_number<S: Alter>(
    alloc: Global,
    conn: &mut Connection<S>,
    name: &Name,
) -> Result<Option<usize>, StoreFault>
    requires { conn.old.in_transaction ≡ false }
    ensures idle { conn.new.in_transaction ≡ false }
    ensures found { IfOk result (λ number. OfState (state S.Store conn.old) (state S.Store conn.new)
        (λ s. number ≡ number_of s.world name.now)) }
    ensures excused { result ≡ Err StoreFault.Store
        → FailsOfState (state S.Store conn.old) (state S.Store conn.new) }
    ensures faults { KeepsFaults (state S.Store conn.old) (state S.Store conn.new) }
    ensures same { IsAsBefore (state S.Store conn.old) (state S.Store conn.new) }
{
    match stored_person(alloc, conn, name)? {
        Some(person) => Ok(Some(person.number)),
        None => Ok(None),
    }
}

/// Whether the command takes a board.
fn takes(command: &Command) -> bool
    ensures { result ≡ takes command.now }
{
    matches!(command, Command::Take { .. })
}

/// What is seen of a board.
fn glance_at<S: Alter>(
    alloc: Global,
    conn: &mut Connection<S>,
    cache: &mut BoardCache,
    people: &mut People,
    board: u32,
    takes: bool,
    parties: Parties,
) -> Result<Glance, StoreFault>
    requires { conn.old.in_transaction ≡ false }
    ensures idle { conn.new.in_transaction ≡ false }
    ensures found { IfOk result (λ glance. OfState (state S.Store conn.old) (state S.Store conn.new)
        (λ s. AreOf s.world cache.old.entries → IsKnownIn s.world people.old.known
        → IsGlanceAt s.world board takes parties glance)) }
    ensures people { AreStillKnown (state S.Store conn.old) (state S.Store conn.new)
        people.old people.new }
    ensures at_hand { IfOk result (λ glance. IsSeenAtHand cache.new.entries board glance.board) }
    ensures cached { OfState (state S.Store conn.old) (state S.Store conn.new)
        (λ s. AreOf s.world cache.old.entries → AreOf s.world cache.new.entries) }
    ensures excused { result ≡ Err StoreFault.Store
        → FailsOfState (state S.Store conn.old) (state S.Store conn.new) }
    ensures faults { KeepsFaults (state S.Store conn.old) (state S.Store conn.new) }
    ensures same { IsAsBefore (state S.Store conn.old) (state S.Store conn.new) }
{
    let caller = parties.caller.unwrap_or(0); // Nobody has this number.
    let roles = roles_at(alloc, conn, people, board, caller, parties.other)?;
    let role = role_of_caller(takes, parties.caller, roles.caller);
    let seen = see_board(alloc, conn, cache, board, role)?;
    Ok(Glance {
        caller: parties.caller,
        own: parties.own,
        board: seen,
        other: seen_person(parties.other, roles.other),
        owners: roles.owners,
    })
}

/// The board of a number, where the caller sees it in a role.
fn see_board<S: Alter>(
    alloc: Global,
    conn: &mut Connection<S>,
    cache: &mut BoardCache,
    number: u32,
    role: Option<Role>,
) -> Result<Option<SeenBoard>, StoreFault>
    requires { conn.old.in_transaction ≡ false }
    ensures idle { conn.new.in_transaction ≡ false }
    ensures found { IfOk result (λ seen. OfState (state S.Store conn.old) (state S.Store conn.new)
        (λ s. AreOf s.world cache.old.entries
        → seen ≡ seen_with role (find_board s.world number))) }
    ensures at_hand { IfOk result (IsSeenAtHand cache.new.entries number) }
    ensures cached { OfState (state S.Store conn.old) (state S.Store conn.new)
        (λ s. AreOf s.world cache.old.entries → AreOf s.world cache.new.entries) }
    ensures excused { result ≡ Err StoreFault.Store
        → FailsOfState (state S.Store conn.old) (state S.Store conn.new) }
    ensures faults { KeepsFaults (state S.Store conn.old) (state S.Store conn.new) }
    ensures same { IsAsBefore (state S.Store conn.old) (state S.Store conn.new) }
{
    let Some(role) = role else {
        return Ok(None);
    };
    match board_at(alloc, conn, cache, number)? {
        Some(board) => Ok(Some(SeenBoard { board, role })),
        None => Ok(None),
    }
}

/// The role in which the caller sees a board. The first person sees one that it takes as an owner does.
fn role_of_caller(takes: bool, caller: Option<usize>, role: Option<Role>) -> Option<Role>
    ensures { result ≡ caller_role takes caller role }
{
    match caller {
        Some(number) if takes && number == 1 => Some(Role::Owner),
        Some(_) => role,
        None => None,
    }
}

fn seen_person(number: Option<usize>, role: Option<Role>) -> Option<SeenPerson>
    ensures { result ≡ option_map (λ n. record { number = n; role = role }) number }
{
    match number {
        Some(number) => Some(SeenPerson { number, role }),
        None => None,
    }
}
