//! The people at hand: how many there are, and the one that was found last, with the role on the board that was asked for last.

ghost use Rattle.std.specs.Prelude.{◌≡◌, ◌+◌, ◌≤◌, IfOk, IfSome, IsSome, OnErr, OnOk, None, Some, false, Err};
ghost use Rattle.std.specs.List.{count_by, list_any};
ghost use Rattle.std.specs.Option.{option_map};
ghost use Rattle.sqlite.specs.Held.{state};
ghost use Rattle.tb_sql.specs.Opening.{IsAsBefore};
ghost use Rattle.tb_sql_tables.specs.Failing.{KeepsFaults};
ghost use Rattle.tb_lookup.specs.People.{IsPersonFound};
ghost use Rattle.tb_lookup.specs.Reopening.{OfState, FailsOfState};
ghost use Rattle.tb_lookup.specs.Roles.{AreRolesFound};
ghost use Rattle.tb_keeper.specs.Counts.{is_new_person};
ghost use Rattle.tb_keeper.specs.PeopleAtHand.{AreStillKnown, IsKnownIn, known_after, known_as, known_roles, known_with, own_roles, roles_of, touches_people, with_roles};
ghost use Rattle.tb_task.specs.Limits.{most_people};

use crate::at_hand::people_with;
use sqlite::{Alter, Connection};
use std::alloc::{AllocError, Global};
use tb_board::{Change, Name};
use tb_lookup::people::{StoredPerson, stored_person};
use tb_lookup::roles::{RolesFound, roles_found};
use tb_sql::store::StoreFault;
use tb_values::{Duplicate, Same};

/// How many people there are, and the one that was found last. A call asks for its caller several times, and the next call is often
/// from the same person.
#[derive(Drop)]
pub(crate) struct People {
    pub count: usize,
    pub known: Option<KnownPerson>,
}

/// A person, under the name that was looked up, with what was found last of the person's roles.
#[derive(Drop)]
pub(crate) struct KnownPerson {
    pub name: Name,
    pub found: StoredPerson,
    pub roles: Option<KnownRoles>,
}

/// The role of the known person on a board, if there is one, and how many owners the board has.
#[derive(Clone, Copy)]
pub(crate) struct KnownRoles {
    pub board: u32,
    pub found: RolesFound,
}

/// The person of a name, if there is one: the known one, or else the one that is stored, who is known from then on. For the known one
/// no table is read.
pub(crate) fn person_at<S: Alter>(
    alloc: Global,
    conn: &mut Connection<S>,
    people: &mut People,
    name: &Name,
) -> Result<Option<StoredPerson>, StoreFault>
    requires { conn.old.in_transaction ≡ false }
    ensures idle { conn.new.in_transaction ≡ false }
    ensures found { IfOk result (λ person. OfState (state S.Store conn.old) (state S.Store conn.new)
        (λ s. IsKnownIn s.world people.old.known → IsPersonFound s.world name.now person)) }
    ensures at_hand { IfOk result (λ person. person ≡ known_as people.new.known name.now) }
    ensures unread { IsSome (known_as people.old.known name.now) → conn.new ≡ conn.old }
    ensures people { AreStillKnown (state S.Store conn.old) (state S.Store conn.new)
        people.old people.new }
    ensures excused { result ≡ Err StoreFault.Store
        → FailsOfState (state S.Store conn.old) (state S.Store conn.new) }
    ensures faults { KeepsFaults (state S.Store conn.old) (state S.Store conn.new) }
    ensures same { IsAsBefore (state S.Store conn.old) (state S.Store conn.new) }
{
    match people.look(name) {
        Ok(Some(person)) => return Ok(Some(person)),
        Ok(None) => {}
        Err(_) => return Err(StoreFault::Memory),
    }
    let found = stored_person(alloc, conn, name)?;
    match people.remember(name, &found) {
        Ok(()) => Ok(found),
        Err(_) => Err(StoreFault::Memory),
    }
}

/// The roles of two people on a board, as `roles_found` returns them: what is known of them, where only the known person is asked for,
/// or else what is stored, which is known from then on. For what is known no table is read.
pub(crate) fn roles_at<S: Alter>(
    alloc: Global,
    conn: &mut Connection<S>,
    people: &mut People,
    board: u32,
    caller: usize,
    other: Option<usize>,
) -> Result<RolesFound, StoreFault>
    requires { conn.old.in_transaction ≡ false }
    ensures idle { conn.new.in_transaction ≡ false }
    ensures found { IfOk result (λ roles. OfState (state S.Store conn.old) (state S.Store conn.new)
        (λ s. IsKnownIn s.world people.old.known
        → AreRolesFound s.world board caller other roles)) }
    ensures unread { IsSome (known_roles people.old.known board caller other)
        → conn.new ≡ conn.old }
    ensures people { AreStillKnown (state S.Store conn.old) (state S.Store conn.new)
        people.old people.new }
    ensures excused { result ≡ Err StoreFault.Store
        → FailsOfState (state S.Store conn.old) (state S.Store conn.new) }
    ensures faults { KeepsFaults (state S.Store conn.old) (state S.Store conn.new) }
    ensures same { IsAsBefore (state S.Store conn.old) (state S.Store conn.new) }
{
    if let Some(roles) = people.known_roles(board, caller, other) {
        return Ok(roles);
    }
    let roles = roles_found(alloc, conn, board, caller, other)?;
    people.remember_roles(board, caller, other, roles);
    Ok(roles)
}

impl People {
    /// The known person, if it is known under this name.
    fn look(&self, name: &Name) -> Result<Option<StoredPerson>, AllocError>
        ensures { IfOk result (λ found. found ≡ known_as self.now.known name.now) }
    {
        let Some(person) = &self.known else {
            return Ok(None);
        };
        if !person.name.same(name) {
            return Ok(None);
        }
        let found = copy_of(&person.found)?;
        Ok(Some(found))
    }

    /// Knows a person that was found under a name, if there is one.
    fn remember(&mut self, name: &Name, found: &Option<StoredPerson>) -> Result<(), AllocError>
        ensures known { OnOk result (IfSome found.now
            (λ p. self.new.known ≡ Some (record { name = name.now; found = p; roles = None }))) }
        ensures none { found.now ≡ None → self.new ≡ self.old }
        ensures count { self.new.count ≡ self.old.count }
        ensures same { OnErr result (self.new ≡ self.old) }
    {
        let Some(person) = found else {
            return Ok(());
        };
        let name = name.duplicate()?;
        let found = copy_of(person)?;
        self.known = Some(KnownPerson {
            name,
            found,
            roles: None,
        });
        Ok(())
    }

    /// What is known of roles on a board, where only the known person is asked for.
    fn known_roles(&self, board: u32, caller: usize, other: Option<usize>) -> Option<RolesFound>
        ensures { result ≡ known_roles self.now.known board caller other }
    {
        match other {
            Some(_) => None,
            None => own_roles(&self.known, board, caller),
        }
    }

    /// Knows what was found of roles on a board, where only the known person was asked for.
    fn remember_roles(&mut self, board: u32, caller: usize, other: Option<usize>, found: RolesFound)
        ensures { self.new
            ≡ record self.old { known = known_with self.old.known board caller other found } }
    {
        if other.is_none() {
            self.known = known_with(self.known.take(), board, caller, found);
        }
    }

    /// Follows changes that were written. Where they touch people or roles, nobody is known any more.
    pub(crate) fn follow(&mut self, changes: &[Change])
        ensures count { self.old.count + count_by is_new_person changes.now ≤ most_people
            → self.new.count ≡ self.old.count + count_by is_new_person changes.now }
        ensures known { self.new.known ≡ known_after self.old.known changes.now }
    {
        self.count = people_with(self.count, changes);
        if touch_people(changes) {
            self.known = None;
        }
    }
}

fn own_roles(known: &Option<KnownPerson>, board: u32, caller: usize) -> Option<RolesFound>
    ensures { result ≡ own_roles known.now board caller }
{
    match known {
        Some(person) if person.found.number == caller => roles_of(person.roles, board),
        _ => None,
    }
}

fn roles_of(roles: Option<KnownRoles>, board: u32) -> Option<RolesFound>
    ensures { result ≡ roles_of roles board }
{
    match roles {
        Some(roles) if roles.board == board => Some(roles.found),
        _ => None,
    }
}

fn known_with(
    known: Option<KnownPerson>,
    board: u32,
    caller: usize,
    found: RolesFound,
) -> Option<KnownPerson>
    ensures { result ≡ option_map (with_roles board caller found) known }
{
    match known {
        Some(person) => Some(with_roles(person, board, caller, found)),
        None => None,
    }
}

/// The person with what was found of roles on a board, where they are that person's.
fn with_roles(person: KnownPerson, board: u32, caller: usize, found: RolesFound) -> KnownPerson
    ensures { result ≡ with_roles board caller found person }
{
    if person.found.number != caller {
        return person;
    }
    let mut person = person;
    person.roles = Some(KnownRoles { board, found });
    person
}

fn copy_of(person: &StoredPerson) -> Result<StoredPerson, AllocError>
    ensures { IfOk result (λ twin. twin ≡ person.now) }
{
    let key = person.key.duplicate()?;
    Ok(StoredPerson {
        number: person.number,
        key,
    })
}

fn touch_people(changes: &[Change]) -> bool
    ensures { result ≡ list_any touches_people changes.now }
{
    changes.iter().any(|change| touches_people(change))
}

fn touches_people(change: &Change) -> bool
    ensures { result ≡ touches_people change.now }
{
    matches!(
        change,
        Change::AddPerson { .. } | Change::SetKey { .. } | Change::SetRole { .. }
    )
}
