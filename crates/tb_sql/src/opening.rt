//! Takes a connection that was opened over a database as a store.

ghost use Rattle.std.specs.Prelude.{◌≡◌, ◌≢◌, ◌⊎◌, ℕ, List, [], ◌∷◌, map, true, false, IsTrue, IfOk, OnOk, Bool, Ok, Err};
ghost use Rattle.sqlite.specs.Held.{state};
ghost use Rattle.sqlite.specs.State.{HasCleanDisk};
ghost use Rattle.tb_sql_tables.specs.Tables.{meta_tree, no_schema};
ghost use Rattle.tb_sql_tables.specs.declared.rows.MetaRow.{MetaRow as Meta};
ghost use Rattle.tb_sql_tables.specs.Content.{Content, AreOldRows, AreRows, AreSecondRows, AreVersionRows, HasKeyed, IsContent, Stands};
ghost use Rattle.tb_sql_tables.specs.Standing.{StandsEmpty, StandsOld, StandsSecond};
ghost use Rattle.tb_sql_tables.specs.Failing.{FailsByFault, KeepsFaults, IsAtRest};
ghost use Rattle.tb_sql.specs.Opening.{chosen, has_meta, has_tables, judged, number_of, our_meta, row_of_meta, taken, Answers, AreMetas, AreShownFrom, HidesNone, IsAnswered, IsAsBefore, IsOfStore, IsOfVersion};

use crate::layout::{has_meta, is_old, is_ours, is_second};
use crate::meta::select_meta;
use crate::store::StoreFault;
use sqlite::{Alter, Connection};
use tb_sql_tables::rows::MetaRow;
use tb_values::Items;

const KIND: &str = "taskboard";

/// Which tables a store has.
#[derive(Clone, Copy, Debug, PartialEq, Eq)]
pub enum Version {
    /// Those without what the boards have ahead and without their history.
    First,
    /// Those without the history of the boards.
    Second,
    /// Those that are made today.
    Third,
}

/// The number by which a store says its version. The second and the third have one.
#[derive(Clone, Copy, Debug, PartialEq, Eq)]
pub enum Number {
    One,
    Two,
}

/// Why a database isn't taken as a store. It is as it was.
#[derive(Clone, Copy, Debug, PartialEq, Eq)]
pub enum OpenFault {
    /// Its tables, or the row that tells what it is, are not those of a store.
    NotOurs,
    /// It is a store of another version.
    WrongVersion,
    /// The database failed.
    Store,
    /// For want of memory.
    Memory,
}

impl OpenFault {
    fn of(fault: StoreFault) -> OpenFault
        ensures memory { fault ≡ StoreFault.Memory → result ≡ OpenFault.Memory }
        ensures store { fault ≡ StoreFault.Store → result ≡ OpenFault.Store }
    {
        match fault {
            StoreFault::Memory => OpenFault::Memory,
            StoreFault::Store => OpenFault::Store,
        }
    }
}

/// Whether the database has no table, index or view at all.
pub fn is_empty<S: Alter>(conn: &Connection<S>) -> bool
    ensures value { IsTrue result → (state S.Store conn.now).now.schema ≡ no_schema }
    ensures taken { result ≡ false → (state S.Store conn.now).now.schema ≡ no_schema → ⊥ }
    ensures stands { IsTrue result → IsAtRest (state S.Store conn.now)
        → StandsEmpty (state S.Store conn.now) }
{
    let schema = conn.schema();
    schema.tables.is_empty() && schema.indexes.is_empty() && schema.views.is_empty()
}

/// What the file is by its first table.
fn read_meta<S: Alter>(conn: &mut Connection<S>) -> Result<Items<MetaRow>, StoreFault>
    requires { conn.old.in_transaction ≡ false }
    ensures idle { conn.new.in_transaction ≡ false }
    ensures found { IfOk result
        (λ metas. HasCleanDisk (state S.Store conn.new) → (content : Content)
        → IsContent content (state S.Store conn.old).now → metas ≡ our_meta ∷ []) }
    ensures told { IfOk result
        (λ metas. HasCleanDisk (state S.Store conn.new)
        → AreMetas (state S.Store conn.old).now metas) }
    ensures shown { IfOk result
        (λ metas. HasCleanDisk (state S.Store conn.new) → AreShownFrom S.Store conn.old metas) }
    ensures excused { result ≡ Err StoreFault.Store
        → FailsByFault (state S.Store conn.old) (state S.Store conn.new)
        (λ content. IsContent content (state S.Store conn.old).now) }
    ensures hides { result ≡ Err StoreFault.Store
        → HidesNone (state S.Store conn.old) (state S.Store conn.new) }
    ensures faults { KeepsFaults (state S.Store conn.old) (state S.Store conn.new) }
    ensures same { IsAsBefore (state S.Store conn.old) (state S.Store conn.new) }
{
    let mut tx = conn.transaction();
    let found = select_meta(&mut tx);
    drop(tx);
    match found {
        Ok(metas) => Ok(metas),
        Err(error) => Err(StoreFault::before_commit(&error)),
    }
}

/// Judges what the file is.
fn judge(metas: &[MetaRow]) -> Result<Number, OpenFault>
    ensures { result ≡ judged metas.now }
{
    let [meta] = metas else {
        return Err(OpenFault::NotOurs);
    };
    if meta.kind.as_str() != KIND {
        return Err(OpenFault::NotOurs);
    }
    number_of(meta.version)
}

fn number_of(number: u32) -> Result<Number, OpenFault>
    ensures { result ≡ number_of number }
{
    match number {
        2 => Ok(Number::Two),
        1 => Ok(Number::One),
        _ => Err(OpenFault::WrongVersion),
    }
}

/// The version of this number whose tables are there: where none is, something else is there, or a table is missing.
fn choose(number: Number, first: bool, second: bool, third: bool) -> Result<Version, OpenFault>
    ensures { result ≡ chosen number first second third }
{
    match number {
        Number::One if first => Ok(Version::First),
        Number::Two if third => Ok(Version::Third),
        Number::Two if second => Ok(Version::Second),
        _ => Err(OpenFault::NotOurs),
    }
}

/// Takes the database as a store of a version, as it is, or refuses it.
pub fn accept<S: Alter>(conn: &mut Connection<S>) -> Result<Version, OpenFault>
    requires { conn.old.in_transaction ≡ false }
    ensures idle { conn.new.in_transaction ≡ false }
    ensures shows { OnOk result
        (IsAtRest (state S.Store conn.old) → (content : Content)
        → AreRows content (state S.Store conn.old).now.trees
        → Stands content (state S.Store conn.new)) }
    ensures old { IsAtRest (state S.Store conn.old) → (content : Content)
        → AreOldRows content (state S.Store conn.old).now.trees
        → StandsOld content (state S.Store conn.new) }
    ensures earlier { IsAtRest (state S.Store conn.old) → (content : Content)
        → AreSecondRows content (state S.Store conn.old).now.trees
        → StandsSecond content (state S.Store conn.new) }
    ensures third { IfOk result (λ version. IsAtRest (state S.Store conn.old) → (content : Content)
        → AreRows content (state S.Store conn.old).now.trees → version ≡ Version.Third) }
    ensures second { IfOk result (λ version. IsAtRest (state S.Store conn.old) → (content : Content)
        → AreSecondRows content (state S.Store conn.old).now.trees → version ≡ Version.Second) }
    ensures first { IfOk result (λ version. IsAtRest (state S.Store conn.old) → (content : Content)
        → AreOldRows content (state S.Store conn.old).now.trees → version ≡ Version.First) }
    ensures refuses { (result ≡ Err OpenFault.NotOurs) ⊎ (result ≡ Err OpenFault.WrongVersion)
        → HasCleanDisk (state S.Store conn.new) → IsAtRest (state S.Store conn.old)
        → (content : Content) → AreVersionRows content (state S.Store conn.old).now.trees → ⊥ }
    ensures others { IfOk result
        (λ _. HasCleanDisk (state S.Store conn.new) → (version : ℕ) → version ≢ 2
        → IsOfVersion version (state S.Store conn.old).now → ⊥) }
    ensures tables { IfOk result
        (λ version. has_tables version (state S.Store conn.old).now.schema ≡ true) }
    ensures foreign { has_meta (state S.Store conn.old).now.schema.tables ≡ false
        → result ≡ Err OpenFault.NotOurs }
    ensures answered { HasCleanDisk (state S.Store conn.new)
        → has_meta (state S.Store conn.old).now.schema.tables ≡ true
        → IsAnswered S.Store conn.old result }
    ensures told { HasCleanDisk (state S.Store conn.new)
        → IsOfStore (state S.Store conn.old).now.schema
        → (metas : List Meta)
        → HasKeyed (map row_of_meta metas) ((state S.Store conn.old).now.trees meta_tree)
        → Answers (taken (state S.Store conn.old).now.schema metas) result }
    ensures excused { result ≡ Err OpenFault.Store → IsAtRest (state S.Store conn.old)
        → FailsByFault (state S.Store conn.old) (state S.Store conn.new)
        (λ content. AreRows content (state S.Store conn.old).now.trees) }
    ensures hides { result ≡ Err OpenFault.Store
        → HidesNone (state S.Store conn.old) (state S.Store conn.new) }
    ensures faults { KeepsFaults (state S.Store conn.old) (state S.Store conn.new) }
    ensures same { IsAsBefore (state S.Store conn.old) (state S.Store conn.new) }
{
    let first = is_old(conn.schema());
    let second = is_second(conn.schema());
    let third = is_ours(conn.schema());
    if !has_meta(conn.schema()) {
        return Err(OpenFault::NotOurs);
    }
    let metas = match read_meta(conn) {
        Ok(metas) => metas,
        Err(fault) => return Err(OpenFault::of(fault)),
    };
    let number = match judge(metas.as_slice()) {
        Ok(number) => number,
        Err(fault) => return Err(fault),
    };
    choose(number, first, second, third)
}
