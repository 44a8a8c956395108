//! The statements on the links between tasks.

ghost use Rattle.std.specs.Prelude.{◌≡◌, IsTrue, IfErr, IfOk, OnOk, ◌==◌, filter};
ghost use Rattle.sqlite.specs.State.{HasCleanDisk, Survives};
ghost use Rattle.tb_sql_tables.specs.Inside.{seen, KeepsInside, KeepsOnErr};
ghost use Rattle.tb_sql_tables.specs.Statements.{Changes, Finds};
ghost use Rattle.tb_sql_tables.specs.Failing.{IsExcused};
ghost use Rattle.tb_sql_tables.specs.Found.{AreFound};
ghost use Rattle.tb_sql.specs.Changes.{with_link, without_links, IsLinkBefore};

use sqlite::{Alter, Error, Transaction, params};
use tb_sql_tables::fitting::link_fits;
use tb_sql_tables::read::read_all;
use tb_sql_tables::rows::LinkRow;
use tb_sql_tables::run::{find_rows, run};
use tb_values::Items;

/// Adds a link. It fails where it is there.
pub fn insert_link<S: Alter>(tx: &mut Transaction<'_, S>, link: &LinkRow) -> Result<(), Error>
    ensures same_reference { tx.new.conn.ghost_name ≡ tx.old.conn.ghost_name }
    ensures put { HasCleanDisk (seen S.Store tx.new)
        → IsTrue (seen S.Store tx.old).in_transaction
        → OnOk result (Changes (with_link link.now) (seen S.Store tx.old) (seen S.Store tx.new)) }
    ensures kept { KeepsOnErr (seen S.Store tx.old) (seen S.Store tx.new) result }
    ensures survives { Survives (seen S.Store tx.old) (seen S.Store tx.new) (λ _. ⊥) }
{
    link_fits(link);
    run(
        tx,
        "INSERT INTO link (board, place, target) VALUES (?1, ?2, ?3)",
        params![link.board, link.place, link.target],
    )
}

/// Removes the links of the task at a place to the tasks that it depends on.
pub fn delete_links<S: Alter>(
    tx: &mut Transaction<'_, S>,
    board: u32,
    place: u32,
) -> Result<(), Error>
    ensures same_reference { tx.new.conn.ghost_name ≡ tx.old.conn.ghost_name }
    ensures put { HasCleanDisk (seen S.Store tx.new)
        → IsTrue (seen S.Store tx.old).in_transaction
        → OnOk result (Changes (without_links board place) (seen S.Store tx.old)
        (seen S.Store tx.new)) }
    ensures kept { KeepsOnErr (seen S.Store tx.old) (seen S.Store tx.new) result }
    ensures survives { Survives (seen S.Store tx.old) (seen S.Store tx.new) (λ _. ⊥) }
{
    run(
        tx,
        "DELETE FROM link WHERE board = ?1 AND place = ?2",
        params![board, place],
    )
}

/// The links of a board, in order of place and target.
pub fn select_links<S: Alter>(
    tx: &mut Transaction<'_, S>,
    board: u32,
) -> Result<Items<LinkRow>, Error>
    ensures same_reference { tx.new.conn.ghost_name ≡ tx.old.conn.ghost_name }
    ensures found { HasCleanDisk (seen S.Store tx.new)
        → IfOk result (λ links. Finds
        (λ content. AreFound IsLinkBefore (filter (λ link. link.board == board) content.links)
        links) (seen S.Store tx.old)) }
    ensures excused { HasCleanDisk (seen S.Store tx.new)
        → IfErr result (IsExcused (seen S.Store tx.old) (seen S.Store tx.new)) }
    ensures kept { KeepsInside (seen S.Store tx.old) (seen S.Store tx.new) }
    ensures survives { Survives (seen S.Store tx.old) (seen S.Store tx.new) (λ _. ⊥) }
{
    let rows = find_rows(
        tx,
        "SELECT board, place, target FROM link WHERE board = ?1 ORDER BY place, target",
        params![board],
    )?;
    read_all(*rows.allocator(), &rows)
}
