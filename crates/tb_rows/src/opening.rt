ghost use Rattle.std.specs.Prelude.{◌≡◌, [], IfOk, codes};
ghost use Rattle.tb_board.specs.World.{opening};
ghost use Rattle.tb_sql.specs.FirstVersion.{first_content};
ghost use Rattle.tb_sql.specs.Migrating.{without_horizon};
ghost use Rattle.tb_sql.specs.Writing.{opening as made_by};
ghost use Rattle.tb_rows.specs.Rows.{board_row, world_rows};

use crate::boards::first_horizon;
use crate::people::person_row;
use std::alloc::{AllocError, Global};
use tb_board::{Key, Name};
use tb_sql::changes::RowChange;
use tb_sql_tables::rows::{BoardRow, PersonRow, RoleRow};
use tb_values::{Items, Text};

/// The rows of the world that a person begins with, but for how far ahead its board looks.
#[derive(Drop)]
pub struct FirstRows {
    pub person: PersonRow,
    pub board: BoardRow,
    pub role: RoleRow,
}

impl FirstRows {
    pub fn of(alloc: Global, name: &Name, key: &Key) -> Result<FirstRows, AllocError>
        ensures { IfOk result
            (λ first. first_content first.person first.board first.role
            ≡ without_horizon (world_rows (opening name.now key.now))) }
    {
        let person = person_row(alloc, 0, name, key)?;
        let board = first_board(alloc)?;
        let role = RoleRow {
            board: 1,
            person: 1,
            kind: 1,
        };
        Ok(FirstRows {
            person,
            board,
            role,
        })
    }
}

/// The rows of the world that a person begins with.
pub fn opening_rows(alloc: Global, name: &Name, key: &Key) -> Result<Items<RowChange>, AllocError>
    ensures { IfOk result (λ rows. made_by rows ≡ world_rows (opening name.now key.now)) }
{
    let person = person_row(alloc, 0, name, key)?;
    let board = first_board(alloc)?;
    let mut rows = Items::new(alloc);
    rows.push(RowChange::AddPerson(person))?;
    rows.push(RowChange::AddBoard(board))?;
    rows.push(RowChange::AddRole(RoleRow {
        board: 1,
        person: 1,
        kind: 1,
    }))?;
    rows.push(RowChange::AddHorizon(first_horizon(1)))?;
    Ok(rows)
}

#[tactic(auto, unfolding(tb_board::specs::Numbers::free))]
fn first_board(alloc: Global) -> Result<BoardRow, AllocError>
    ensures { IfOk result
        (λ row. row ≡ board_row
        (record { number = 1; title = codes "board"; tasks = []; gone = []; ahead = 1 })) }
{
    let title = Text::from_str(alloc, "board")?;
    Ok(BoardRow {
        id: 1,
        title,
        low: 1,
    })
}
