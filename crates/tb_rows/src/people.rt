ghost use Rattle.std.specs.Prelude.{◌≡◌, ◌+◌, ◌≤◌, IfOk, Some};
ghost use Rattle.tb_rows.specs.Rows.{person_row, secret_of};
ghost use Rattle.tb_sql.specs.declared.changes.RowChange.TheVariants.{SetSecret};
ghost use Rattle.tb_task.specs.Limits.{most_people};

use std::alloc::{AllocError, Global};
use tb_board::{Key, Name};
use tb_sql::changes::RowChange;
use tb_sql_tables::rows::PersonRow;
use tb_values::Text;

/// The row of a person who comes in where there were so many.
pub(crate) fn person_row(
    alloc: Global,
    people: usize,
    name: &Name,
    key: &Key,
) -> Result<PersonRow, AllocError>
    requires { people ≤ most_people }
    ensures { IfOk result
        (λ row. row ≡ person_row (people + 1) (record { name = name.now; key = Some key.now })) }
{
    Ok(PersonRow {
        id: people as u32 + 1,
        name: Text::from_str(alloc, name.as_str())?,
        secret: Text::from_str(alloc, key.as_str())?,
    })
}

/// The change of the row of a person who has another key, or none.
pub(crate) fn secret_change(
    alloc: Global,
    name: &Name,
    key: &Option<Key>,
) -> Result<RowChange, AllocError>
    ensures { IfOk result (λ change. change ≡ SetSecret name.now (secret_of key.now)) }
{
    Ok(RowChange::SetSecret {
        name: Text::from_str(alloc, name.as_str())?,
        secret: Text::from_str(alloc, secret_of(key))?,
    })
}

/// The key as it is stored: the empty text where there is none.
fn secret_of(key: &Option<Key>) -> &str
    ensures { result.now ≡ secret_of key.now }
{
    match key {
        Some(key) => key.as_str(),
        None => "",
    }
}
