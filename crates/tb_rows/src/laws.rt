//! What rows tell of a world, as functions whose contracts are the laws.

ghost use Rattle.tb_rows.specs.Laws.{AreApart, AreFoundAgain, AreReadBack};

use tb_task::ids_are_read;

/// The rows of a good world stand for that world.
pub fn rows_are_read_back()
    ensures { AreReadBack }
{
    ids_are_read();
}

/// What is found in a content that has a good world's rows is read as that world.
pub fn rows_are_found_again()
    ensures { AreFoundAgain }
{
    ids_are_read();
}

/// No two good worlds have the same rows.
pub fn rows_are_apart()
    ensures { AreApart }
{
    ids_are_read();
}
