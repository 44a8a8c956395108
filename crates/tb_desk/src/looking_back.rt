//! How a board's history is shown, over any keeper.
ghost use Rattle.std.specs.Prelude.{◌≡◌, IfOk, IsErrOf, IsSome, Ok, true};
ghost use Rattle.tb_board.specs.Tasks.{ids, place_in};
ghost use Rattle.tb_board.specs.World.{key_of};
ghost use Rattle.tb_calls.specs.declared.fault.KeepFault.TheVariants.{Store};
ghost use Rattle.tb_calls.specs.Call.{State};
ghost use Rattle.tb_calls.specs.Keep.{IsStill, is_store};
ghost use Rattle.tb_desk.specs.Viewing.{on_board, page_about, page_text};

use crate::viewing::see;
use std::alloc::Global;
use tb_board::{Board, Name};
use tb_calls::{Keep, KeepFault};
use tb_core::Refusal;
use tb_history::{Which, write_history};
use tb_task::TaskId;
use tb_values::Text;

/// A page of a board's history, where a person who is known has a role on it.
pub(crate) fn show_history<K: Keep>(
    keep: &mut K,
    alloc: Global,
    name: &Name,
    board: u32,
    which: Which,
) -> Result<Result<Text, Refusal>, KeepFault>
    ensures told { K.is_honest keep.new ≡ true → (s : State) → K.holds keep.old s
        → IsSome (key_of s.world name.now)
        → IfOk result (λ shown. shown
        ≡ on_board s.world name.now board (λ b. Ok (page_text s b which))) }
    ensures same { IsStill (K.holds keep.old) (K.after_stop keep.old) (K.holds keep.new)
        (K.after_stop keep.new) }
    ensures honest { K.is_honest keep.new ≡ true → K.is_honest keep.old ≡ true }
    ensures failed { K.has_failed keep.new ≡ is_store result }
    ensures closed { K.has_failed keep.old ≡ true → IsErrOf result Store }
{
    let Some(seen) = see(keep, alloc, name, board)? else {
        return Ok(Err(Refusal::NoBoard));
    };
    let page = write_page(keep, alloc, seen.board.get(), which)?;
    Ok(Ok(page))
}

/// The last entries about a task of a board, where a person who is known has a role on it.
pub(crate) fn show_history_of<K: Keep>(
    keep: &mut K,
    alloc: Global,
    name: &Name,
    board: u32,
    id: TaskId,
) -> Result<Result<Text, Refusal>, KeepFault>
    ensures told { K.is_honest keep.new ≡ true → (s : State) → K.holds keep.old s
        → IsSome (key_of s.world name.now)
        → IfOk result (λ shown. shown
        ≡ on_board s.world name.now board (λ b. page_about s b (place_in (ids b.tasks) id))) }
    ensures same { IsStill (K.holds keep.old) (K.after_stop keep.old) (K.holds keep.new)
        (K.after_stop keep.new) }
    ensures honest { K.is_honest keep.new ≡ true → K.is_honest keep.old ≡ true }
    ensures failed { K.has_failed keep.new ≡ is_store result }
    ensures closed { K.has_failed keep.old ≡ true → IsErrOf result Store }
{
    let Some(seen) = see(keep, alloc, name, board)? else {
        return Ok(Err(Refusal::NoBoard));
    };
    let Some(place) = seen.board.get().tasks.place_of(id) else {
        return Ok(Err(Refusal::NoTask));
    };
    let page = write_page(keep, alloc, seen.board.get(), Which::OfPlace(place))?;
    Ok(Ok(page))
}

/// A page of a board's history as JSON.
fn write_page<K: Keep>(
    keep: &mut K,
    alloc: Global,
    board: &Board,
    which: Which,
) -> Result<Text, KeepFault>
    ensures told { K.is_honest keep.new ≡ true → (s : State) → K.holds keep.old s
        → IfOk result (λ text. text ≡ page_text s board.now which) }
    ensures same { IsStill (K.holds keep.old) (K.after_stop keep.old) (K.holds keep.new)
        (K.after_stop keep.new) }
    ensures honest { K.is_honest keep.new ≡ true → K.is_honest keep.old ≡ true }
    ensures failed { K.has_failed keep.new ≡ is_store result }
    ensures closed { K.has_failed keep.old ≡ true → IsErrOf result Store }
{
    let page = keep.history(alloc, board, which)?;
    Ok(write_history(alloc, board.number, &page)?)
}
