//! Boards at hand, and boards after changes.

use crate::boards::empty_board;
use crate::finding::{Finding, missing};
use crate::given::{halves, read_count, read_place};
use crate::tasks::read;
use std::alloc::Global;
use std::io;
use tb_board::{Ahead, Board, Change, replayed};
use tb_cache::{BoardCache, MOST_BOARDS_AT_HAND};
use tb_values::{Items, Shared};

/// The last board that is asked for.
const LAST: u32 = 20;

/// The task that a step puts on a board.
const TASK: &str =
    r#"{"description":"Milk","entry":"20260101T000000Z","status":"pending","uuid":"00000001-0000-8000-8000-000000000001"}"#;

/// The boards that are at hand after steps.
pub(crate) fn at_hand(alloc: Global, steps: &str) -> Finding {
    let mut cache = BoardCache::new(alloc)?;
    for step in steps.split_whitespace() {
        take_step(alloc, &mut cache, step)?;
    }
    let mut told = format!(in alloc; "{} of {MOST_BOARDS_AT_HAND}:", cache.len())?;
    for number in 1..=LAST {
        if let Some(board) = cache.cached(number) {
            push_board(&mut told, board)?;
        }
    }
    Ok(told)
}

fn push_board(told: &mut String, board: &Board) -> io::Result<()> {
    write!(told, " {}", board.number)?;
    if !board.tasks.is_empty() {
        write!(told, "+{}", board.tasks.len())?;
    }
    if board.ahead != Ahead::one() {
        write!(told, "^{}", board.ahead.number())?;
    }
    Ok(())
}

/// `N` uses a board, `N-M` each of several in turn, `+N` puts a task more on a board, and `N^A` lets one look A ahead.
fn take_step(alloc: Global, cache: &mut BoardCache, step: &str) -> io::Result<()> {
    if let Some(number) = step.strip_prefix('+') {
        return put_task(alloc, cache, board_number(number));
    }
    if let Some((number, ahead)) = step.split_once('^') {
        return look_ahead(alloc, cache, board_number(number), ahead);
    }
    let (first, last) = step.split_once('-').unwrap_or((step, step));
    for number in board_number(first)..=board_number(last) {
        use_board(alloc, cache, number)?;
    }
    Ok(())
}

fn board_number(text: &str) -> u32 {
    text.parse().unwrap_or(0)
}

/// Looks at a board, and puts it at hand where it isn't.
fn use_board(alloc: Global, cache: &mut BoardCache, number: u32) -> io::Result<()> {
    if cache.look(number)?.is_none() {
        let mut board = empty_board(alloc)?;
        board.number = number;
        cache.put(Shared::new(alloc, board)?)?;
    }
    Ok(())
}

fn put_task(alloc: Global, cache: &mut BoardCache, number: u32) -> io::Result<()> {
    let place = cache.cached(number).map_or(0, |board| board.tasks.len());
    let mut changes = Items::new(alloc);
    changes.push(task_put(alloc, number, place, TASK)?)?;
    cache.follow(alloc, changes.as_slice())?;
    Ok(())
}

fn look_ahead(alloc: Global, cache: &mut BoardCache, number: u32, ahead: &str) -> io::Result<()> {
    let ahead = Ahead::read(read_count(ahead) as u64).ok_or(missing())?;
    let mut changes = Items::new(alloc);
    changes.push(Change::SetAhead {
        board: number,
        ahead,
    })?;
    cache.follow(alloc, changes.as_slice())?;
    Ok(())
}

fn task_put(alloc: Global, board: u32, place: usize, json: &str) -> io::Result<Change> {
    let task = Shared::new(alloc, read(alloc, json)?)?;
    Ok(Change::PutTask { board, place, task })
}

/// How many tasks a board has before and after changes, which put each of these tasks at the place of its number.
pub(crate) fn replay(alloc: Global, given: &str) -> Finding {
    let board = empty_board(alloc)?;
    let mut changes = Items::new(alloc);
    for part in given.split('\t') {
        let (place, json) = halves(part);
        let place = read_place(place);
        changes.push(task_put(alloc, board.number, place, json)?)?;
    }
    let later = replayed(alloc, &board, changes.as_slice())?;
    let (before, after) = (board.tasks.len(), later.tasks.len());
    Ok(format!(in alloc; "{before} then {after}")?)
}
