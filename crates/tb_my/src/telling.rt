//! What is told of the words of `my`.
ghost use Rattle.std.specs.Prelude.{◌≡◌, ◌++◌, IfOk, OnOk, option_map};
ghost use Rattle.std.specs.String.{string_bytes};
ghost use Rattle.tb_my.specs.Telling.{added_text, fault_text, form_text, lacking_text, named_refusal, no_task_text, number_of_task, quoted_text, refusal_text, said_refusal, shown_char, shown_text, told_link, told_task, unfit_text};

use crate::days::after_key;
use crate::fault::MyFault;
use crate::look::Seen;
use crate::settings::SettingName;
use crate::word::MyWord;
use serde_json::Value;
use std::alloc::{AllocError, Global};
use tb_json::parse;
use tb_task::TaskId;
use tb_values::Text;

const NO_MEMORY: &str = "There was no memory.";

const NO_WORD: &str = " is none of my words. `tb --help` lists them.";

const NO_DAY: &str =
    " is no day. Write today, tomorrow, yesterday, now, a weekday as friday, 3d, 2w, 1mo, eow, eom, \"next week\", or a date as 2026-12-01, 12-24 or 24.12. A time may follow: fri14:00.";

const NO_STEP: &str =
    " is no step of recurrence. Write daily, weekdays, weekly, monthly, yearly, 3d, 2w or 6mo.";

const NO_OPTION: &str = " is no option of this word. Write -- before a text that begins so.";

const NO_ATTRIBUTE: &str =
    " is no attribute. Write due:, wait:, scheduled:, until:, pri:, project:, for:, rec:, depends: or tags:, or -- before words that stay as they are.";

const NO_FILTER: &str =
    " is no filter. Write +PROJECT, @TAG, for:NAME, pri:H, status:WORD, due:DAY or due:before:DAY, not: or - before one, or -- before a text.";

const NO_SECONDS: &str = " is no number of seconds from 1 to 86400.";

const NO_PLACE: &str = " Where it is part of the text, write -- before it.";

const ONE_TEXT: &str =
    "A new description is for one task. Before one that begins with a number, write --: change 3 -- 4 eggs.";

const ALREADY: &str = " already, so nothing is left to do.";

const UNCHANGED: &str = "Nothing is to be changed: these dependencies are there already.";

const NO_PRIORITY: &str = " is no priority. Write pri:H, pri:M or pri:L, or pri: for none.";

const BAD_LINE: &str =
    " is no line of the settings. Write server = .., name = .., board = .. or key-file = .., or begin it with #.";

const NO_ARGUMENTS: &str = "This word takes nothing after it. `tb --help` says what each takes.";

const LIST_WORDS: &str =
    "After `list` belong +PROJECT, @TAG, for:NAME, mine, due:today, due:week, overdue, blocked, waiting, done:week or a text, --sort urgency, due or project, and --json.";

const COPY: &str =
    "A task belongs after `copy`, and what is to be another in the copy: copy 3 due:friday.";

const MORE_TEXT: &str =
    "A task and the words that are added belong after this word: append 3 and eggs.";

const ONE_BOARD: &str = "One board belongs after `use`: its number or its title.";

const ONE_FILE: &str =
    "One file belongs after `import`, or - for standard input: JSON, or lines of todo.txt. --check, --clean or --skip may follow it.";

const NO_BOARD_HERE: &str = " is no board of yours. `tb boards` lists them.";

const TWO_BOARDS: &str =
    " is the title of more than one of your boards: take its number, which `tb boards` lists.";

const ONE_TASK: &str = "One task belongs after `show`: its number in the list, or its uuid.";

const BOARD_OR_TASK: &str =
    "Nothing belongs after `log`, or one task: its number in the list, or its uuid.";

const TASKS: &str =
    "Tasks belong after this word, one or more: their numbers in the list, as 3, 3-8 or 3,5, or uuids.";

const TASK_AND_TEXT: &str =
    "A task and the words of a note belong after this word: note 3 call after six.";

const TWO_TASKS: &str = "Two tasks belong after this word: needs 3 5 says that 3 waits for 5.";

const NEW_TASK: &str =
    "What is to be done belongs after `add`: add Buy milk due:friday +Home @shop.";

const CHANGES: &str =
    "A task and what changes belong after `change`: change 3 due:friday pri:H +Home @shop -@phone New words.";

const NO_CONFIG: &str =
    "~/.config/taskboard/config can't be read, or others may read or write it: chmod 600 ~/.config/taskboard/config.";

const NO_SERVER: &str =
    "Which server? Write a line as `server = 127.0.0.1:8080` into ~/.config/taskboard/config, or set TASKBOARD_SERVER.";

const NO_NAME: &str =
    "Who are you? Write a line as `name = ann` into ~/.config/taskboard/config, or set TASKBOARD_NAME.";

const NO_BOARD: &str =
    "Which board? `tb boards` lists yours, and `tb use 1` writes board 1 into ~/.config/taskboard/config. Or set TASKBOARD_BOARD.";

const NO_KEY_FILE: &str =
    "The file of the key can't be read, has no key, or others may read it (chmod 600). Correct the line `key-file = ..` of ~/.config/taskboard/config, or TASKBOARD_KEY_FILE.";

const BAD_SERVER: &str =
    "The server has another form than ADDRESS:PORT, as 127.0.0.1:8080, without http://. Correct the line `server = ..` of ~/.config/taskboard/config, or TASKBOARD_SERVER.";

const BAD_NAME: &str =
    "A name has 1 to 32 bytes of a to z, 0 to 9, _ and -. Correct the line `name = ..` of ~/.config/taskboard/config, or TASKBOARD_NAME.";

const BAD_BOARD: &str =
    "A board is named by its number or its title. `tb boards` lists yours. Correct the line `board = ..` of ~/.config/taskboard/config, or TASKBOARD_BOARD.";

const UNKNOWN_CALLER: &str =
    "The server knows nobody of this name and key. Look at the name in ~/.config/taskboard/config, and at the key.";

const NO_ROLE: &str = "You have no role on this board, or it isn't there. `tb boards` lists yours.";

const NOT_ALLOWED: &str = "Your role doesn't allow it. Ask an owner of the board.";

const NO_SUCH_TASK: &str = "There is no such task on this board. Look at the list again.";

const WRONG_STATUS: &str =
    "The task's status doesn't allow it: perhaps someone completed, deleted or reopened it.";

const BAD_TASK: &str =
    "The board doesn't take such a task: a description or a tag is empty or too long, or what was set doesn't go together.";

const FIXED: &str =
    "The due date and the step of a repeating task stay. Delete it, and add a new one.";

const NO_LINK: &str = "That note or dependency isn't there, so nothing is left to do.";

const CYCLE: &str =
    "The tasks would wait for each other in a circle. Remove another dependency first.";

const FULL: &str = "The board is full: it has 10,000 tasks.";

/// What is told of an accepted call: a verb, and the task's description.
pub(crate) fn told_task(alloc: Global, verb: &str, description: &str) -> Result<Text, AllocError>
    ensures { IfOk result (λ told. told ≡ told_task verb.now description.now) }
{
    let mut told = String::from_str(alloc, verb)?;
    push_shown(&mut told, description)?;
    Ok(Text::from_string(told))
}

/// The same of two tasks, with the verb between them.
pub(crate) fn told_link(
    alloc: Global,
    first: &str,
    verb: &str,
    second: &str,
) -> Result<Text, AllocError>
    ensures { IfOk result (λ told. told ≡ told_link first.now verb.now second.now) }
{
    let mut told = String::new(alloc);
    push_shown(&mut told, first)?;
    told.push_str(verb)?;
    push_shown(&mut told, second)?;
    Ok(Text::from_string(told))
}

/// Puts a text at the end, with a space for each control character, which a terminal might obey.
#[tactic(auto, unfolding(crate::specs::Telling::shown_text))]
pub fn push_shown(told: &mut String, text: &str) -> Result<(), AllocError>
    ensures { OnOk result (string_bytes told.new ≡ string_bytes told.old ++ shown_text text.now) }
{
    for character in text.chars() {
        told.push(shown_char(character))?;
    }
    Ok(())
}

fn shown_char(character: char) -> char
    ensures { result ≡ shown_char character }
{
    if character < ' ' || ('\u{7f}' <= character && character <= '\u{9f}') {
        ' '
    } else {
        character
    }
}

/// What is told of words that ask for nothing, of a board with so many tasks.
pub fn fault_text(
    alloc: Global,
    board: &str,
    count: usize,
    fault: &MyFault,
) -> Result<Text, AllocError>
    ensures { IfOk result (λ text. text ≡ fault_text board.now count fault.now) }
{
    match fault {
        MyFault::Memory => Text::from_str(alloc, NO_MEMORY),
        MyFault::NoWord(word) => quoted_text(alloc, word.as_str(), NO_WORD),
        MyFault::NoForm(word) => Text::from_str(alloc, form_text(*word)),
        MyFault::NoDay(word) => quoted_text(alloc, word.as_str(), NO_DAY),
        MyFault::NoPriority(word) => quoted_text(alloc, word.as_str(), NO_PRIORITY),
        MyFault::NoStep(word) => quoted_text(alloc, word.as_str(), NO_STEP),
        MyFault::NoOption(word) => quoted_text(alloc, word.as_str(), NO_OPTION),
        MyFault::NoAttribute(word) => quoted_text(alloc, word.as_str(), NO_ATTRIBUTE),
        MyFault::NoFilter(word) => quoted_text(alloc, word.as_str(), NO_FILTER),
        MyFault::NoSeconds(word) => quoted_text(alloc, word.as_str(), NO_SECONDS),
        MyFault::NoTask(word) => no_task_text(alloc, word.as_str(), board, count, ""),
        MyFault::NoPlace(word) => no_task_text(alloc, word.as_str(), board, count, NO_PLACE),
        MyFault::OneTask => Text::from_str(alloc, ONE_TEXT),
        MyFault::Linked(told) => joined_text(alloc, told.as_str(), ALREADY),
        MyFault::Unchanged => Text::from_str(alloc, UNCHANGED),
        MyFault::NoBoard(name) => quoted_text(alloc, name.as_str(), NO_BOARD_HERE),
        MyFault::TwoBoards(name) => quoted_text(alloc, name.as_str(), TWO_BOARDS),
        MyFault::BadLine(line) => quoted_text(alloc, line.as_str(), BAD_LINE),
        MyFault::Lacks(name) => Text::from_str(alloc, lacking_text(*name)),
        MyFault::Unfit(name) => Text::from_str(alloc, unfit_text(*name)),
    }
}

fn joined_text(alloc: Global, text: &str, more: &str) -> Result<Text, AllocError>
    ensures { IfOk result (λ joined. joined ≡ text.now ++ more.now) }
{
    let mut joined = Text::from_str(alloc, text)?;
    joined.push_str(more)?;
    Ok(joined)
}

/// A word between quotes, and what is wrong of it.
fn quoted_text(alloc: Global, word: &str, wrong: &str) -> Result<Text, AllocError>
    ensures { IfOk result (λ text. text ≡ quoted_text word.now wrong.now) }
{
    let mut text = String::from_str(alloc, "\"")?;
    push_shown(&mut text, word)?;
    text.push_str("\"")?;
    text.push_str(wrong)?;
    Ok(Text::from_string(text))
}

fn no_task_text(
    alloc: Global,
    word: &str,
    board: &str,
    count: usize,
    more: &str,
) -> Result<Text, AllocError>
    ensures { IfOk result (λ text. text ≡ no_task_text word.now board.now count more.now) }
{
    let mut text = String::from_str(alloc, "There is no task ")?;
    push_shown(&mut text, word)?;
    write!(text, " on board {board} ({count} tasks).{more}")?;
    Ok(Text::from_string(text))
}

/// What is told of an added task by its number, where that is known.
pub fn added_text(alloc: Global, told: &str, number: Option<usize>) -> Result<Text, AllocError>
    ensures { IfOk result (λ text. text ≡ added_text told.now number) }
{
    let Some(number) = number else {
        return Text::from_str(alloc, told);
    };
    match after_key(told, "Added") {
        Some(rest) => Ok(Text::from_string(format!(in alloc; "Added {number}{rest}")?)),
        None => Text::from_str(alloc, told),
    }
}

/// The place of a task among others, from 1.
pub fn number_of_task(tasks: &[Seen], id: TaskId) -> Option<usize>
    ensures { result ≡ number_of_task 0 id tasks.now }
{
    for (index, task) in tasks.iter().enumerate() {
        if task.id == id {
            return Some(index + 1);
        }
    }
    None
}

/// What belongs behind a word.
fn form_text(word: MyWord) -> &'static str
    ensures { result.now ≡ form_text word }
{
    match word {
        MyWord::List | MyWord::Next | MyWord::Projects | MyWord::Tags => LIST_WORDS,
        MyWord::Boards
        | MyWord::People
        | MyWord::Export
        | MyWord::Todo
        | MyWord::Undo
        | MyWord::Setup => NO_ARGUMENTS,
        MyWord::Use => ONE_BOARD,
        MyWord::Import => ONE_FILE,
        MyWord::Show => ONE_TASK,
        MyWord::Log => BOARD_OR_TASK,
        MyWord::Add => NEW_TASK,
        MyWord::Change => CHANGES,
        MyWord::Append | MyWord::Prepend => MORE_TEXT,
        MyWord::Copy => COPY,
        MyWord::Done | MyWord::Delete | MyWord::Reopen | MyWord::Start | MyWord::Stop => TASKS,
        MyWord::Note | MyWord::Unnote => TASK_AND_TEXT,
        MyWord::Needs | MyWord::Free => TWO_TASKS,
    }
}

/// What is to be written where a setting is missing.
fn lacking_text(name: SettingName) -> &'static str
    ensures { result.now ≡ lacking_text name }
{
    match name {
        SettingName::Config => NO_CONFIG,
        SettingName::Server => NO_SERVER,
        SettingName::Name => NO_NAME,
        SettingName::Board => NO_BOARD,
        SettingName::KeyFile => NO_KEY_FILE,
    }
}

/// What is to be mended where a setting has another form.
fn unfit_text(name: SettingName) -> &'static str
    ensures { result.now ≡ unfit_text name }
{
    match name {
        SettingName::Config => NO_CONFIG,
        SettingName::Server => BAD_SERVER,
        SettingName::Name => BAD_NAME,
        SettingName::Board => BAD_BOARD,
        SettingName::KeyFile => NO_KEY_FILE,
    }
}

/// What is told of a refusal, by its name, or else the body as it is.
pub fn refusal_text(alloc: Global, body: &str) -> Result<Text, AllocError>
    ensures { IfOk result (λ text. text ≡ refusal_text body.now) }
{
    match said_refusal(alloc, body)? {
        Some(text) => Text::from_str(alloc, text),
        None => Text::from_str(alloc, body),
    }
}

fn said_refusal(alloc: Global, body: &str) -> Result<Option<&'static str>, AllocError>
    ensures { IfOk result
        (λ found. option_map (λ text. text.now) found ≡ said_refusal body.now) }
{
    let Some(value) = parse(alloc, body)? else {
        return Ok(None);
    };
    match value.get("name").and_then(Value::as_str) {
        Some(name) => Ok(named_refusal(name)),
        None => Ok(None),
    }
}

#[tactic(auto, unfolding(crate::specs::Telling::named_refusal))]
fn named_refusal(name: &str) -> Option<&'static str>
    ensures { option_map (λ text. text.now) result ≡ named_refusal name.now }
{
    match name {
        "UnknownCaller" => Some(UNKNOWN_CALLER),
        "NoBoard" => Some(NO_ROLE),
        "NotAllowed" => Some(NOT_ALLOWED),
        "NoTask" => Some(NO_SUCH_TASK),
        "WrongStatus" => Some(WRONG_STATUS),
        "BadTask" => Some(BAD_TASK),
        "TemplateFixed" => Some(FIXED),
        "NoLink" => Some(NO_LINK),
        "Cycle" => Some(CYCLE),
        "Full" => Some(FULL),
        _ => None,
    }
}
