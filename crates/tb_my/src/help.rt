//! What each word of `my` takes, as `--help` after it shows.
ghost use Rattle.std.specs.Prelude.{◌≡◌};
ghost use Rattle.tb_my.specs.Help.{help_text};

use crate::word::MyWord;

/// All words, in short.
pub(crate) const HELP: &str = "\
list, next, projects, tags, boards, people, add, change, append, prepend, copy, done, delete,
reopen, start, stop, note, unnote, needs, free, show, log, undo, use, import, export, todo, setup

`tb WORD --help` says what a word takes, and `tb --help` all of it. N is the number of a task in the
list, a range as 3-8, several as 3,5, or a uuid.
";

const LIST: &str = "\
tb list FILTER.. [--sort ORDER] [--json]
The open tasks that pass each filter, with their numbers: +PROJECT, @TAG, for:NAME, mine, pri:H,
project:NAME, due:today, due:week, due:DAY, due:before:DAY, due:after:DAY, overdue, blocked,
waiting, or a text. In place of the open tasks: done, done:DAY, done:week, recurring, all,
status:WORD. `not:` before a filter, and -+PROJECT and -@TAG, leave out what passes it. After --
come texts. ORDER is urgency, due or project.
";

const NEXT: &str = "\
tb next FILTER.. [--sort ORDER] [--json]
The open tasks that wait for nothing, the most urgent first. Filters are those of `list`.
";

const PROJECTS: &str = "\
tb projects FILTER..
The projects of the open tasks, each with the number of its tasks. Filters are those of `list`.
";

const TAGS: &str = "\
tb tags FILTER..
The tags of the open tasks, each with the number of its tasks. Filters are those of `list`.
";

const BOARDS: &str = "\
tb boards [--json]
Your boards: number, role and title.
";

const PEOPLE: &str = "\
tb people [--json]
Who is on the board, each with a role.
";

const EXPORT: &str = "\
tb export
All tasks of the board as JSON.
";

const TODO: &str = "\
tb todo
The tasks of the board as lines of todo.txt.
";

const USE: &str = "\
tb use BOARD
Makes a board, by its number or title, the board of the settings.
";

const UNDO: &str = "\
tb undo
Takes back the last command of this machine, and then the one before it, up to fifty. An import
can't be taken back. Values come back, and not the moments of a start, a note or a completion.
";

const SETUP: &str = "\
tb setup
Asks for server, name, board and key, and writes them into ~/.config/taskboard.
";

const IMPORT: &str = "\
tb import FILE [--check | --clean | --skip]
JSON, or lines of todo.txt; - is standard input. --check tells what can't be taken, --clean
respells what another tool exported, and --skip also leaves out what can't be taken.
";

const SHOW: &str = "\
tb show N [--json]
All of a task.
";

const LOG: &str = "\
tb log [N] [--json]
Who did what on the board, or on one task.
";

const ADD: &str = "\
tb add WORDS [--json]
A new task: tb add Buy milk due:friday pri:H +Home @shop for:bob. Words are due:, wait:,
scheduled: and until: with a day, pri:H, M or L, +PROJECT, @TAG or tags:A,B, for:NAME or for:me,
rec:STEP and depends:N,M; a mark as (A) may stand first. After -- words are the description.
";

const CHANGE: &str = "\
tb change N.. WORDS
Sets what is named in each task, as `add` does. due: or for: alone removes it, @TAG adds a tag and
-@TAG takes one. Other words are the new description, of one task alone; after -- all words are.
";

const APPEND: &str = "\
tb append N.. WORDS
Puts words after the description, and sets what is named, as `change` does.
";

const PREPEND: &str = "\
tb prepend N.. WORDS
Puts words before the description, and sets what is named, as `change` does.
";

const COPY: &str = "\
tb copy N WORDS [--json]
Adds a task with what task N has, and with what the words say instead.
";

const DONE: &str = "\
tb done N..
Completes tasks.
";

const DELETE: &str = "\
tb delete N..
Deletes tasks.
";

const REOPEN: &str = "\
tb reopen N..
Opens completed or deleted tasks again.
";

const START: &str = "\
tb start N..
Work on tasks begins.
";

const STOP: &str = "\
tb stop N..
Work on tasks ends.
";

const NOTE: &str = "\
tb note N.. TEXT
Adds a note to tasks: tb note 3 call after six. Write -- before a text that begins with a number.
";

const UNNOTE: &str = "\
tb unnote N.. TEXT
Removes the first note with this text.
";

const NEEDS: &str = "\
tb needs N M
Task N depends on task M.
";

const FREE: &str = "\
tb free N M
Task N no longer depends on task M.
";

/// What a word takes.
pub(crate) fn help_text(word: MyWord) -> &'static str
    ensures { result.now ≡ help_text word }
{
    match word {
        MyWord::List => LIST,
        MyWord::Next => NEXT,
        MyWord::Projects => PROJECTS,
        MyWord::Tags => TAGS,
        MyWord::Boards => BOARDS,
        MyWord::People => PEOPLE,
        MyWord::Export => EXPORT,
        MyWord::Todo => TODO,
        MyWord::Use => USE,
        MyWord::Undo => UNDO,
        MyWord::Setup => SETUP,
        MyWord::Import => IMPORT,
        MyWord::Show => SHOW,
        MyWord::Log => LOG,
        MyWord::Add => ADD,
        MyWord::Change => CHANGE,
        MyWord::Append => APPEND,
        MyWord::Prepend => PREPEND,
        MyWord::Copy => COPY,
        MyWord::Done => DONE,
        MyWord::Delete => DELETE,
        MyWord::Reopen => REOPEN,
        MyWord::Start => START,
        MyWord::Stop => STOP,
        MyWord::Note => NOTE,
        MyWord::Unnote => UNNOTE,
        MyWord::Needs => NEEDS,
        MyWord::Free => FREE,
    }
}
