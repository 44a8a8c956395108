//! What the program tells of itself and of its orders.
ghost use Rattle.std.specs.Prelude.{◌≡◌};
ghost use Rattle.tb_command_line.specs.Help.{help_text};

use crate::order::Topic;

const PROGRAM: &str = "\
taskboard keeps boards of tasks that a team shares, in one file.

    taskboard init FILE NAME KEY
    taskboard serve FILE --port P [--connections N or --forever] [--page FOLDER] [--log]
                    [--growth KIB] [--burst MIB]
    taskboard send [--id UUID] [--for SECONDS] ADDRESS:PORT MEMBER KEY WORD ARGUMENTS..
    taskboard my [WORD ARGUMENTS..]
    taskboard import FILE MEMBER KEY ID BOARD json|todo [--all] [--check|--clean|--skip]
    taskboard list|export|todo FILE MEMBER KEY BOARD
    taskboard check FILE
    taskboard key FILE NAME [-]
    taskboard run

`taskboard ORDER --help` tells more of one, and `taskboard --version` which program this is.
The status is 0 where an order was accepted, 1 where it was refused or failed, and 2 where the
words are no order. A fault is told on standard error: its name, and what to do.
";

const INIT: &str = "\
taskboard init FILE NAME KEY

Makes the tables of a new file, which you alone may read. Its first person is NAME, who is known
by KEY, owns board 1 and alone may add people.

    FILE   a name that no file has yet
    NAME   1 to 32 bytes of a to z, 0 to 9, _ and -
    KEY    8 to 64 visible ASCII characters. Other users of this machine can see a key that stands
           here: `taskboard send --help` says where one is read that is given as -
";

const SERVE: &str = "\
taskboard serve FILE --port P [--connections N or --forever] [--page FOLDER] [--log]
                [--growth KIB] [--burst MIB]

Answers HTTP on the loopback, up to 512 clients at once.

    --port P          from 1 to 65535; those below 1,024 are the system's
    --connections N   ends once so many connections have ended, from 1 to 1,000,000; 1,000 where
                      neither this nor --forever is given
    --forever         serves without end
    --page FOLDER     answers the files of a folder beside the boards
    --log             writes a line for each message on standard error
    --growth KIB      how much each person's calls may add to the file in a second, and each
                      board's sweeps, from 0 to 1,048,576; 4 where it isn't given, 0 for no bound
    --burst MIB       how much of it at once, from 1 to 1,048,576; 256 where it isn't given
";

const RUN: &str = "\
taskboard run

Answers the lines of standard input over boards in memory. The fields of a line are separated by
tabs: MOMENT MEMBER KEY ID WORD ARGUMENTS..
";

const IMPORT: &str = "\
taskboard import FILE MEMBER KEY ID BOARD KIND [--all] [--check | --clean | --skip]

Imports standard input into a board of a file that isn't served, and prints the reply's body.
Sent again under the same ID it acts once.

    MEMBER, KEY   who imports; a KEY that is - is read as `taskboard send --help` says
    ID            a uuid, as 00000000-0000-4000-8000-000000000001
    BOARD         the number of a board, from 1
    KIND          json, as `task export` prints it, or todo, for lines of todo.txt; up to 1,048,576
                  bytes and 1,000 tasks
    --all         takes a text of any length in parts of up to 1,000 tasks and 1,048,576 bytes, each
                  under an identifier that is made of ID and its number. A reply is printed for each
                  part, up to the first that isn't accepted; the whole may be sent again under the
                  same ID
    --check       imports nothing: names each task that can't be taken and why, and each member,
                  link and instance that will be dropped; the status is 0 where all can be taken
    --clean       makes numbers as 2.000000 whole, respells steps as 2wks, and brings each task
                  after those that it waits for; where a task can't be taken, imports nothing
    --skip        the same, but leaves out tasks that can't be taken, and imports the rest. One of
                  the three stands last, and is for json alone; what they do is told
";

const VIEW: &str = "\
taskboard list FILE MEMBER KEY BOARD      the open tasks, the most urgent first
taskboard export FILE MEMBER KEY BOARD    all tasks, as a JSON list
taskboard todo FILE MEMBER KEY BOARD      lines of todo.txt

Prints a board of a file that isn't served. Where it is, ask the server: `taskboard send --help`.

    MEMBER, KEY   who asks; a KEY that is - is read as `taskboard send --help` says
    BOARD         the number of a board, from 1
";

const CHECK: &str = "\
taskboard check FILE

Looks at all that is stored in a file that isn't served, compares it with what its tasks say, and
prints `boards B tasks T faults F`. The status is 1 where F isn't 0.
";

const KEY: &str = "\
taskboard key FILE NAME [-]

Gives NAME a new key in a file that isn't served. The key of before is no longer taken. Whoever may
write the file can do it, so a lost key is never the end, the first person's neither.

    NAME   somebody who is there already
    -      reads the new key from the first line of standard input, and prints the reply's body;
           else a key is made, and printed once
";

const SEND: &str = "\
taskboard send [--id UUID] [--for SECONDS] ADDRESS:PORT MEMBER KEY WORD ARGUMENTS..

Sends a call or a view to a server, again and again under one identifier until it is answered, and
prints the answer's body. However often it is sent, a call acts once.

    --id UUID       the identifier of the call, to go on with one that got no answer; else a new one
    --for SECONDS   how long it is sent again, from 1 to 86,400; 60 where it isn't given
    ADDRESS:PORT    the server, as 127.0.0.1:8080
    MEMBER, KEY     who sends it. Other users of this machine can see a key that stands here: with -
                    it is read from the environment TASKBOARD_KEY, or else from the file
                    ~/.config/taskboard/key, which you alone may read (mode 0600)
    WORD            list B, export B, todo B, people B, me, task B TASK, history B, history B N,
                    history-of B TASK, add B JSON, add B WORDS .., modify B TASK JSON, done,
                    delete, reopen, start, stop, each B TASK, annotate, denotate, each B TASK
                    TEXT, depend, undepend, each B TASK TASK, sweep B, import B JSON,
                    import-todo B LINE .., person NAME KEY, board TITLE, role B NAME
                    owner|member|reader|none, ahead B N (1 to 12), title B TITLE, take B,
                    key NAME KEY|none, own-key OLD NEW; own-key alone, with - and a key in the
                    file, makes the new key
    TASK            a uuid, or the place of a task on the board as it is exported, from 1: the
                    server is first asked which task that is, and it is told on standard error
    WORDS           a line of todo.txt, as Buy milk due:2026-03-01 +Home @phone

The status is 0 where it was accepted, and 1 where it was refused or no answer came.
";

const MY: &str = "\
taskboard my [--board B] [--for SECONDS] [WORD ARGUMENTS..]

Asks a server in words for every day; contrib/install.sh installs it as tb. Without words, the list
of the board. One look at the board serves all numbers of a command. `tb WORD --help` says more.

    list FILTER..            the open tasks that pass each filter, with their numbers
    next, projects, tags     the tasks that wait for nothing; the projects or tags of open tasks
    boards, people           your boards; who is on the board
    add WORDS                a task: Buy milk due:friday pri:H +Home @shop for:bob
    change N.. WORDS         sets what is named, as add does; due: or for: alone removes it, @tag
                             adds a tag and -@tag takes one, other words are the description
    append N.. WORDS, prepend N.. WORDS, copy N WORDS
    done N.., delete N.., reopen N.., start N.., stop N..
    note N.. TEXT, unnote N.. TEXT, needs N M, free N M, show N
    log, log N               who did what on the board, or on one task
    undo                     takes back the last command, then the one before it
    use B                    makes B the board of the settings
    import FILE              JSON or lines of todo.txt, of any length; - is standard input. After
                             it --check tells what can't be taken, --clean respells what another
                             tool exported, and --skip also leaves out what can't be taken
    export, todo             all tasks as JSON; as lines of todo.txt
    setup                    asks for server, name, board and key, and writes them

    N, M    the number of a task in the list, 3-8 or 3,5 for several, or its uuid
    B       the number or the title of a board
    WORDS   due:DAY, wait:DAY, scheduled:DAY, until:DAY, pri:H, M or L, +PROJECT or
            project:PROJECT, @TAG or tags:A,B, for:NAME or for:me, rec:STEP, depends:N,M; after
            -- all words are text
    DAY     today, tomorrow, yesterday, now, a weekday as friday or fri, 3d, 2w, 1mo, eow, eom,
            2026-12-01, 12-24, 24.12., or a time on one, as 2026-12-01T14:00 or fri14:00, in the
            zone of TZ or of this machine
    FILTER  +PROJECT, @TAG, for:NAME, mine, pri:H, due:today, due:week, due:DAY, due:before:DAY,
            due:after:DAY, overdue, blocked, waiting, a text of the description or a note; done,
            done:DAY, recurring, all or status:WORD in place of the open tasks; not: or - before
            one; --sort urgency, due or project; --json
    --for   how long a call is tried, 60 seconds where it isn't given

Who asks which server stands in ~/.config/taskboard/config, in lines such as

    server = 127.0.0.1:8080
    name = ann
    board = 1
    key-file = /home/ann/.config/taskboard/key

The environment TASKBOARD_SERVER, TASKBOARD_NAME, TASKBOARD_BOARD and TASKBOARD_KEY_FILE goes
before. Without a file the key is read as `taskboard send --help` says. On a terminal, lines are
cut to its COLUMNS, and NO_COLOR leaves out bold and colours.

The status is 0 where all was accepted, 1 where something was refused or no answer came, and 2
where the words or the settings are wrong.
";

impl Topic {
    /// What it is told as.
    pub fn text(self) -> &'static str
        ensures { result.now ≡ help_text self }
    {
        match self {
            Topic::Program => PROGRAM,
            Topic::Init => INIT,
            Topic::Serve => SERVE,
            Topic::Run => RUN,
            Topic::Import => IMPORT,
            Topic::Export | Topic::List | Topic::Todo => VIEW,
            Topic::Check => CHECK,
            Topic::Key => KEY,
            Topic::Send => SEND,
            Topic::My => MY,
        }
    }
}
