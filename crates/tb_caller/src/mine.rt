//! The order that asks a server in the words of `my`: the settings are read, and `tb_mine` asks for what the words say, over
//! `send_order`. Words that read or write files besides are in `my_deeds.rt`.
ghost use Rattle.std.specs.Prelude.{◌≡◌, IfErr, IfOk, IfSome, List, Some, option_copied, refl, true};
ghost use Rattle.tb_caller.specs.Asking.{IsAskedBy, asked_joined};
ghost use Rattle.tb_caller.specs.Ending.{ending_if};
ghost use Rattle.tb_caller.specs.Mine.{ComesTo, IsDoneOfBoard, IsMine, argument_of, checked_path, is_alone, named_board};
ghost use Rattle.tb_caller.specs.Faults.{is_of_mine};
ghost use Rattle.tb_mine.specs.Asked.{Asked};

use crate::my_cleaning::check_file;
use crate::my_deeds::{import_file, keep_undo, set_up, undo, use_board};
use crate::my_settings::{key_of, read_asker};
use crate::my_terminal::{clock_at, style_of};
use std::io::{Read, Write};
use tb_board::Key;
use tb_client::Line;
use tb_command_line::{MyOrder, SendOrder};
use tb_mine::{Answer, Asks, Context, ask_on_board, ask_words, wrong};
use tb_my::{
    Asker, ImportMode, MyFault, Sent, board_given, help_asked, import_of, looks, needed_board,
    seconds_given, words_after_options,
};
use tb_orders::{Chance, Ending, MachineChance};
use tb_program::{Fault, machine_moment, print_text};
use tb_sending::{Dial, MachineDial, ServerLine, name_call, new_id, send_order};
use tb_task::TaskId;
use tb_values::{Duplicate, Items, Text};

/// Whom to ask, for how long, under which key if not that which `send` reads, what takes back the calls that were accepted, beside
/// those of commands before, and of what the identifiers of calls are made.
#[derive(Drop)]
pub(crate) struct Caller<'a, G> {
    rt: &'a HostRuntime,
    pub(crate) asker: Asker,
    key: Option<Key>,
    seconds: u32,
    kept: Text,
    before: Text,
    chance: G,
}

impl<G: Chance> Asks for Caller<'_, G> {
    ghost follows = { λ asked old new.
        IsAskedBy ⟦<ServerLine<MachineDial<'static>> as Line>⟧.follows G.gives asked old new };

    ghost unchanged = { λ caller. (refl, refl, refl) };

    ghost joined = { λ first more a b c.
        asked_joined
        ⟦<ServerLine<MachineDial<'static>> as Line>⟧.follows G.gives first more a b c };

    fn ask(&mut self, words: Items<Text>, call: Option<TaskId>) -> Result<Answer, Fault> {
        let mut order = SendOrder {
            server: self.asker.server.duplicate()?,
            member: self.asker.name.duplicate()?,
            key: twin(&self.key)?,
            id: call,
            seconds: self.seconds,
            words,
        };
        name_call(&mut self.chance, &mut order);
        let mut body = Vec::new(self.rt.alloc());
        let dial = MachineDial::new(self.rt);
        match send_order(self.rt, &mut order, dial, &mut self.chance, &mut body) {
            Ok(ending) => Ok(Answer {
                is_accepted: is_accepted(ending),
                body: Items::from_vec(body),
            }),
            Err(fault) => Err(fault),
        }
    }

    fn keep(&mut self, sent: &Sent) -> Result<(), Fault> {
        keep_undo(self.rt, &self.asker, sent, &mut self.kept, &mut self.before)
    }
}

/// Asks for what the words say, in their order, and tells what came of it. Words and settings that are wrong are told here, and are
/// `Bad`.
pub fn ask_mine<R: Read + Drop, W: Write>(
    rt: &HostRuntime,
    order: &MyOrder,
    reader: R,
    writer: &mut W,
) -> Result<Ending, Fault>
    ensures done { IfOk result (IsMine ⟦<ServerLine<MachineDial<'static>> as Line>⟧.follows
        ⟦<MachineChance<'static> as Chance>⟧.gives
        order.now.words (R.remaining reader) (W.contents writer.old) (W.contents writer.new)) }
    ensures fault { IfErr result (λ fault. is_of_mine fault ≡ true) }
{
    let words = words_after_options(order.words.as_slice());
    if let Some(text) = help_asked(words) {
        print_text(writer, text)?;
        return Ok(Ending::Accepted);
    }
    if is_alone(words, "setup") {
        return set_up(rt, reader, writer);
    }
    if let Some(path) = checked_path(words) {
        return check_file(rt, path.as_str(), reader, writer);
    }
    let mut caller = match read_caller(rt, order.words.as_slice()) {
        Ok(caller) => caller,
        Err(fault) => return Err(unfit(rt, &fault)),
    };
    if is_silent(rt, &caller, words) {
        return Err(Fault::NoAnswer);
    }
    let is_accepted = ask_as(rt, &mut caller, words, reader, writer)?;
    Ok(ending_if(is_accepted))
}

/// Asks for what the words say, and says whether it was accepted.
fn ask_as<G: Chance, R: Read + Drop, W: Write>(
    rt: &HostRuntime,
    caller: &mut Caller<'_, G>,
    words: &[Text],
    reader: R,
    writer: &mut W,
) -> Result<bool, Fault>
    ensures asked { IfOk result (λ is_accepted. (asked : List Asked)
        × IsAskedBy ⟦<ServerLine<MachineDial<'static>> as Line>⟧.follows G.gives
        asked caller.old caller.new
        × ComesTo words.now (R.remaining reader) (W.contents writer.old) (W.contents writer.new)
        caller.old.asker asked is_accepted) }
    ensures fault { IfErr result (λ fault. is_of_mine fault ≡ true) }
{
    if let Some(board) = argument_of(words, "use") {
        return use_board(rt, caller, board, writer);
    }
    if let Some((path, mode)) = import_of(words) {
        return import_file(rt, caller, path.as_str(), mode, reader, writer);
    }
    if is_alone(words, "undo") {
        return undo(rt, caller, writer);
    }
    ask_of_board(rt, caller, words, writer)
}

/// Asks for what words say of a board.
fn ask_of_board<G: Chance, W: Write>(
    rt: &HostRuntime,
    caller: &mut Caller<'_, G>,
    words: &[Text],
    writer: &mut W,
) -> Result<bool, Fault>
    ensures asked { IfOk result (λ is_accepted. (asked : List Asked)
        × IsAskedBy ⟦<ServerLine<MachineDial<'static>> as Line>⟧.follows G.gives
        asked caller.old caller.new
        × IsDoneOfBoard words.now (W.contents writer.old) (W.contents writer.new)
        caller.old.asker asked is_accepted) }
    ensures fault { IfErr result (λ fault. is_of_mine fault ≡ true) }
{
    let errors = &mut rt.stderr();
    if is_alone(words, "boards") {
        let context = context_of(rt, &caller.asker, Text::new(rt.alloc()))?;
        return ask_words(rt.alloc(), caller, &context, words, writer, errors);
    }
    let board = board_of(rt, &caller.asker)?;
    let context = context_of(rt, &caller.asker, board)?;
    ask_on_board(rt.alloc(), caller, context, words, writer, errors)
}

/// What words mean, by the clock, the zone and the terminal of the machine.
fn context_of(rt: &HostRuntime, asker: &Asker, board: Text) -> Result<Context, Fault>
    ensures me { IfOk result (λ context. context.me ≡ asker.now.name) }
    ensures board { IfOk result (λ context. context.board ≡ board) }
    ensures fault { IfErr result (λ fault. is_of_mine fault ≡ true) }
{
    let Some(now) = machine_moment(rt) else {
        return Err(Fault::NoClock);
    };
    Ok(Context {
        clock: clock_at(rt, now)?,
        style: style_of(rt),
        me: Text::from_str(rt.alloc(), asker.name.as_str())?,
        board,
        call: new_id(&mut MachineChance::new(rt)),
    })
}

/// The board that is named, by its number or its title.
pub(crate) fn board_of(rt: &HostRuntime, asker: &Asker) -> Result<Text, Fault>
    ensures board { IfOk result (λ board. asker.now.board ≡ Some board) }
    ensures fault { IfErr result (λ fault. is_of_mine fault ≡ true) }
{
    match needed_board(asker) {
        Ok(board) => Ok(board),
        Err(fault) => Err(unfit(rt, &fault)),
    }
}

/// Tells what is wrong of settings, so that nothing is asked.
pub(crate) fn unfit(rt: &HostRuntime, fault: &MyFault) -> Fault
    ensures { is_of_mine result ≡ true }
{
    match wrong(rt.alloc(), "", 0, fault, &mut rt.stderr()) {
        Ok(()) => Fault::Bad,
        Err(fault) => fault,
    }
}

pub(crate) fn ending_if(is_accepted: bool) -> Ending
    ensures { result ≡ ending_if is_accepted }
{
    if is_accepted {
        Ending::Accepted
    } else {
        Ending::Refused
    }
}

fn is_accepted(ending: Ending) -> bool
    ensures { ending ≡ ending_if result }
{
    match ending {
        Ending::Accepted => true,
        Ending::Refused => false,
    }
}

/// Whether nobody answers where words begin with a view. That is told, and where they begin with a call, that it waits.
fn is_silent<G>(rt: &HostRuntime, caller: &Caller<'_, G>, words: &[Text]) -> bool {
    let server = caller.asker.server.as_str();
    let seconds = caller.seconds;
    if MachineDial::new(rt).open(server, u64::from(seconds)) {
        return false;
    }
    let errors = &mut rt.stderr();
    if begins_with_call(words) {
        let _ = writeln!(errors, "{server} doesn't answer; trying for {seconds} s.");
        return false;
    }
    let _ = writeln!(errors, "{server} doesn't answer.");
    true
}

fn begins_with_call(words: &[Text]) -> bool {
    match words {
        [word, ..] => match word.as_str() {
            "add" => !looks(words),
            "import" | "undo" => true,
            _ => false,
        },
        [] => false,
    }
}

/// Whether the words are this one alone.
fn is_alone(words: &[Text], name: &str) -> bool
    ensures { result ≡ is_alone words.now name.now }
{
    match words {
        [word] => word.as_str() == name,
        _ => false,
    }
}

/// The one word after a word of this name.
fn argument_of<'w>(words: &'w [Text], name: &str) -> Option<&'w Text>
    ensures { option_copied result ≡ argument_of words.now name.now }
{
    let [word, argument] = words else {
        return None;
    };
    if word.as_str() == name {
        Some(argument)
    } else {
        None
    }
}

/// The file of an import that is only looked at.
fn checked_path(words: &[Text]) -> Option<&Text>
    ensures { option_copied result ≡ checked_path words.now }
{
    match import_of(words) {
        Some((path, ImportMode::Check)) => Some(path),
        _ => None,
    }
}

/// The board that the words name: that of `use`, or that of `--board`.
fn named_board(all: &[Text]) -> Option<&Text>
    ensures { option_copied result ≡ named_board all.now }
{
    let used = argument_of(words_after_options(all), "use");
    if used.is_some() {
        used
    } else {
        board_given(all)
    }
}

/// Whom to ask by the settings and the options in front of all words.
fn read_caller<'a>(
    rt: &'a HostRuntime,
    all: &[Text],
) -> Result<Caller<'a, MachineChance<'a>>, MyFault>
    ensures { IfOk result (λ caller. IfSome (named_board all.now)
        (λ name. caller.asker.board ≡ Some name)) }
{
    let seconds = seconds_given(all)?;
    let asker = read_asker(rt, named_board(all))?;
    let key = key_of(rt, &asker)?;
    Ok(Caller {
        rt,
        asker,
        key,
        seconds,
        kept: Text::new(rt.alloc()),
        before: Text::new(rt.alloc()),
        chance: MachineChance::new(rt),
    })
}

fn twin(key: &Option<Key>) -> Result<Option<Key>, Fault>
    ensures twin { IfOk result (λ twin. twin ≡ key.now) }
    ensures fault { IfErr result (λ fault. is_of_mine fault ≡ true) }
{
    match key {
        Some(key) => Ok(Some(key.duplicate()?)),
        None => Ok(None),
    }
}
