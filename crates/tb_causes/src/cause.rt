//! What happened, and what to do: the line behind the name of a fault.
ghost use Rattle.std.specs.Prelude.{◌≡◌, IfErr, IfOk, List, OnErr, OnOk, drop, map, option_map};
ghost use Rattle.std.specs.String.{string_bytes};
ghost use Rattle.std.specs.Vec.Iter.{into_iter_items};
ghost use Rattle.tb_causes.specs.Cause.{IsCause, IsCauseOfBadWords, IsCauseOfSilence, IsCauseOfStore, IsCauseOfText, IsCauseOfUnwritten, IsCauseOfWords, file_of, key_text, port_text, ports_text, send_text, store_text, text_of, words_text, written_text};
ghost use Rattle.tb_causes.specs.Told.{AppendsFrontOfTold, AppendsTold, Text as TextValue, told_text};
ghost use Rattle.tb_program.specs.declared.fault.Fault.TheVariants.{WriteFailed};

use crate::arguments::{texts_of, words_behind_first};
use crate::bad_text::{told_of_body, told_of_part};
use crate::file_cause::cause_of_file;
use crate::told::{Told, tell};
use crate::unanswered::{told_of_unanswered, told_of_unprinted};
use crate::wrong_word::wrong_word;
use std::alloc::{AllocError, Global};
use std::env::{self, Args};
use std::io;
use std::io::Write;
use tb_client::is_own_key_alone;
use tb_command_line::Order;
use tb_orders::{BadItem, OrderFault};
use tb_program::{Fault, print_line};
use tb_values::Text;

/// The first port that any user may listen on.
const FIRST_FREE_PORT: u16 = 1024;

const BAD: &str =
    "The command line is invalid: `taskboard --help` lists the orders, and `taskboard ORDER --help` what each takes.";

const BAD_EXPORT: &str =
    "The text is no JSON that an import takes, which is a list, an object, or an object on each line; or it has over 10,000 tasks, or more than one call takes, which --all cuts.";

const BAD_BODY: &str =
    "The text is longer than 1,048,576 bytes, which no server takes. Nothing was sent.";

const MEMORY: &str =
    "There was no memory, and nothing was half done. End other programs, or let this one have more, and try again.";

const NO_ANSWER: &str = "No answer came.";

const NO_CLOCK: &str = "The machine's clock gives no moment: set it, and try again.";

const NO_KEY: &str =
    "The key can't be read: set the environment TASKBOARD_KEY, or write it into ~/.config/taskboard/key, which you alone may read (chmod 600). A key has 8 to 64 visible ASCII characters.";

const NO_KEY_FILE: &str =
    "A key that is made needs the old one in ~/.config/taskboard/key, which you alone may read (chmod 600), and no TASKBOARD_KEY in the environment. Nothing was sent. Else name both keys: own-key OLD NEW.";

const NO_LISTEN: &str = "The port can't be listened on.";

const NO_PAGE: &str =
    "The folder of --page can't be read, has no index.html, or has more than 128 files or 8 MiB of a page: correct the name, or let this user read it and its files.";

const NOT_EMPTY: &str =
    "The file has tables already, and is as it was: give a name that no file has.";

const NOT_OURS: &str =
    "This isn't a file of boards, or a newer taskboard made it: correct the name, or use that program.";

const READ_FAILED: &str =
    "Standard input couldn't be read, or the machine gave no random bytes for an identifier or a key.";

const STORE: &str = "The file can't be used.";

const KEY_FILES: &str =
    "key, key.new or key.next in ~/.config/taskboard can't be read, written or renamed, or key.new is of another server or person, whom its second line names. No key was lost. Complete that change with `taskboard send SERVER MEMBER - own-key`, or remove key.new if you need no key in it.";

const WRITE_FAILED: &str =
    "Standard output couldn't be written: what was asked for may have been done. Look, or send the same call again under its identifier.";

const WRONG_VERSION: &str =
    "The file is of another version of taskboard: use the program that made it.";

const BAD_SEND: &str =
    "The words after KEY are no call and no view, or a board or a task among them isn't one: `taskboard send --help` has their forms.";

const NO_NEW_KEY: &str =
    "The first line of standard input is no key: a key has 8 to 64 visible ASCII characters. Nothing was changed.";

const KEY_UNREAD: &str =
    "Standard output couldn't be written: the key may have been changed to one that was made, which nobody has seen. Give another with `taskboard key`.";

const KEY_UNTOLD: &str =
    "Standard output couldn't be written: the key that was read may have been given. Run the same `taskboard key` again to see what happened.";

const LOW_PORT: &str =
    "Ports below 1,024 are the system's, or another program has this one: take a higher one, as 8080.";

const TAKEN_PORT: &str =
    "Another program has the port, as a server that still runs: end that one, or take another port.";

/// Tells what happened, and what to do.
pub fn tell_cause<W: Write>(
    rt: &HostRuntime,
    writer: &mut W,
    failed: &OrderFault,
    order: &Order,
) -> Result<(), Fault>
    ensures whole { OnOk result (AppendsTold (IsCause failed.now.fault failed.now.item order.now)
        (W.contents writer.old) (W.contents writer.new)) }
    ensures front { OnErr result
        (AppendsFrontOfTold (IsCause failed.now.fault failed.now.item order.now)
        (W.contents writer.old) (W.contents writer.new)) }
    ensures fault { IfErr result (λ fault. fault ≡ WriteFailed) }
{
    let cause = cause_of(rt, failed, order);
    tell(writer, &cause)
}

fn cause_of(rt: &HostRuntime, failed: &OrderFault, order: &Order) -> Told
    ensures { IsCause failed.now.fault failed.now.item order.now (told_text result) }
{
    match failed.fault {
        Fault::Store => Told::Fixed(cause_of_store(rt, order)),
        Fault::NoAnswer => told_of_silence(rt.alloc(), order),
        Fault::BadBody => told_of_text(rt.alloc(), &failed.item, order),
        Fault::NoListen => Told::Fixed(ports_text(order)),
        Fault::NoKey => Told::Fixed(key_text(order)),
        Fault::Bad => Told::Fixed(send_text(order)),
        Fault::WriteFailed => told_of_unwritten(rt.alloc(), order),
        fault => Told::Fixed(text_of(fault)),
    }
}

/// What is told of a fault, whatever the order was.
fn text_of(fault: Fault) -> &'static str
    ensures { result.now ≡ text_of fault }
{
    match fault {
        Fault::Bad => BAD,
        Fault::BadBody => BAD_BODY,
        Fault::Memory => MEMORY,
        Fault::NoAnswer => NO_ANSWER,
        Fault::NoClock => NO_CLOCK,
        Fault::NoKey => NO_KEY,
        Fault::NoListen => NO_LISTEN,
        Fault::NoPage => NO_PAGE,
        Fault::NotEmpty => NOT_EMPTY,
        Fault::NotOurs => NOT_OURS,
        Fault::ReadFailed => READ_FAILED,
        Fault::Store => STORE,
        Fault::WriteFailed => WRITE_FAILED,
        Fault::WrongVersion => WRONG_VERSION,
    }
}

/// Why the file of an order can't be used.
fn cause_of_store(rt: &HostRuntime, order: &Order) -> &'static str
    ensures { IsCauseOfStore (file_of order.now) order.now result.now }
{
    match file_of(order) {
        Some(file) => cause_of_file(rt, file.as_str()),
        None => store_text(order),
    }
}

/// Of files that no order names: those of a key.
fn store_text(order: &Order) -> &'static str
    ensures { result.now ≡ store_text order.now }
{
    match order {
        Order::Send(_) | Order::My(_) => KEY_FILES,
        _ => STORE,
    }
}

/// Of a key that isn't where it is to be: one that is to change stands in a file, and a new one is on standard input.
fn key_text(order: &Order) -> &'static str
    ensures { result.now ≡ key_text order.now }
{
    match order {
        Order::Send(order) if is_own_key_alone(order.words.as_slice()) => NO_KEY_FILE,
        Order::Key(_) => NO_NEW_KEY,
        _ => NO_KEY,
    }
}

/// Of what couldn't be printed: a key that was made is lost then, and one that was read is known.
fn written_text(order: &Order) -> &'static str
    ensures { result.now ≡ written_text order.now }
{
    match order {
        Order::Key(order) if order.is_read => KEY_UNTOLD,
        Order::Key(_) => KEY_UNREAD,
        _ => WRITE_FAILED,
    }
}

/// The file that an order is over.
fn file_of(order: &Order) -> Option<&Text>
    ensures { option_map (λ file. file.now) result ≡ file_of order.now }
{
    match order {
        Order::Init(order) => Some(&order.file),
        Order::Serve(order) => Some(&order.file),
        Order::Import(order) | Order::ImportAll(order) => Some(&order.file),
        Order::Clean(order) => Some(&order.import.file),
        Order::View(order) => Some(&order.file),
        Order::Check(file) => Some(file),
        Order::Key(order) => Some(&order.file),
        Order::Run | Order::Send(_) | Order::My(_) | Order::Help(_) | Order::Version => None,
    }
}

fn told_of_silence(alloc: Global, order: &Order) -> Told
    ensures { IsCauseOfSilence order.now (told_text result) }
{
    match order {
        Order::Send(order) => told_of_unanswered(alloc, order),
        _ => Told::Fixed(NO_ANSWER),
    }
}

fn told_of_unwritten(alloc: Global, order: &Order) -> Told
    ensures { IsCauseOfUnwritten order.now (told_text result) }
{
    match order {
        Order::Send(order) => told_of_unprinted(alloc, order),
        _ => Told::Fixed(written_text(order)),
    }
}

fn told_of_text(alloc: Global, item: &Option<BadItem>, order: &Order) -> Told
    ensures { IsCauseOfText item.now order.now (told_text result) }
{
    match order {
        Order::Import(_) => told_of_body(alloc, item),
        Order::ImportAll(_) => told_of_part(alloc, item),
        Order::Clean(_) => Told::Fixed(BAD_EXPORT),
        _ => Told::Fixed(BAD_BODY),
    }
}

/// Of words that are an order, but ask for nothing.
fn send_text(order: &Order) -> &'static str
    ensures { result.now ≡ send_text order.now }
{
    match order {
        Order::Send(_) => BAD_SEND,
        _ => BAD,
    }
}

fn ports_text(order: &Order) -> &'static str
    ensures { result.now ≡ ports_text order.now }
{
    match order {
        Order::Serve(order) => port_text(order.port),
        _ => NO_LISTEN,
    }
}

fn port_text(port: u16) -> &'static str
    ensures { result.now ≡ port_text port }
{
    if port < FIRST_FREE_PORT {
        LOW_PORT
    } else {
        TAKEN_PORT
    }
}

/// Tells why words are no order; where there are none, the help.
pub fn tell_words<W: Write>(
    rt: &HostRuntime,
    writer: &mut W,
    fault: Fault,
    help: &'static str,
) -> Result<(), Fault>
    ensures whole { OnOk result (AppendsTold (IsCauseOfWords fault help.now)
        (W.contents writer.old) (W.contents writer.new)) }
    ensures front { OnErr result (AppendsFrontOfTold (IsCauseOfWords fault help.now)
        (W.contents writer.old) (W.contents writer.new)) }
    ensures fault { IfErr result (λ fault. fault ≡ WriteFailed) }
{
    let cause = cause_of_words(rt, fault, help);
    print_line(writer, cause)
}

fn cause_of_words(rt: &HostRuntime, fault: Fault, help: &'static str) -> &'static str
    ensures { IsCauseOfWords fault help.now result.now }
{
    match fault {
        Fault::Bad => cause_of_bad_words(rt, help),
        fault => text_of(fault),
    }
}

/// Which word is wrong, where the words can be read once more.
fn cause_of_bad_words(rt: &HostRuntime, help: &'static str) -> &'static str
    ensures { IsCauseOfBadWords help.now result.now }
{
    match cause_of_arguments(rt, help) {
        Ok(text) => text,
        Err(_) => BAD,
    }
}

fn cause_of_arguments(rt: &HostRuntime, help: &'static str) -> io::Result<&'static str>
    ensures { IfOk result
        (λ text. (words : List TextValue) × (text.now ≡ words_text words help.now)) }
{
    let words = env::args(rt)?;
    Ok(cause_behind_first(rt.alloc(), words, help)?)
}

/// What is told of the words behind the first, which names the program.
fn cause_behind_first(
    alloc: Global,
    words: Args,
    help: &'static str,
) -> Result<&'static str, AllocError>
    ensures { IfOk result (λ text. text.now
        ≡ words_text (map string_bytes (drop 1 (into_iter_items words))) help.now) }
{
    let words = words_behind_first(alloc, words)?;
    let texts = texts_of(alloc, words.as_slice())?;
    words_text(alloc, texts.as_slice(), help)
}

fn words_text(alloc: Global, words: &[&str], help: &'static str) -> Result<&'static str, AllocError>
    ensures { IfOk result (λ text. text.now
        ≡ words_text (map (λ word. word.now) words.entry.now) help.now) }
{
    if words.is_empty() {
        return Ok(help);
    }
    wrong_word(alloc, words)
}
