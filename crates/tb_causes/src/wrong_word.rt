//! Which word is wrong of words that are no order, and what it may be.
ghost use Rattle.std.specs.Prelude.{◌≡◌, [], ◌∷◌, ◌++◌, IfOk, OnOk, map};
ghost use Rattle.tb_causes.specs.WrongWord.{behind, first_wrong, form_text, is_of, is_wrong_option, order_text, others_of, wrong_of, wrong_of_import, wrong_of_key, wrong_of_send, wrong_of_sent, wrong_text};

use std::alloc::{AllocError, Global};
use tb_board::{Key, Name};
use tb_command_line::{MOST_SECONDS, is_server, option_value};
use tb_task::TaskId;
use tb_values::read_number;

/// What a word of an order is.
#[derive(Clone, Copy)]
enum Form {
    File,
    Name,
    /// A key, or `-` where it is kept elsewhere.
    Key,
    Id,
    Board,
    Kind,
    Seconds,
    Server,
    Dash,
}

const INIT_FORMS: [Form; 3] = [Form::File, Form::Name, Form::Key];

const VIEW_FORMS: [Form; 4] = [Form::File, Form::Name, Form::Key, Form::Board];

const IMPORT_FORMS: [Form; 6] = [
    Form::File,
    Form::Name,
    Form::Key,
    Form::Id,
    Form::Board,
    Form::Kind,
];

const SEND_FORMS: [Form; 3] = [Form::Server, Form::Name, Form::Key];

const MADE_KEY_FORMS: [Form; 2] = [Form::File, Form::Name];

const READ_KEY_FORMS: [Form; 3] = [Form::File, Form::Name, Form::Dash];

const INIT_USAGE: &str = "`init` takes FILE NAME KEY.";

const VIEW_USAGE: &str = "`list`, `export` and `todo` each take FILE MEMBER KEY BOARD.";

const IMPORT_USAGE: &str =
    "`import` takes FILE MEMBER KEY ID BOARD KIND, --all once for a text of any length, and last, for json alone, --check, --clean or --skip.";

const CHECK_USAGE: &str = "`check` takes FILE alone.";

const KEY_USAGE: &str =
    "`key` takes FILE NAME, and - where the new key is read from standard input.";

const RUN_USAGE: &str = "`run` takes no words, and lines on standard input.";

const SERVE_USAGE: &str =
    "`serve` takes FILE --port P, P from 1 to 65535, and --connections N, N from 1 to 1,000,000, or --forever, and --page FOLDER, --growth KIB from 0 to 1,048,576, --burst MIB from 1 to 1,048,576, and --log.";

const SEND_USAGE: &str =
    "`send` takes [--id UUID] [--for SECONDS] ADDRESS:PORT MEMBER KEY WORD ARGUMENTS..";

const NO_ORDER: &str =
    "The first word is no order: init, serve, send, my, import, list, export, todo, check, key or run. `taskboard --help` tells more.";

const WRONG_FILE: &str = "The file is wrong.";

const WRONG_NAME: &str = "The person's name is wrong: 1 to 32 bytes of a to z, 0 to 9, _ and -.";

const WRONG_KEY: &str =
    "The key is wrong: 8 to 64 visible ASCII characters, or - where it is kept elsewhere.";

const WRONG_ID: &str = "The identifier is wrong: a uuid, as 00000000-0000-4000-8000-000000000001.";

const WRONG_BOARD: &str = "The board is wrong: a number from 1, without a zero in front.";

const WRONG_KIND: &str = "The kind is wrong: json or todo.";

const WRONG_SECONDS: &str = "The seconds of --for are wrong: a number from 1 to 86,400.";

const WRONG_SERVER: &str =
    "The server is wrong: an address, a colon and a port from 1 to 65535, as 127.0.0.1:8080.";

const WRONG_DASH: &str =
    "The word after NAME is wrong: - reads the new key from standard input, and no word makes one.";

/// What is wrong with the words behind the program's name.
pub(crate) fn wrong_word(alloc: Global, words: &[&str]) -> Result<&'static str, AllocError>
    ensures { IfOk result
        (λ text. text.now ≡ wrong_text (map (λ word. word.now) words.entry.now)) }
{
    match words {
        [order, rest @ ..] => wrong_of_order(alloc, order, rest),
        [] => Ok(NO_ORDER),
    }
}

#[tactic(auto, unfolding(crate::specs::WrongWord::order_text))]
fn wrong_of_order(alloc: Global, order: &str, rest: &[&str]) -> Result<&'static str, AllocError>
    ensures { IfOk result
        (λ text. text.now ≡ order_text order.now (map (λ word. word.now) rest.entry.now)) }
{
    match order {
        "init" => wrong_of(alloc, INIT_USAGE, rest, &INIT_FORMS),
        "import" => wrong_of_import(alloc, rest),
        "list" | "export" | "todo" => wrong_of(alloc, VIEW_USAGE, rest, &VIEW_FORMS),
        "check" => Ok(CHECK_USAGE),
        "key" => wrong_of_key(alloc, rest),
        "run" => Ok(RUN_USAGE),
        "serve" => Ok(SERVE_USAGE),
        "send" => wrong_of_send(alloc, rest),
        _ => Ok(NO_ORDER),
    }
}

/// The first word of `import` that isn't of its form, or which there are to be. `--all` may stand anywhere, once.
fn wrong_of_import(alloc: Global, words: &[&str]) -> Result<&'static str, AllocError>
    ensures { IfOk result
        (λ text. text.now ≡ wrong_of_import (map (λ word. word.now) words.entry.now)) }
{
    let others = others_of(alloc, words)?;
    wrong_of(alloc, IMPORT_USAGE, others.as_slice(), &IMPORT_FORMS)
}

/// The first word of `key` that isn't of its form, or how they are to be. The third may be missing.
fn wrong_of_key(alloc: Global, words: &[&str]) -> Result<&'static str, AllocError>
    ensures { IfOk result
        (λ text. text.now ≡ wrong_of_key (map (λ word. word.now) words.entry.now)) }
{
    if words.len() == READ_KEY_FORMS.len() {
        wrong_of(alloc, KEY_USAGE, words, &READ_KEY_FORMS)
    } else {
        wrong_of(alloc, KEY_USAGE, words, &MADE_KEY_FORMS)
    }
}

/// The words that aren't `--all`.
fn others_of<'t>(alloc: Global, words: &[&'t str]) -> Result<Vec<&'t str>, AllocError>
    ensures { IfOk result (λ others. map (λ word. word.now) others.items
        ≡ others_of (map (λ word. word.now) words.entry.now)) }
{
    let mut others = Vec::new(alloc);
    for word in words {
        push_other(&mut others, *word)?;
    }
    Ok(others)
}

fn push_other<'t>(others: &mut Vec<&'t str>, word: &'t str) -> Result<(), AllocError>
    ensures { OnOk result (map (λ word. word.now) others.new.items
        ≡ map (λ word. word.now) others.old.items ++ others_of (word.now ∷ [])) }
{
    if word == "--all" {
        return Ok(());
    }
    others.push(word)?;
    Ok(())
}

/// The first word of `send` that isn't of its form, or how they are to be.
fn wrong_of_send(alloc: Global, words: &[&str]) -> Result<&'static str, AllocError>
    ensures { IfOk result
        (λ text. text.now ≡ wrong_of_send (map (λ word. word.now) words.entry.now)) }
{
    if is_wrong_option(alloc, words, "--id", Form::Id)? {
        return Ok(WRONG_ID);
    }
    let words = behind(words, "--id");
    if is_wrong_option(alloc, words, "--for", Form::Seconds)? {
        return Ok(WRONG_SECONDS);
    }
    wrong_of_sent(alloc, behind(words, "--for"))
}

/// The same of the words behind the options.
fn wrong_of_sent(alloc: Global, words: &[&str]) -> Result<&'static str, AllocError>
    ensures { IfOk result
        (λ text. text.now ≡ wrong_of_sent (map (λ word. word.now) words.entry.now)) }
{
    if words.len() <= SEND_FORMS.len() {
        return Ok(SEND_USAGE);
    }
    first_wrong(alloc, SEND_USAGE, words, &SEND_FORMS)
}

/// Whether an option is in front of the words, and the word behind it isn't of its form.
fn is_wrong_option(
    alloc: Global,
    words: &[&str],
    name: &str,
    form: Form,
) -> Result<bool, AllocError>
    ensures { IfOk result (λ is. is ≡ is_wrong_option name.now form
        (map (λ word. word.now) words.entry.now)) }
{
    match option_value(words, name) {
        Some(value) => Ok(!is_of(alloc, value, form)?),
        None => Ok(false),
    }
}

/// The words behind an option and its value, where they begin with it.
fn behind<'w, 't>(words: &'w [&'t str], name: &str) -> &'w [&'t str]
    ensures { map (λ word. word.now) result.now
        ≡ behind (map (λ word. word.now) words.entry.now) name.now }
{
    match words {
        [first, _, rest @ ..] if *first == name => rest,
        _ => words,
    }
}

/// The first word that isn't of its form, or how many there are to be.
fn wrong_of(
    alloc: Global,
    usage: &'static str,
    words: &[&str],
    forms: &[Form],
) -> Result<&'static str, AllocError>
    ensures { IfOk result (λ text. text.now
        ≡ wrong_of usage.now (map (λ word. word.now) words.entry.now) forms.now) }
{
    if words.len() != forms.len() {
        return Ok(usage);
    }
    first_wrong(alloc, usage, words, forms)
}

/// What is told of the first word that isn't of its form, or else how the words are to be.
fn first_wrong(
    alloc: Global,
    usage: &'static str,
    words: &[&str],
    forms: &[Form],
) -> Result<&'static str, AllocError>
    ensures { IfOk result (λ text. text.now
        ≡ first_wrong usage.now (map (λ word. word.now) words.entry.now) forms.now) }
{
    let Some((word, words)) = words.split_first() else {
        return Ok(usage);
    };
    let Some((form, forms)) = forms.split_first() else {
        return Ok(usage);
    };
    if is_of(alloc, word, *form)? {
        first_wrong(alloc, usage, words, forms)
    } else {
        Ok(form_text(*form))
    }
}

fn is_of(alloc: Global, word: &str, form: Form) -> Result<bool, AllocError>
    ensures { IfOk result (λ is. is ≡ is_of word.now form) }
{
    match form {
        Form::File => Ok(true),
        Form::Name => Ok(Name::read(alloc, word)?.is_some()),
        Form::Key => Ok(word == "-" || Key::read(alloc, word)?.is_some()),
        Form::Id => Ok(TaskId::read(word).is_some()),
        Form::Board => Ok(read_number(word, u32::MAX).is_some()),
        Form::Kind => Ok(word == "json" || word == "todo"),
        Form::Seconds => Ok(read_number(word, MOST_SECONDS).is_some()),
        Form::Server => Ok(is_server(word)),
        Form::Dash => Ok(word == "-"),
    }
}

fn form_text(form: Form) -> &'static str
    ensures { result.now ≡ form_text form }
{
    match form {
        Form::File => WRONG_FILE,
        Form::Name => WRONG_NAME,
        Form::Key => WRONG_KEY,
        Form::Id => WRONG_ID,
        Form::Board => WRONG_BOARD,
        Form::Kind => WRONG_KIND,
        Form::Seconds => WRONG_SECONDS,
        Form::Server => WRONG_SERVER,
        Form::Dash => WRONG_DASH,
    }
}
