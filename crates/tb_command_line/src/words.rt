//! The command line that names the orders.
ghost use Rattle.std.specs.Prelude.{◌≡◌, ◌∷◌, IfOk, Bool, List, None, Ok, Some, codes, false, map, true, ℕ};
ghost use Rattle.std.specs.List.{list_all};
ghost use Rattle.clap.specs.Simple.{app_of, new_app};
ghost use Rattle.clap.specs.Walk.{rule_of};
ghost use Rattle.tb_command_line.specs.Words.{IsShaped, bare, check_app, counted_serve_app, file_app, flag_rule, import_app, init_app, input_app, key_app, keyed_app, member_app, needed, one_import_app, option_rule, optional, program_app, serve_app, view_app};
ghost use Rattle.tb_command_line.specs.Order.{Request, is_plain, order_of, texts_of, words_of};
ghost use Rattle.tb_command_line.specs.Outcome.{Reads};
ghost use Rattle.tb_command_line.specs.Extra.{with_extra, without_extra};
ghost use Rattle.tb_command_line.specs.Sending.{my_of, send_of, told_of};
ghost use Rattle.tb_command_line.specs.declared.order.Order.{Order};

use crate::extra::read_extra;
use crate::order::{Order, WordsFault};
use crate::reading::read_order;
use crate::sending::{read_my, read_send};
use crate::telling::read_told;
use clap::error::ErrorKind;
use clap::{Arg, ArgAction, Command};
use std::alloc::{AllocError, Global};
use tb_board::Key;

/// The order that the words after the program's name are. A KEY that is `-` is the one that is kept elsewhere: without one the words
/// are `NoKey`. Of words in none of the forms, and of other words that begin with a hyphen where no option stands, nothing is
/// promised: tests show that they are bad.
pub fn command_of(alloc: Global, words: &[&str], kept: &Option<Key>) -> Result<Order, WordsFault>
    ensures listed { (request : Request)
        → without_extra (map (λ word. word.now) words.entry.now) ≡ words_of request
        → list_all is_plain (texts_of request) ≡ true
        → Reads result (with_extra (map (λ word. word.now) words.entry.now)
        (order_of kept.now request)) }
    ensures told { (order : Order) → told_of (map (λ word. word.now) words.entry.now) ≡ Some order
        → result ≡ Ok order }
    ensures sent { (rest : List (List ℕ))
        → map (λ word. word.now) words.entry.now ≡ codes "send" ∷ rest
        → told_of (codes "send" ∷ rest) ≡ None → Reads result (send_of rest) }
    ensures mine { (rest : List (List ℕ))
        → map (λ word. word.now) words.entry.now ≡ codes "my" ∷ rest
        → told_of (codes "my" ∷ rest) ≡ None → Reads result (my_of rest) }
{
    if let Some(order) = read_told(words) {
        return Ok(order);
    }
    match words.split_first() {
        Some((first, rest)) if *first == "send" => read_send(alloc, rest),
        Some((first, rest)) if *first == "my" => read_my(alloc, rest),
        _ => read_extra(alloc, words, kept),
    }
}

/// The order that words for `clap` are.
pub(crate) fn read_listed(
    alloc: Global,
    words: &[&str],
    kept: &Option<Key>,
) -> Result<Order, WordsFault>
    ensures { (request : Request) → map (λ word. word.now) words.entry.now ≡ words_of request
        → list_all is_plain (texts_of request) ≡ true → Reads result (order_of kept.now request) }
{
    let Ok(command) = program(alloc) else {
        return Err(WordsFault::Memory);
    };
    match command.try_get_matches_from(words) {
        Ok(matches) => read_order(alloc, &matches, kept),
        Err(error) => Err(fault_of(error.kind())),
    }
}

fn fault_of(kind: ErrorKind) -> WordsFault
    ensures { kind ≡ ErrorKind.OutOfMemory → result ≡ WordsFault.Memory }
{
    match kind {
        ErrorKind::OutOfMemory => WordsFault::Memory,
        _ => WordsFault::Bad,
    }
}

fn program<'a>(alloc: Global) -> Result<Command<'a>, AllocError>
    ensures { IfOk result (λ c. app_of c ≡ program_app) }
{
    let export = view(alloc, "export")?;
    let list = view(alloc, "list")?;
    let todo = view(alloc, "todo")?;
    input_commands(alloc)?
        .subcommand(export)?
        .subcommand(list)?
        .subcommand(todo)
}

/// The program with the subcommands for a file and its keys, and those that read standard input.
fn input_commands<'a>(alloc: Global) -> Result<Command<'a>, AllocError>
    ensures { IfOk result (λ c. app_of c ≡ input_app) }
{
    let import = import(alloc)?;
    keyed_commands(alloc)?
        .subcommand(Command::new(alloc, "run"))?
        .subcommand(import)
}

/// The program with the subcommands for a file as a whole, and for its keys.
fn keyed_commands<'a>(alloc: Global) -> Result<Command<'a>, AllocError>
    ensures { IfOk result (λ c. app_of c ≡ keyed_app) }
{
    let key = key(alloc)?;
    file_commands(alloc)?.subcommand(key)
}

/// The program with the subcommands for a file as a whole.
fn file_commands<'a>(alloc: Global) -> Result<Command<'a>, AllocError>
    ensures { IfOk result (λ c. app_of c ≡ file_app) }
{
    let init = init(alloc)?;
    let serve = serve(alloc)?;
    let check = check(alloc)?;
    bare(alloc)
        .subcommand(init)?
        .subcommand(serve)?
        .subcommand(check)
}

/// The program without its subcommands.
fn bare<'a>(alloc: Global) -> Command<'a>
    ensures { app_of result ≡ bare (new_app (codes "taskboard")) }
{
    Command::new(alloc, "taskboard")
        .no_binary_name(true)
        .disable_help_flag(true)
        .disable_help_subcommand(true)
        .subcommand_required(true)
}

/// `init FILE NAME KEY`.
fn init<'a>(alloc: Global) -> Result<Command<'a>, AllocError>
    ensures { IfOk result (IsShaped init_app) }
{
    Command::new(alloc, "init")
        .arg(positional(alloc, "file"))?
        .arg(positional(alloc, "name"))?
        .arg(positional(alloc, "key"))
}

/// `serve FILE --port P [--connections N] [--forever] [--log]`.
fn serve<'a>(alloc: Global) -> Result<Command<'a>, AllocError>
    ensures { IfOk result (IsShaped serve_app) }
{
    counted_serve(alloc)?
        .arg(flag(alloc, "forever"))?
        .arg(flag(alloc, "log"))
}

/// `serve FILE --port P [--connections N]`.
fn counted_serve<'a>(alloc: Global) -> Result<Command<'a>, AllocError>
    ensures { IfOk result (IsShaped counted_serve_app) }
{
    Command::new(alloc, "serve")
        .arg(positional(alloc, "file"))?
        .arg(option(alloc, "port", true))?
        .arg(option(alloc, "connections", false))
}

/// `NAME FILE MEMBER KEY`, and what follows it.
fn member<'a>(alloc: Global, name: &'a str) -> Result<Command<'a>, AllocError>
    ensures { IfOk result (IsShaped (member_app name.entry.now)) }
{
    Command::new(alloc, name)
        .arg(positional(alloc, "file"))?
        .arg(positional(alloc, "member"))?
        .arg(positional(alloc, "key"))
}

/// `import FILE MEMBER KEY ID BOARD KIND [--all]`.
fn import<'a>(alloc: Global) -> Result<Command<'a>, AllocError>
    ensures { IfOk result (IsShaped import_app) }
{
    one_import(alloc)?.arg(flag(alloc, "all"))
}

/// `import FILE MEMBER KEY ID BOARD KIND`.
fn one_import<'a>(alloc: Global) -> Result<Command<'a>, AllocError>
    ensures { IfOk result (IsShaped one_import_app) }
{
    member(alloc, "import")?
        .arg(positional(alloc, "id"))?
        .arg(positional(alloc, "board"))?
        .arg(positional(alloc, "kind"))
}

/// `NAME FILE MEMBER KEY BOARD`.
fn view<'a>(alloc: Global, name: &'a str) -> Result<Command<'a>, AllocError>
    ensures { IfOk result (IsShaped (view_app name.entry.now)) }
{
    member(alloc, name)?.arg(positional(alloc, "board"))
}

/// `check FILE`.
fn check<'a>(alloc: Global) -> Result<Command<'a>, AllocError>
    ensures { IfOk result (IsShaped check_app) }
{
    Command::new(alloc, "check").arg(positional(alloc, "file"))
}

/// `key FILE NAME [KEY]`.
fn key<'a>(alloc: Global) -> Result<Command<'a>, AllocError>
    ensures { IfOk result (IsShaped key_app) }
{
    Command::new(alloc, "key")
        .arg(positional(alloc, "file"))?
        .arg(positional(alloc, "name"))?
        .arg(optional(alloc, "key"))
}

fn positional<'a>(alloc: Global, id: &'a str) -> Arg<'a>
    ensures rule { rule_of result ≡ needed id.entry.now }
    ensures local { result.global ≡ false }
{
    Arg::new(alloc, id).required(true).action(ArgAction::Set)
}

fn optional<'a>(alloc: Global, id: &'a str) -> Arg<'a>
    ensures rule { rule_of result ≡ optional id.entry.now }
    ensures local { result.global ≡ false }
{
    Arg::new(alloc, id).action(ArgAction::Set)
}

fn option<'a>(alloc: Global, name: &'a str, is_required: bool) -> Arg<'a>
    ensures rule { rule_of result ≡ option_rule name.entry.now is_required }
    ensures local { result.global ≡ false }
{
    Arg::new(alloc, name)
        .long(name)
        .required(is_required)
        .action(ArgAction::Set)
}

fn flag<'a>(alloc: Global, name: &'a str) -> Arg<'a>
    ensures rule { rule_of result ≡ flag_rule name.entry.now }
    ensures local { result.global ≡ false }
{
    Arg::new(alloc, name).long(name).action(ArgAction::SetTrue)
}
