//! The program `taskboard`: boards of tasks in a file, served to a team, and scripts over boards in memory.
//! It owns which order is carried out by what, and serving on a port. It stands on `tb_orders` for the words, on `tb_files`, `tb_server`,
//! `tb_sending` and `tb_script` for the orders, and on `tb_causes` for what is told of their faults.
#![tactic(auto)]

ghost use Rattle.std.specs.Io.KnownBytes.{Appends};
ghost use Rattle.std.specs.Prelude.{◌≡◌, ◌≢◌, Err, IfErr, IfOk, IfSome, Ok, OnErr, true};
ghost use Rattle.sqlite_wal.specs.Files.{image_at};
ghost use Rattle.taskboard.specs.Failing.{IsLeft};
ghost use Rattle.taskboard.specs.Orders.{IsDone, IsNamed, is_of_order, is_of_telling, script_text};
ghost use Rattle.tb_orders.specs.Faults.{is_of_scripts};
ghost use Rattle.tb_program.specs.declared.fault.Fault.TheVariants.{ReadFailed, Store};
ghost use Rattle.tb_script.specs.Watching.{IsSpent};
ghost use Rattle.tb_values.specs.Appends.{AppendsFront};

mod cleaning;
mod clock;
mod file_orders;
mod laws;
mod running;
mod serve;
mod served_file;
mod standard_streams;
mod ticks;

use crate::cleaning::clean_into_file;
use crate::clock::MachineClock;
use crate::file_orders::{check, give_key, init, view};
use crate::serve::serve_file;
use crate::standard_streams::hold_standard_streams;
use sqlite_disk::{Start, Unknown};
use std::alloc::Global;
use std::io::{Read, Write};
use std::process::ExitCode;
use tb_caller::{ask_mine, send};
use tb_calls::Keep;
use tb_causes::{tell_cause, tell_words};
use tb_client::Line;
use tb_command_line::{Order, Topic};
use tb_files::{RealFile, fault_of_script, import_into_file, import_parts_into_file};
use tb_keeper::SqlKeep;
use tb_orders::{
    Chance, Ending, MachineChance, MachineStarted, OrderFault, print_fault, read_order, status_of,
};
use tb_program::{Fault, print_text};
use tb_script::{Watched, run_lines};
use tb_sending::{MachineDial, ServerLine, name_call};

/// Which program this is: its release, as the newest in `CHANGELOG.md`, and what it reads and was proved with.
const VERSION: &str = "\
taskboard 1.0.2 (2026-12-01)
tables of version 2
proved with logic dac8208d650f15bf
";

fn main(rt: HostRuntime) -> ExitCode {
    let _held = hold_standard_streams(&rt);
    let end = match read_order(rt.alloc(), &MachineStarted::new(&rt)) {
        Ok(order) => end_of(&rt, order, rt.stdin(), &mut rt.stdout(), Unknown),
        Err(fault) => {
            let _ = print_fault(fault, &mut rt.stderr());
            let _ = tell_words(&rt, &mut rt.stderr(), fault, Topic::Program.text());
            Err(fault)
        }
    };
    ExitCode::from(status_of(end))
}

/// How an order ends, whose fault is told with its cause.
fn end_of<S: Start, R: Read + Drop, W: Write>(
    rt: &HostRuntime,
    mut order: Order,
    reader: R,
    writer: &mut W,
    start: S,
) -> Result<Ending, Fault>
    ensures done { IfOk result (λ ending. (named : _) × IsNamed order named
        × IsDone ⟦<SqlKeep<RealFile<S>> as Keep>⟧ (image_at S.Start)
        ⟦<ServerLine<MachineDial<'static>> as Line>⟧.follows
        ⟦<MachineChance<'static> as Chance>⟧.gives W.contents
        named (R.remaining reader) writer.old writer.new ending) }
    ensures left { IfErr result (λ fault. (named : _) × IsNamed order named
        × (failed : _) × (failed.fault ≡ fault)
        × IsLeft ⟦<SqlKeep<RealFile<S>> as Keep>⟧ (image_at S.Start)
        ⟦<ServerLine<MachineDial<'static>> as Line>⟧.follows W.contents
        named (R.remaining reader) writer.old writer.new failed) }
    ensures fault { IfErr result (λ fault. is_of_order order fault ≡ true) }
{
    if let Order::Send(order) = &mut order {
        name_call(&mut MachineChance::new(rt), order);
    }
    match carry_out(rt, &mut order, reader, writer, start) {
        Ok(ending) => Ok(ending),
        Err(failed) => {
            if !is_told(&order, failed.fault) {
                let _ = print_fault(failed.fault, &mut rt.stderr());
                let _ = tell_cause(rt, &mut rt.stderr(), &failed, &order);
            }
            Err(failed.fault)
        }
    }
}

/// Whether it was told already what is wrong: of words of `my`.
fn is_told(order: &Order, fault: Fault) -> bool {
    matches!((order, fault), (Order::My(_), Fault::Bad))
}

/// Carries out an order; of an import alone more than the fault may be told.
fn carry_out<S: Start, R: Read + Drop, W: Write>(
    rt: &HostRuntime,
    order: &mut Order,
    reader: R,
    writer: &mut W,
    start: S,
) -> Result<Ending, OrderFault>
    ensures done { IfOk result
        (IsDone ⟦<SqlKeep<RealFile<S>> as Keep>⟧ (image_at S.Start)
        ⟦<ServerLine<MachineDial<'static>> as Line>⟧.follows
        ⟦<MachineChance<'static> as Chance>⟧.gives W.contents
        order.old (R.remaining reader) writer.old writer.new) }
    ensures left { IfErr result (IsLeft ⟦<SqlKeep<RealFile<S>> as Keep>⟧ (image_at S.Start)
        ⟦<ServerLine<MachineDial<'static>> as Line>⟧.follows W.contents
        order.old (R.remaining reader) writer.old writer.new) }
    ensures fault { IfErr result (λ failed. is_of_order order.old failed.fault ≡ true) }
{
    match order {
        Order::Init(order) => init(rt, order, start),
        Order::Serve(order) => alone(serve_file(rt, order, start)),
        Order::Run => alone(run_script(rt.alloc(), &mut Watched::new(reader), writer)),
        Order::Import(order) => {
            import_into_file(rt, order, reader, &mut MachineClock { rt }, writer, start)
        }
        Order::ImportAll(order) => {
            import_parts_into_file(rt, order, reader, &mut MachineClock { rt }, writer, start)
        }
        Order::Clean(order) => clean_into_file(rt, order, reader, writer, start),
        Order::View(order) => view(rt, order, writer, start),
        Order::Check(file) => check(rt, file, writer, start),
        Order::Key(order) => alone(give_key(rt, order, reader, writer, start)),
        Order::Send(order) => alone(send(rt, order, writer)),
        Order::My(order) => alone(ask_mine(rt, order, reader, writer)),
        Order::Help(topic) => alone(tell(writer, topic.text())),
        Order::Version => alone(tell(writer, VERSION)),
    }
}

/// The end of an order of whose fault nothing more is told.
fn alone(ended: Result<Ending, Fault>) -> Result<Ending, OrderFault>
    ensures ended { IfOk result (λ ending. ended ≡ Ok ending) }
    ensures fault { IfErr result (λ failed. ended ≡ Err failed.fault) }
{
    match ended {
        Ok(ending) => Ok(ending),
        Err(fault) => Err(OrderFault { fault, item: None }),
    }
}

/// Prints what the program tells of itself.
fn tell<W: Write>(writer: &mut W, text: &str) -> Result<Ending, Fault>
    ensures whole { IfOk result (λ ending. (ending ≡ Ending.Accepted)
        × Appends (W.contents writer.old) (W.contents writer.new) text.now) }
    ensures front { OnErr result (AppendsFront (W.contents writer.old)
        (W.contents writer.new) text.now) }
    ensures fault { IfErr result (λ fault. is_of_telling fault ≡ true) }
{
    print_text(writer, text)?;
    Ok(Ending::Accepted)
}

/// Answers the lines of an input over boards in memory.
fn run_script<R: Read + Drop, W: Write>(
    alloc: Global,
    reader: &mut Watched<R>,
    writer: &mut W,
) -> Result<Ending, Fault>
    ensures answers { IfOk result (λ ending. (ending ≡ Ending.Accepted)
        × IfSome reader.old.left
        (λ script. Appends (W.contents writer.old) (W.contents writer.new) (script_text script))) }
    ensures front { OnErr result (IfSome reader.old.left
        (λ script. AppendsFront (W.contents writer.old) (W.contents writer.new)
        (script_text script))) }
    ensures fault { IfErr result (λ fault. is_of_scripts fault ≡ true) }
    ensures no_store { result ≢ Err Store }
    ensures unread { IfErr result (λ fault. fault ≡ ReadFailed → IsSpent reader.new) }
{
    match run_lines(alloc, reader, writer) {
        Ok(()) => Ok(Ending::Accepted),
        Err(fault) => Err(fault_of_script(fault)),
    }
}
