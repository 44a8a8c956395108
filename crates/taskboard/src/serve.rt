//! The server of a file, on the loopback.
ghost use Rattle.sqlite_wal.specs.Files.{image_at};
ghost use Rattle.std.specs.Prelude.{◌≡◌, ℕ, IfErr, IfOk, true};
ghost use Rattle.taskboard.specs.Page.{IsPageOf};
ghost use Rattle.taskboard.specs.Serve.{IsServerEnd, IsServerFailed, IsServerLeft, IsServerRun, IsUnpaged, IsUnserved, asks_machine, fault_of_loop, is_of_serving, limit_of, rate_of};
ghost use Rattle.tb_event_loop.specs.EventLoop.{IsNew};
ghost use Rattle.tb_event_loop.specs.History.{still_to_end};
ghost use Rattle.tb_files.specs.File.{BeginsSession};
ghost use Rattle.tb_serve.specs.Server.{talk_at};
ghost use Rattle.tb_serve.specs.Turns.{silent};
ghost use Rattle.tb_timeouts.specs.declared.limits.TheConstants.{LIMITS};

use crate::clock::MachineClock;
use crate::running::run_server;
use crate::served_file::ServedFile;
use crate::standard_streams::LogStream;
use crate::ticks::MachineTicks;
use sqlite::FileStore;
use sqlite_disk::{Disk, Start};
use std::alloc::AllocError;
use std::fs;
use std::io::Write;
use std::os::unix::fs::PermissionsExt;
use tb_calls::Keep;
use tb_command_line::{Connections, ServeOrder};
use tb_desk::Desk;
use tb_event_loop::{EventLoop, Journal, LoopFault, MioSockets, Sockets, Ticks, Watch};
use tb_files::{RealFile, close_desk, give_up_desk, open_desk, open_file};
use tb_keeper::SqlKeep;
use tb_orders::Ending;
use tb_program::{Clock, Fault, loopback};
use tb_rooms::{ROOMS, Rate, most_held};
use tb_server::Server;
use tb_site::{PageFault, Site, read_page};
use tb_timeouts::LIMITS;

/// What others may do to a file.
const OTHERS: u32 = 0o077;

/// Bytes in a KiB and in a MiB.
const KIB: u64 = 1_024;

const MIB: u64 = 1_048_576;

/// Serves a file on a port of the loopback, up to the number of connections, or without end: then it ends by a fault alone.
pub(crate) fn serve_file<S: Start>(
    rt: &HostRuntime,
    order: &ServeOrder,
    start: S,
) -> Result<Ending, Fault>
    ensures served { IfOk result (λ ending. (ending ≡ Ending.Accepted)
        × BeginsSession ⟦<SqlKeep<RealFile<S>> as Keep>⟧ (image_at S.Start)
        (IsServerRun ⟦<SqlKeep<RealFile<S>> as Keep>⟧ asks_machine order.now)) }
    ensures failed { IfErr result (IsServerFailed ⟦<SqlKeep<RealFile<S>> as Keep>⟧
        (image_at S.Start) order.now) }
    ensures fault { IfErr result (λ fault. is_of_serving fault ≡ true) }
{
    let page = page_of(rt, order)?;
    let conn = open_file(rt, order.file.as_str(), start)?;
    let desk = open_desk(rt, order.file.as_str(), conn)?;
    serve_desk(rt, order, desk, page)
}

/// Serves the desk of a file, with a page.
fn serve_desk<D: Disk + Drop>(
    rt: &HostRuntime,
    order: &ServeOrder,
    desk: Desk<SqlKeep<FileStore<D>>>,
    page: Site,
) -> Result<Ending, Fault>
    requires page { IsPageOf order.now.page page }
    ensures served { IfOk result (λ ending. (ending ≡ Ending.Accepted)
        × IsServerRun ⟦<SqlKeep<FileStore<D>> as Keep>⟧ asks_machine order.now desk) }
    ensures left { IfErr result (λ fault.
        IsServerLeft ⟦<SqlKeep<FileStore<D>> as Keep>⟧ order.now fault desk) }
    ensures fault { IfErr result (λ fault. is_of_serving fault ≡ true) }
{
    let mut watch = ServedFile::of(rt, order.file.as_str())?;
    let mut sockets = listen(rt, order)?;
    let mut event_loop = loop_for(rt, order)?;
    let server = Server::new(rt.alloc(), desk, MachineClock { rt }, page)?;
    tell_start(rt, order);
    let mut journal = Journal::new(
        rt.alloc(),
        MachineTicks::new(rt),
        LogStream { rt },
        order.log,
    );
    serve_over(
        rt,
        order,
        &mut event_loop,
        &mut sockets,
        server,
        &mut journal,
        &mut watch,
    )
}

/// Serves a desk over sockets, and ends its session: by a copy of the last commits into the file where the server ended well, or the file
/// was moved away.
fn serve_over<D, N, C, T, W, P>(
    rt: &HostRuntime,
    order: &ServeOrder,
    event_loop: &mut EventLoop,
    sockets: &mut N,
    server: Server<SqlKeep<FileStore<D>>, C>,
    journal: &mut Journal<T, W>,
    watch: &mut P,
) -> Result<Ending, Fault>
where
    D: Disk + Drop,
    N: Sockets,
    C: Clock + Drop,
    T: Ticks,
    W: Write,
    P: Watch,
    requires page { IsPageOf order.now.page server.paths.site }
    requires silent { (c : ℕ) → talk_at server.peers.items c ≡ silent }
    requires limit { still_to_end event_loop.now ≡ limit_of order.now.connections }
    ensures served { IfOk result (λ ending. (ending ≡ Ending.Accepted)
        × IsServerRun ⟦<SqlKeep<FileStore<D>> as Keep>⟧
        (λ calls. N.follows calls sockets.old sockets.new) order.now server.desk) }
    ensures cut { IfErr result (λ fault. IsServerEnd ⟦<SqlKeep<FileStore<D>> as Keep>⟧
        (λ calls. N.follows calls sockets.old sockets.new) (P.is_gone watch.new)
        order.now fault server.desk) }
    ensures fault { IfErr result (λ fault. is_of_serving fault ≡ true) }
{
    match run_server(event_loop, sockets, server, journal, watch) {
        Ok(desk) => {
            close_desk(desk)?;
            Ok(Ending::Accepted)
        }
        Err((LoopFault::Moved, desk)) => {
            leave_moved(rt, order, desk);
            Err(fault_of_loop(LoopFault::Moved))
        }
        Err((fault, desk)) => {
            drop(give_up_desk(desk));
            Err(fault_of_loop(fault))
        }
    }
}

fn listen(rt: &HostRuntime, order: &ServeOrder) -> Result<MioSockets, Fault>
    ensures unserved { IfErr result IsUnserved }
    ensures fault { IfErr result (λ fault. is_of_serving fault ≡ true) }
{
    match MioSockets::listen(rt, loopback(order.port)) {
        Ok(sockets) => Ok(sockets),
        Err(fault) => Err(fault_of_loop(fault)),
    }
}

fn loop_for(rt: &HostRuntime, order: &ServeOrder) -> Result<EventLoop, AllocError>
    ensures limit { IfOk result (λ event_loop. still_to_end event_loop
        ≡ limit_of order.now.connections) }
    ensures new { IfOk result (IsNew (limit_of order.now.connections) LIMITS
        (rate_of order.now.burst order.now.growth)) }
{
    EventLoop::new(
        rt.alloc(),
        limit_of(order.connections),
        LIMITS,
        rate_of(order.burst, order.growth),
    )
}

fn limit_of(connections: Connections) -> Option<u32>
    ensures { result ≡ limit_of connections }
{
    match connections {
        Connections::UpTo(count) => Some(count),
        Connections::Forever => None,
    }
}

// How much a person's calls and a board's sweeps may write, in bytes.
fn rate_of(burst: u32, growth: u32) -> Rate
    ensures { result ≡ rate_of burst growth }
{
    Rate {
        burst: u64::from(burst) * MIB,
        per_second: u64::from(growth) * KIB,
    }
}

fn fault_of_loop(fault: LoopFault) -> Fault
    ensures told { result ≡ fault_of_loop fault }
    ensures serving { is_of_serving result ≡ true }
{
    match fault {
        LoopFault::Memory => Fault::Memory,
        LoopFault::Moved => Fault::Store,
        LoopFault::Sockets => Fault::NoListen,
        LoopFault::Store => Fault::Store,
    }
}

// The files that browsers are given, none where no folder is named.
fn page_of(rt: &HostRuntime, order: &ServeOrder) -> Result<Site, Fault>
    ensures page { IfOk result (IsPageOf order.now.page) }
    ensures unpaged { IfErr result (IsUnpaged order.now.page) }
    ensures fault { IfErr result (λ fault. is_of_serving fault ≡ true) }
{
    let Some(folder) = &order.page else {
        return Ok(Site::none(rt.alloc()));
    };
    match read_page(rt, folder.as_str()) {
        Ok(page) => Ok(page),
        Err(PageFault::Memory) => Err(Fault::Memory),
        Err(_) => Err(Fault::NoPage),
    }
}

// Tells that it listens, how much memory clients may take, and that others may read the file, if they may.
fn tell_start(rt: &HostRuntime, order: &ServeOrder) {
    let _ = writeln!(
        rt.stderr(),
        "taskboard: serving {} on 127.0.0.1:{}",
        order.file.as_str(),
        order.port
    );
    let _ = writeln!(
        rt.stderr(),
        "taskboard: it takes up to {} MiB of memory for messages and answers",
        most_held(&ROOMS) as u64 / MIB
    );
    if is_open_to_others(rt, order.file.as_str()) {
        let _ = writeln!(
            rt.stderr(),
            "taskboard: others may read or write {}, with the keys in it: chmod 600",
            order.file.as_str()
        );
    }
}

// Writes what was answered into the file that was open, whose log may be gone too, and tells so.
fn leave_moved<D: Disk + Drop>(
    rt: &HostRuntime,
    order: &ServeOrder,
    desk: Desk<SqlKeep<FileStore<D>>>,
) {
    let left = match close_desk(desk) {
        Ok(()) => "what was answered was written into the file that was open",
        Err(_) => {
            "what was answered couldn't be written into the file that was open: keep its log beside it"
        }
    };
    let _ = writeln!(
        rt.stderr(),
        "taskboard: {} or its log was moved, removed or replaced while it was served: {left}",
        order.file.as_str()
    );
}

fn is_open_to_others(rt: &HostRuntime, path: &str) -> bool {
    match fs::metadata(rt, path) {
        Ok(found) => found.permissions().mode() & OTHERS != 0,
        Err(_) => false,
    }
}
