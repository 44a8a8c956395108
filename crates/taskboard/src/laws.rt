//! What a run of the server leaves, and what the next one begins with.
ghost use Rattle.taskboard.specs.Serve.{EndsOn, LeadsOn};

use sqlite::FileStore;
use sqlite_disk::Disk;
use tb_calls::Keep;
use tb_keeper::SqlKeep;

/// A server that is given up has led from the bytes that its session found to those that a stop may leave then: a run of
/// `headline_of_files`.
pub(crate) fn server_leads_on<D: Disk + Drop>()
    ensures { LeadsOn ⟦<SqlKeep<FileStore<D>> as Keep>⟧ }
{}

/// A server that ended well and was saved has led so to the bytes that a stop may leave of its file and the log then.
pub(crate) fn server_ends_on<D: Disk + Drop>()
    ensures { EndsOn ⟦<SqlKeep<FileStore<D>> as Keep>⟧ }
{}
