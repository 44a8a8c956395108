//! The machine's side of the look at a file and the log beside it, and of making the file.

use crate::beside::{Beside, Seen};
use std::alloc::AllocError;
use std::fs::{self, Metadata};
use std::io::ErrorKind;
use std::os::unix::fs::OpenOptionsExt;

/// The mode of a file that its owner alone may read and write.
const PRIVATE: u32 = 0o600;

/// The file at a path, and its log. What the machine shows of them isn't known.
#[derive(Drop)]
pub struct MachineBeside<'a> {
    rt: &'a HostRuntime,
    path: &'a str,
}

impl<'a> MachineBeside<'a> {
    pub fn new(rt: &'a HostRuntime, path: &'a str) -> MachineBeside<'a> {
        MachineBeside { rt, path }
    }
}

impl<'a> Beside for MachineBeside<'a> {
    ghost shows = { λ _ _ _ _. Unit {0} };

    /// A log that can't be read counts as empty: the engine says why it can't open it.
    fn look(&self) -> Result<Seen, AllocError> {
        let log_path = log_path_of(self.rt, self.path)?;
        let log = match fs::read(self.rt, log_path.as_str()) {
            Ok(log) => log,
            Err(error) if error.kind() == ErrorKind::OutOfMemory => return Err(AllocError),
            Err(_) => Vec::new(self.rt.alloc()),
        };
        let (is_there, is_younger) = match fs::metadata(self.rt, self.path) {
            Ok(file) => (
                file.len() > 0,
                is_younger(self.rt, &file, log_path.as_str()),
            ),
            Err(_) => (false, false),
        };
        Ok(Seen {
            is_there,
            is_younger,
            log,
        })
    }

    ghost is_private = { λ _. Unit {0} };

    /// Where it can't be made, the engine says why it can't open it.
    fn make_private(&mut self) {
        let _ = fs::OpenOptions::new()
            .write(true)
            .create_new(true)
            .mode(PRIVATE)
            .open(self.rt, self.path);
    }
}

// The log stands where a link to the file leads, as the engine has it.
fn log_path_of(rt: &HostRuntime, path: &str) -> Result<String, AllocError> {
    match fs::canonicalize(rt, path) {
        Ok(real) => format!(in rt.alloc(); "{}-wal", real.as_str()),
        Err(_) => format!(in rt.alloc(); "{path}-wal"),
    }
}

fn is_younger(rt: &HostRuntime, file: &Metadata, log_path: &str) -> bool {
    let Ok(log) = fs::metadata(rt, log_path) else {
        return false;
    };
    match (file.created(), log.created()) {
        (Ok(file), Ok(log)) => file > log,
        _ => false,
    }
}
