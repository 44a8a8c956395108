//! The file that a server has open, and its log, as they stand at their paths.
use std::alloc::AllocError;
use std::fs;
use std::os::unix::fs::MetadataExt;
use tb_event_loop::Watch;
use tb_values::Text;

/// Which file a path leads to. A file keeps its device and its number when it is written, and another one has others.
type FileId = Option<(u64, u64)>;

/// A path, and which file it led to; and the same of its log, which is there from the first write on.
#[derive(Drop)]
pub(crate) struct ServedFile<'p> {
    rt: &'p HostRuntime,
    path: &'p str,
    file: FileId,
    log_path: Text,
    log: FileId,
}

impl<'p> ServedFile<'p> {
    pub(crate) fn of(rt: &'p HostRuntime, path: &'p str) -> Result<ServedFile<'p>, AllocError> {
        let log_path = Text::from_string(format!(in rt.alloc(); "{path}-wal")?);
        Ok(ServedFile {
            rt,
            path,
            file: file_at(rt, path),
            log: file_at(rt, log_path.as_str()),
            log_path,
        })
    }

    // A log that was seen is there as long as the file is open. One that wasn't seen yet may come.
    fn is_log_there(&mut self) -> bool {
        let found = file_at(self.rt, self.log_path.as_str());
        if self.log.is_none() {
            self.log = found;
        }
        found == self.log
    }
}

impl<'p> Watch for ServedFile<'p> {
    ghost is_gone = { λ _. Unit {0} };

    ghost looks = { λ _ _ _. Unit {0} };

    fn is_there(&mut self) -> bool {
        file_at(self.rt, self.path) == self.file && self.is_log_there()
    }
}

fn file_at(rt: &HostRuntime, path: &str) -> FileId {
    match fs::metadata(rt, path) {
        Ok(found) => Some((found.dev(), found.ino())),
        Err(_) => None,
    }
}
