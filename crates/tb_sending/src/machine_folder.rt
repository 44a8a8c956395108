//! The machine's folder of the key file. Beside `key` it has `key.new` while the key changes, and `key.next`, which is written whole and
//! synced before it takes the name of one of them: so each is the old one or the new one, whenever the machine stops.
ghost use Rattle.std.specs.Prelude.{◌≡◌, IfErr, true};
ghost use Rattle.tb_sending.specs.Faults.{is_of_sending};

use crate::folder::Folder;
use std::alloc::AllocError;
use std::env;
use std::fs::{self, File};
use std::io::{self, ErrorKind, Write};
use std::os::unix::fs::{OpenOptionsExt, PermissionsExt};
use tb_program::Fault;

/// What others may do to a file.
const OTHERS: u32 = 0o077;

/// Its owner alone may read and write it.
const PRIVATE: u32 = 0o600;

const NEXT: &str = "key.next";

/// The folder `.config/taskboard` of a home: that of the key, and of the settings of `my`. What the machine keeps in it isn't known.
#[derive(Drop)]
pub struct KeyFolder<'a> {
    rt: &'a HostRuntime,
    path: String,
    // The folder itself, locked.
    held: Option<File>,
}

impl<'a> KeyFolder<'a> {
    /// The folder of this user's home, where the machine tells it.
    pub fn at_home(rt: &'a HostRuntime) -> Option<KeyFolder<'a>> {
        let path = path_at_home(rt, ".config/taskboard")?;
        Some(KeyFolder {
            rt,
            path,
            held: None,
        })
    }

    /// Makes the folder, where it isn't there.
    pub fn make(&self) -> Result<(), Fault>
        ensures fault { IfErr result (λ fault. is_of_sending fault ≡ true) }
    {
        match fs::create_dir_all(self.rt, self.path.as_str()) {
            Ok(()) => Ok(()),
            Err(_) => Err(Fault::Store),
        }
    }

    /// Whether the folder has a file of this name, or may have one.
    pub fn has(&self, name: &str) -> bool {
        let Ok(path) = self.path_of(name) else {
            return true;
        };
        match fs::metadata(self.rt, path.as_str()) {
            Ok(_) => true,
            Err(error) => error.kind() != ErrorKind::NotFound,
        }
    }

    fn path_of(&self, name: &str) -> Result<String, AllocError> {
        format!(in self.rt.alloc(); "{}/{name}", self.path.as_str())
    }

    /// The text of a file, unless others may read or write it.
    pub fn private_text(&self, name: &str) -> Option<String> {
        private_text(self.rt, self.path_of(name).ok()?.as_str())
    }

    fn remove_file(&self, name: &str) -> io::Result<()> {
        let path = self.path_of(name)?;
        fs::remove_file(self.rt, path.as_str())?;
        self.sync()
    }

    /// Gives a file this text, which its owner alone may read. At each moment it has its old text or the new one.
    pub fn put(&self, name: &str, text: &str) -> Result<(), Fault>
        ensures fault { IfErr result (λ fault. is_of_sending fault ≡ true) }
    {
        let _locked = self.lock_unless_held();
        match self.replace(name, text) {
            Ok(()) => Ok(()),
            Err(_) => Err(Fault::Store),
        }
    }

    /// Waits until no other process has the folder, where this one hasn't it: all write `key.next`.
    fn lock_unless_held(&self) -> Option<File> {
        if self.held.is_some() {
            return None;
        }
        let folder = File::open(self.rt, self.path.as_str()).ok()?;
        let _ = folder.lock();
        Some(folder)
    }

    /// Gives a file this text. At each moment it has its old one or the new one.
    fn replace(&self, name: &str, text: &str) -> io::Result<()> {
        let next = self.path_of(NEXT)?;
        let path = self.path_of(name)?;
        let _ = fs::remove_file(self.rt, next.as_str());
        let mut file = fs::OpenOptions::new()
            .write(true)
            .create_new(true)
            .mode(PRIVATE)
            .open(self.rt, next.as_str())?;
        file.write_all(text.as_bytes())?;
        file.sync_all()?;
        fs::rename(self.rt, next.as_str(), path.as_str())?;
        self.sync()
    }

    /// Has the disk keep which names the folder has.
    fn sync(&self) -> io::Result<()> {
        File::open(self.rt, self.path.as_str())?.sync_all()
    }
}

impl<'a> Folder for KeyFolder<'a> {
    ghost has = { λ _ _ _. Unit {0} };

    ghost lacks = { λ _ _. Unit {0} };

    fn is_there(&self, name: &str) -> bool {
        self.has(name)
    }

    fn text(&self, name: &str) -> Option<String> {
        self.private_text(name)
    }

    fn hold(&mut self) {
        if let Ok(folder) = File::open(self.rt, self.path.as_str()) {
            let _ = folder.lock();
            self.held = Some(folder);
        }
    }

    fn put(&mut self, name: &str, text: &str) -> Result<(), Fault> {
        KeyFolder::put(self, name, text)
    }

    fn remove(&mut self, name: &str) -> Result<(), Fault> {
        match self.remove_file(name) {
            Ok(()) => Ok(()),
            Err(_) => Err(Fault::Store),
        }
    }
}

/// A path below this user's home, where the machine tells one.
pub fn path_at_home(rt: &HostRuntime, rest: &str) -> Option<String> {
    let home = env::home_dir(rt).ok()??;
    format!(in rt.alloc(); "{}/{rest}", home.as_str()).ok()
}

/// The text of a file, unless others may read or write it.
pub fn private_text(rt: &HostRuntime, path: &str) -> Option<String> {
    let found = fs::metadata(rt, path).ok()?;
    if found.permissions().mode() & OTHERS != 0 {
        return None;
    }
    fs::read_to_string(rt, path).ok()
}
