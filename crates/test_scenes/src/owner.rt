//! The person with whom all boards begin.

use std::alloc::{AllocError, Global};
use std::io;
use tb_board::{Key, Name};
use tb_desk::ListKeep;

/// The person who owns board 1.
#[derive(Drop)]
pub struct Owner {
    pub alloc: Global,
    pub name: Name,
    pub key: Key,
}

impl Owner {
    /// The person `root`, whose key is `root-key-1`.
    pub fn root(alloc: Global) -> io::Result<Owner> {
        match (Name::read(alloc, "root")?, Key::read(alloc, "root-key-1")?) {
            (Some(name), Some(key)) => Ok(Owner { alloc, name, key }),
            _ => Err(io::Error::other("there is no owner")),
        }
    }

    /// New boards that lists keep.
    pub fn lists(&self) -> Result<ListKeep, AllocError> {
        ListKeep::new(self.alloc, &self.name, &self.key)
    }
}
