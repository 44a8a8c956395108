//! What connections share.
use std::alloc::{AllocError, Global};
use tb_http::{FieldRoom, HeadRoom};

/// What connections share, since one message is handled at a time.
#[derive(Drop)]
pub struct Tools {
    pub(crate) head: HeadRoom,
    pub(crate) fields: FieldRoom,
}

impl Tools {
    pub fn new(alloc: Global) -> Result<Tools, AllocError> {
        Ok(Tools {
            head: HeadRoom::new(alloc)?,
            fields: FieldRoom::new(alloc)?,
        })
    }
}
