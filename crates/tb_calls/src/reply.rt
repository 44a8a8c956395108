use std::alloc::AllocError;
use tb_values::{Duplicate, Text};

/// What a call is told. Its number is 0 where the call is accepted, and else that of the refusal; its status is that of HTTP, and its
/// body is JSON.
#[derive(Drop)]
pub struct Reply {
    pub number: u8,
    pub status: u16,
    pub body: Text,
}

impl Duplicate for Reply {
    fn duplicate(&self) -> Result<Reply, AllocError> {
        let body = self.body.duplicate()?;
        Ok(Reply {
            number: self.number,
            status: self.status,
            body,
        })
    }
}
