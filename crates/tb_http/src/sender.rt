//! Who sends a request, by which key, and the identifier of its call.
ghost use Rattle.std.specs.Prelude.{◌≡◌, codes, option_map};
ghost use Rattle.tb_http.specs.Sender as sender;

use crate::message::{Field, Message, find_field};
use tb_task::TaskId;

// A field's value, if it is text.
fn text_in(field: &Field) -> Option<&str>
    ensures { option_map (λ text. text.now) result ≡ sender.text_in field.now }
{
    match str::from_utf8(field.value.as_slice()) {
        Ok(text) => Some(text),
        Err(_) => None,
    }
}

impl Message {
    // The text of the first field of this name.
    fn text_of(&self, name: &str) -> Option<&str>
        ensures { option_map (λ text. text.now) result ≡ sender.text_of name.now self.now }
    {
        text_in(find_field(self.fields.as_slice(), name)?)
    }

    /// The name of the person who sends it, as it came.
    pub fn member(&self) -> Option<&str>
        ensures { option_map (λ text. text.now) result ≡ sender.member_of self.now }
    {
        self.text_of("x-member")
    }

    /// The key by which that person is known, as it came.
    pub fn key(&self) -> Option<&str>
        ensures { option_map (λ text. text.now) result ≡ sender.key_of self.now }
    {
        self.text_of("x-key")
    }

    /// The identifier of the call, if it can be read.
    pub fn request_id(&self) -> Option<TaskId>
        ensures { result ≡ sender.request_id_of self.now }
    {
        TaskId::read(self.text_of("x-request-id")?)
    }
}
