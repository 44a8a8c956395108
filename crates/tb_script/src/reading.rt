//! Reading a line.
ghost use Rattle.std.specs.Prelude.{◌≡◌, IfOk, map};
ghost use Rattle.tb_script.specs.Outcome.{Reads};
ghost use Rattle.tb_script.specs.Reading.{asked, asked_in, asking, content_of, fields_of};

use crate::arguments::{read_moment, read_person, read_secret, read_uuid};
use crate::asked::{Asked, Look, Request};
use crate::line_fault::LineFault;
use crate::words::read_request;
use std::alloc::{AllocError, Global};
use tb_board::{Key, Name};
use tb_calls::Call;
use tb_task::{Moment, TaskId};
use tb_values::Items;

/// What a line asks.
pub(crate) fn read_line(alloc: Global, line: &str) -> Result<Asked, LineFault>
    ensures { Reads result (asked line.now) }
{
    let fields = split_fields(alloc, line)?;
    read_fields(alloc, fields.as_slice())
}

fn split_fields(alloc: Global, line: &str) -> Result<Vec<&str>, AllocError>
    ensures { IfOk result (λ fields. map (λ field. field.now) fields.items ≡ fields_of line.now) }
{
    line.split('\t').collect(alloc)
}

#[tactic(auto, unfolding(crate::specs::Reading::asked_in))]
fn read_fields(alloc: Global, fields: &[&str]) -> Result<Asked, LineFault>
    ensures { Reads result (asked_in (map (λ field. field.now) fields.entry.now)) }
{
    let [moment, member, key, id, word, arguments @ ..] = fields else {
        return Err(LineFault::bad_line());
    };
    let at = read_moment(moment)?;
    let member = read_person(alloc, member)?;
    let key = read_secret(alloc, key)?;
    let id = read_uuid(id)?;
    let request = read_request(alloc, word, arguments, at)?;
    let content = join_fields(alloc, &fields[4..])?;
    Ok(ask(at, member, key, id, content, request))
}

/// The bytes from the first of these fields to the last.
fn join_fields(alloc: Global, fields: &[&str]) -> Result<Items<u8>, AllocError>
    ensures { IfOk result
        (λ content. content ≡ content_of (map (λ field. field.now) fields.entry.now)) }
{
    let text = fields.join(alloc, "\t")?;
    Ok(Items::from_vec(text.into_bytes()))
}

fn ask(
    at: Moment,
    member: Name,
    key: Key,
    id: TaskId,
    content: Items<u8>,
    request: Request,
) -> Asked
    ensures { result ≡ asking at member key id content request }
{
    match request {
        Request::Call(command) => Asked::Call(Call {
            member,
            key,
            id,
            moment: at,
            content,
            command,
        }),
        Request::View(view) => Asked::View(Look {
            member,
            key,
            view,
            at,
        }),
    }
}
