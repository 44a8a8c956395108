//! New keys that the machine's owner gives, in the first person's name.
ghost use Rattle.std.specs.Prelude.{◌≡◌, ◌≢◌, ◌⊎◌, ◌∷◌, [], Err, IfErr, IfOk, IsErrOf, None, OnErr, OnOk, Some, true};
ghost use Rattle.std.specs.Io.KnownBytes.{Appends};
ghost use Rattle.tb_calls.specs.Call.{State, once, plain, reply};
ghost use Rattle.tb_calls.specs.Keep.{IsStill, is_store};
ghost use Rattle.tb_calls.specs.Leaving.{Only, StandsAfter};
ghost use Rattle.tb_calls.specs.Roles.{person_at};
ghost use Rattle.tb_calls.specs.declared.call.Call.{Call};
ghost use Rattle.tb_orders.specs.NewKey.{HoldsGiven, IsGiven, call_by, call_in, command_by, content_by, given_text, is_of_giving};
ghost use Rattle.tb_orders.specs.Orders.{calls_made, ending_of};
ghost use Rattle.tb_program.specs.declared.fault.Fault.TheVariants.{NotOurs, Store, WriteFailed};
ghost use Rattle.tb_values.specs.Appends.{AppendsFront};

use sqlite::Alter;
use std::alloc::{AllocError, Global};
use std::io::Write;
use tb_board::{Key, Name, Person};
use tb_calls::{Call, Keep, KeepFault, Reply};
use tb_core::Command;
use tb_desk::Desk;
use tb_keeper::SqlKeep;
use tb_orders::{Ending, NewKey, ending_of};
use tb_program::{Fault, print_line};
use tb_values::{Duplicate, Items};

/// A keeper that knows who the first person is.
pub trait FirstPerson: Keep {
    /// The first person, with the key that is kept.
    fn first(&mut self, alloc: Global) -> Result<Person, KeepFault>
        ensures answer { Self.is_honest self.new ≡ true → (s : State) → Self.holds self.old s
            → IfOk result (λ person. person_at s.world 1 ≡ Some person) }
        ensures same { IsStill (Self.holds self.old) (Self.after_stop self.old)
            (Self.holds self.new) (Self.after_stop self.new) }
        ensures failed { Self.has_failed self.new ≡ is_store result }
        ensures honest { Self.is_honest self.new ≡ true → Self.is_honest self.old ≡ true };
}

impl<S: Alter> FirstPerson for SqlKeep<S> {
    fn first(&mut self, alloc: Global) -> Result<Person, KeepFault> {
        self.first_person(alloc)
    }
}

/// Gives a new key by one call of the first person, and prints on a line the key, where it was made, or else the body of the reply. A
/// refusal changes nothing, and its body is printed. Errors: `NotOurs` where the first person has no key, and those of the keeper and
/// the writer.
pub fn give_key<K: FirstPerson, W: Write>(
    alloc: Global,
    keep: K,
    asked: &NewKey,
    writer: &mut W,
) -> (Desk<K>, Result<Ending, Fault>)
    ensures given { K.is_honest result.0 ≡ true → (s : State) → K.holds keep s
        → IfOk result.1 (IsGiven asked.now s (K.holds result.0) (W.contents writer.old)
        (W.contents writer.new)) }
    ensures held { K.is_honest result.0 ≡ true → (s : State) → K.holds keep s
        → HoldsGiven s asked.now (K.holds result.0) }
    ensures stands { K.is_honest result.0 ≡ true → (s : State) → K.holds keep s
        → Only s (K.after_stop keep) → (call : Call) → call_in s asked.now ≡ Some call
        → StandsAfter s (call ∷ []) (calls_made result.1) (K.holds result.0)
        (K.after_stop result.0) }
    ensures front { K.is_honest result.0 ≡ true → (s : State) → K.holds keep s → (call : Call)
        → call_in s asked.now ≡ Some call
        → OnErr result.1 (AppendsFront (W.contents writer.old) (W.contents writer.new)
        (given_text asked.now (reply s [] call))) }
    ensures silent { IfErr result.1 (λ fault. fault ≢ WriteFailed → writer.new ≡ writer.old) }
    ensures ours { IsErrOf result.1 NotOurs → K.is_honest result.0 ≡ true → (s : State)
        → K.holds keep s → call_in s asked.now ≡ None }
    ensures honest { K.is_honest result.0 ≡ true → K.is_honest keep ≡ true }
    ensures fault { IfErr result.1 (λ fault. is_of_giving fault ≡ true) }
    ensures store { IsErrOf result.1 Store → K.has_failed result.0 ≡ true }
{
    let mut keep = keep;
    let made = call_for(alloc, &mut keep, asked);
    let mut desk = Desk::new(keep);
    match made {
        Ok(call) => {
            let end = make_call(alloc, &mut desk, asked, &call, writer);
            (desk, end)
        }
        Err(fault) => (desk, Err(fault)),
    }
}

/// The call that gives the key.
fn call_for<K: FirstPerson>(alloc: Global, keep: &mut K, asked: &NewKey) -> Result<Call, Fault>
    ensures call { K.is_honest keep.new ≡ true → (s : State) → K.holds keep.old s
        → IfOk result (λ call. call_in s asked.now ≡ Some call) }
    ensures same { IsStill (K.holds keep.old) (K.after_stop keep.old) (K.holds keep.new)
        (K.after_stop keep.new) }
    ensures honest { K.is_honest keep.new ≡ true → K.is_honest keep.old ≡ true }
    ensures unmade { IfErr result (λ fault. calls_made (Err fault) ≡ 0) }
    ensures ours { IsErrOf result NotOurs → K.is_honest keep.new ≡ true → (s : State)
        → K.holds keep.old s → call_in s asked.now ≡ None }
    ensures fault { IfErr result (λ fault. is_of_giving fault ≡ true) }
    ensures store { IsErrOf result Store → K.has_failed keep.new ≡ true }
{
    match keep.first(alloc) {
        Ok(first) => call_of(alloc, first, asked),
        Err(KeepFault::Memory) => Err(Fault::Memory),
        Err(KeepFault::Store) => Err(Fault::Store),
    }
}

fn call_of(alloc: Global, first: Person, asked: &NewKey) -> Result<Call, Fault>
    ensures call { (s : State) → person_at s.world 1 ≡ Some first
        → IfOk result (λ call. call_in s asked.now ≡ Some call) }
    ensures unmade { IfErr result (λ fault. calls_made (Err fault) ≡ 0) }
    ensures ours { (s : State) → person_at s.world 1 ≡ Some first → IsErrOf result NotOurs
        → call_in s asked.now ≡ None }
    ensures fault { IfErr result (λ fault. is_of_giving fault ≡ true) }
    ensures store { result ≢ Err Store }
{
    let Person { name, key } = first;
    match key {
        Some(own) => Ok(call_by(alloc, asked, name, own)?),
        None => Err(Fault::NotOurs),
    }
}

fn call_by(alloc: Global, asked: &NewKey, name: Name, own: Key) -> Result<Call, AllocError>
    ensures { IfOk result (λ call. call ≡ call_by asked.now name own) }
{
    let content = content_by(alloc, asked, &name, &own)?;
    let command = command_by(asked, &name, &own)?;
    Ok(Call {
        member: name,
        key: own,
        id: asked.id,
        moment: asked.at,
        content,
        command,
    })
}

fn content_by(
    alloc: Global,
    asked: &NewKey,
    name: &Name,
    own: &Key,
) -> Result<Items<u8>, AllocError>
    ensures { IfOk result (λ content. content ≡ content_by asked.now name.now own.now) }
{
    let key = asked.key.as_str();
    let mut text = String::new(alloc);
    if name.as_str() == asked.name.as_str() {
        let own = own.as_str();
        write!(text, "own-key\t{own}\t{key}")?;
    } else {
        let other = asked.name.as_str();
        write!(text, "key\t{other}\t{key}")?;
    }
    Ok(Items::from_vec(Vec::from_slice(alloc, text.as_str().as_bytes())?))
}

fn command_by(asked: &NewKey, name: &Name, own: &Key) -> Result<Command, AllocError>
    ensures { IfOk result (λ command. command ≡ command_by asked.now name.now own.now) }
{
    let key = asked.key.duplicate()?;
    if name.as_str() == asked.name.as_str() {
        let old = own.duplicate()?;
        Ok(Command::OwnKey { old, new: key })
    } else {
        let name = asked.name.duplicate()?;
        Ok(Command::SetKey {
            name,
            key: Some(key),
        })
    }
}

fn make_call<K: Keep, W: Write>(
    alloc: Global,
    desk: &mut Desk<K>,
    asked: &NewKey,
    call: &Call,
    writer: &mut W,
) -> Result<Ending, Fault>
    ensures told { K.is_honest desk.new ≡ true → (s : State) → K.holds desk.old s
        → OnOk result (Appends (W.contents writer.old) (W.contents writer.new)
        (given_text asked.now (reply s [] call.now))) }
    ensures left { (s : State) → K.holds desk.old s
        → OnOk result (K.holds desk.new (plain s (once s (call.now ∷ [])))) }
    ensures held { (s : State) → K.holds desk.old s
        → K.holds desk.new s ⊎ K.holds desk.new (plain s (once s (call.now ∷ []))) }
    ensures ending { K.is_honest desk.new ≡ true → (s : State) → K.holds desk.old s
        → IfOk result (λ ending. ending ≡ ending_of (reply s [] call.now)) }
    ensures stands { (s : State) → K.holds desk.old s → Only s (K.after_stop desk.old)
        → StandsAfter s (call.now ∷ []) (calls_made result) (K.holds desk.new)
        (K.after_stop desk.new) }
    ensures front { K.is_honest desk.new ≡ true → (s : State) → K.holds desk.old s
        → OnErr result (AppendsFront (W.contents writer.old) (W.contents writer.new)
        (given_text asked.now (reply s [] call.now))) }
    ensures silent { IfErr result (λ fault. fault ≢ WriteFailed → writer.new ≡ writer.old) }
    ensures ours { result ≢ Err NotOurs }
    ensures honest { K.is_honest desk.new ≡ true → K.is_honest desk.old ≡ true }
    ensures fault { IfErr result (λ fault. is_of_giving fault ≡ true) }
    ensures store { IsErrOf result Store → K.has_failed desk.new ≡ true }
{
    match desk.handle(alloc, call) {
        Ok(reply) => print_given(writer, asked, &reply),
        Err(KeepFault::Memory) => Err(Fault::Memory),
        Err(KeepFault::Store) => Err(Fault::Store),
    }
}

fn print_given<W: Write>(writer: &mut W, asked: &NewKey, reply: &Reply) -> Result<Ending, Fault>
    ensures told { OnOk result
        (Appends (W.contents writer.old) (W.contents writer.new) (given_text asked.now reply.now)) }
    ensures front { OnErr result (AppendsFront (W.contents writer.old) (W.contents writer.new)
        (given_text asked.now reply.now)) }
    ensures ending { IfOk result (λ ending. ending ≡ ending_of reply.now) }
    ensures fault { IfErr result (λ fault. fault ≡ WriteFailed) }
{
    if asked.is_made && reply.number == 0 {
        print_line(writer, asked.key.as_str())?;
    } else {
        print_line(writer, reply.body.as_str())?;
    }
    Ok(ending_of(reply))
}
