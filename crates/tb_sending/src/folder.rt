//! The folder of the key file as orders see it, and what is kept in it while the key changes.
ghost use Rattle.std.specs.Prelude.{◌≡◌, ◌++◌, ◌∷◌, ℕ, [], IfErr, IfOk, IfSome, List, OnOk, true};
ghost use Rattle.std.specs.Str.{trim_end};
ghost use Rattle.tb_board.specs.Names.{is_key, read_key};
ghost use Rattle.tb_sending.specs.Changing.{is_changed};
ghost use Rattle.tb_sending.specs.Faults.{is_of_sending};
ghost use Rattle.tb_sending.specs.Folder.{IsIn, IsKept, key_name, new_name};

use crate::beside::{Begun, Beside, begun_text, read_beside};
use std::alloc::{AllocError, Global};
use tb_board::Key;
use tb_client::Reply;
use tb_command_line::SendOrder;
use tb_program::Fault;

const KEY: &str = "key";

const NEW: &str = "key.new";

/// The files of a folder.
pub trait Folder {
    ghost use Rattle.std.specs.Prelude.{◌≡◌, ◌≢◌, false, IfErr, IfSome, List, OnOk, true, ℕ};
    ghost use Rattle.std.specs.String.{string_bytes};
    ghost use Rattle.tb_sending.specs.Faults.{is_of_sending};

    /// The file of this name has this text, whole and synced, and its owner alone may read it.
    ghost has: { Self → List ℕ → List ℕ → Type 0 };

    /// There is no file of this name.
    ghost lacks: { Self → List ℕ → Type 0 };

    /// Whether there is a file of this name, or may be one.
    fn is_there(&self, name: &str) -> bool
        ensures { result ≡ false → lacks self.now name.now };

    /// The text of a file, unless others may read or write it.
    fn text(&self, name: &str) -> Option<String>
        ensures { IfSome result (λ text. has self.now name.now (string_bytes text)) };

    /// Waits until no other order changes this key, and keeps others from it while this value lives.
    fn hold(&mut self);

    /// Gives a file this text. At each moment it has its old text or the new one.
    fn put(&mut self, name: &str, text: &str) -> Result<(), Fault>
        ensures put { OnOk result (has self.new name.now text.now) }
        ensures others { (other kept : List ℕ) → other ≢ name.now → has self.old other kept
            → has self.new other kept }
        ensures fault { IfErr result (λ fault. is_of_sending fault ≡ true) };

    fn remove(&mut self, name: &str) -> Result<(), Fault>
        ensures removed { OnOk result (lacks self.new name.now) }
        ensures others { (other kept : List ℕ) → other ≢ name.now → has self.old other kept
            → has self.new other kept }
        ensures fault { IfErr result (λ fault. is_of_sending fault ≡ true) };
}

/// Whether no change is begun.
pub(crate) fn has_no_change<F: Folder>(folder: &F) -> bool
    ensures { result ≡ true → F.lacks folder.now new_name }
{
    !folder.is_there(NEW)
}

/// The key in the key file, if its owner alone may read it.
pub(crate) fn key_in<F: Folder>(alloc: Global, folder: &F) -> Result<Option<Key>, AllocError>
    ensures { IfOk result (λ found. IfSome found (λ key. is_key key ≡ true)) }
{
    match folder.text(KEY) {
        Some(text) => key_in_file(alloc, text.as_str()),
        None => Ok(None),
    }
}

/// The key that the text of a file is, without the white space at its end.
pub fn key_in_file(alloc: Global, text: &str) -> Result<Option<Key>, AllocError>
    ensures { IfOk result (λ found. found ≡ read_key (trim_end text.now)) }
{
    Key::read(alloc, text.trim_end())
}

/// What `key.new` is to an order.
pub(crate) fn beside_in<F: Folder>(
    alloc: Global,
    folder: &F,
    order: &SendOrder,
) -> Result<Beside, Fault>
    ensures is { IfOk result (IsIn F.has F.lacks folder.now order.now) }
    ensures fault { IfErr result (λ fault. is_of_sending fault ≡ true) }
{
    if has_no_change(folder) {
        return Ok(Beside::Nothing);
    }
    match folder.text(NEW) {
        Some(text) => Ok(read_beside(alloc, order, text.as_str())?),
        None => Err(Fault::Store),
    }
}

/// Keeps a change in `key.new`, before it is sent.
pub(crate) fn keep<F: Folder>(
    alloc: Global,
    folder: &mut F,
    order: &SendOrder,
    begun: &Begun,
) -> Result<(), Fault>
    ensures kept { OnOk result (IsKept F.has folder.new order.now begun.now) }
    ensures fault { IfErr result (λ fault. is_of_sending fault ≡ true) }
{
    let text = begun_text(alloc, order, begun)?;
    folder.put(NEW, text.as_str())
}

/// Moves the new key into place, since the change was accepted.
pub(crate) fn put_in_place<F: Folder>(
    alloc: Global,
    folder: &mut F,
    order: &SendOrder,
    begun: &Begun,
    reply: &Reply,
) -> Result<(), Fault>
    requires { is_changed order.now.member reply.now ≡ true }
    ensures placed { OnOk result (F.has folder.new key_name (begun.now.key ++ 10 ∷ [])) }
    ensures forgotten { OnOk result (F.lacks folder.new new_name) }
    ensures fault { IfErr result (λ fault. is_of_sending fault ≡ true) }
{
    let text = format!(in alloc; "{}\n", begun.key.as_str())?;
    folder.put(KEY, text.as_str())?;
    forget(folder)
}

/// Forgets a change whose key is in place.
pub(crate) fn forget<F: Folder>(folder: &mut F) -> Result<(), Fault>
    ensures forgotten { OnOk result (F.lacks folder.new new_name) }
    ensures placed { (key : List ℕ) → F.has folder.old key_name key
        → F.has folder.new key_name key }
    ensures fault { IfErr result (λ fault. is_of_sending fault ≡ true) }
{
    folder.remove(NEW)
}
