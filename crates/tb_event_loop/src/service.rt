//! What answers the messages of many connections.
ghost use Rattle.std.specs.Prelude.{◌≡◌, ℕ, Bool, List, [], ◌∷◌, ◌++◌, IsErr, is_err, false, true};
ghost use Rattle.tb_event_loop.specs.Done.{Done};
ghost use Rattle.tb_event_loop.specs.History.{done_of};

use tb_rooms::Written;

/// The store failed, so no further message is answered.
#[derive(Clone, Copy, Debug, PartialEq, Eq)]
pub struct StoreFailed;

/// What may happen to the connection in a place.
#[derive(Clone, Copy)]
pub enum SocketEvent<'a> {
    /// The one that was there ended. Another that is opened has nothing of it.
    Opened,
    /// These bytes came.
    Came(&'a [u8]),
    /// It has its turn: its next message is answered, if it is whole.
    Turn,
    /// So many bytes of its answer went.
    Went(usize),
}

/// The connections of a server, but for their sockets: what came of each, and what each is still to be sent.
pub trait Service {
    /// One service comes of another by what was done to the connections of places, in this order. Where the first is true, the store
    /// failed at the end.
    ghost follows: { Bool → List (ℕ × Done) → Self → Self → Type 0 };

    /// The store has failed.
    ghost has_failed: { Self → Bool };

    /// What came to the connection in a place and is of no message yet that was answered.
    ghost held_at: { Self → ℕ → List ℕ };

    /// What it is still to be sent.
    ghost owed_at: { Self → ℕ → List ℕ };

    /// The message that is held has so many bytes in all, or its head was not read and this is 0.
    ghost wants: { Self → ℕ → ℕ → Type 0 };

    /// Whether no further message of it is answered.
    ghost closes_at: { Self → ℕ → Bool };

    /// Whether a file of the page has this target, so that no message to it is asked for a key.
    ghost gives_file: { Self → List ℕ → Bool };

    ghost unchanged: { (s : Self) → follows false [] s s };

    ghost joined: { (stopped : Bool) (first more : List (ℕ × Done)) (a b c : Self)
        → follows false first a b → follows stopped more b c
        → follows stopped (first ++ more) a c };

    /// One thing happens to the connection in a place.
    fn happen(&mut self, place: usize, happening: &SocketEvent<'_>) -> Result<(), StoreFailed>
        ensures after { follows (is_err result)
            ((place, done_of happening.now) ∷ []) self.old self.new }
        ensures failed { IsErr result → has_failed self.new ≡ true };

    /// What came and is of no message yet that was answered.
    fn held(&self, place: usize) -> &[u8]
        ensures { result.now ≡ held_at self.now place };

    /// What is still to be sent. All of it stands.
    fn unsent(&self, place: usize) -> &[u8]
        ensures { result.now ≡ owed_at self.now place };

    /// Whether the head of the message that is held is whole.
    fn has_head(&self, place: usize) -> bool;

    /// How many bytes the message that is held has in all, once its head was read, and else 0.
    fn wanted(&self, place: usize) -> usize
        ensures { wants self.now place result };

    /// How many bytes calls have written since the start.
    fn written(&self) -> Written;

    /// Whether a file of the page has this target.
    fn is_file(&self, target: &[u8]) -> bool
        ensures { result ≡ gives_file self.now target.now };

    /// Whether no further message is answered.
    fn is_closing(&self, place: usize) -> bool
        ensures { result ≡ closes_at self.now place };
}
