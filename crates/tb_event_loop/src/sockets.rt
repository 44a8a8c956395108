//! The sockets of the loop: a listener, and a connection in each place.
ghost use Rattle.std.specs.Io.{ReadsAtMost, WritesAtMost};
ghost use Rattle.std.specs.IoError.{error_kind};
ghost use Rattle.std.specs.Prelude.{◌≡◌, ℕ, List, [], ◌∷◌, ◌++◌, IfErr, IfOk, false, take, true};
ghost use Rattle.tb_event_loop.specs.Sockets.{Called, accepted, closed, deaf, dropped, read, seated, shut, unaccepted, unread, unwritten, waited, wrote};

use std::io;

/// What the system tells of a socket.
#[derive(Clone, Copy)]
pub struct Told {
    /// The place of a connection, or none of the listener.
    pub place: Option<usize>,
    pub is_readable: bool,
    pub is_writable: bool,
    pub is_read_closed: bool,
    pub is_error: bool,
}

/// A listener, the one that it accepted last, and the connections in places.
pub trait Sockets {
    ghost use Rattle.tb_event_loop.specs.declared.sockets.Told.{Told};

    /// Sockets come of others by these calls, in this order.
    ghost follows: { List Called → Self → Self → Type 0 };

    /// What the last wait told.
    ghost last_told: { Self → List Told };

    ghost unchanged: { (n : Self) → follows [] n n };

    ghost joined: { (first more : List Called) (a b c : Self) → follows first a b
        → follows more b c → follows (first ++ more) a c };

    /// Waits until a socket is ready, or so many milliseconds are over. False where the system doesn't tell.
    fn wait(&mut self, millis: u64) -> bool
        ensures heard { result ≡ true
            → follows (waited millis (last_told self.new) ∷ []) self.old self.new }
        ensures deaf { result ≡ false → follows (deaf ∷ []) self.old self.new };

    fn told(&self) -> &[Told]
        ensures { result.now ≡ last_told self.now };

    /// Accepts a connection, and keeps it aside.
    fn accept(&mut self) -> io::Result<()>
        ensures came { IfOk result (λ done. follows (accepted ∷ []) self.old self.new) }
        ensures failed { IfErr result
            (λ e. follows (unaccepted (error_kind e) ∷ []) self.old self.new) };

    /// Puts the one that was kept aside into a place. False where the system won't tell of it.
    fn seat(&mut self, place: usize) -> bool
        ensures { follows (seated place result ∷ []) self.old self.new };

    /// Reads once: none came where the client sends no more.
    fn read(&mut self, place: usize, piece: &mut [u8]) -> io::Result<usize>
        ensures bound { ReadsAtMost result piece.new }
        ensures came { IfOk result
            (λ count. follows (read place (take count piece.new) ∷ []) self.old self.new) }
        ensures failed { IfErr result
            (λ e. follows (unread place (error_kind e) ∷ []) self.old self.new) };

    /// Reads once, and throws it away.
    fn drop_some(&mut self, place: usize) -> io::Result<usize>
        ensures came { IfOk result
            (λ count. follows (dropped place count ∷ []) self.old self.new) }
        ensures failed { IfErr result
            (λ e. follows (unread place (error_kind e) ∷ []) self.old self.new) };

    /// Writes once: so many bytes at the front were taken.
    fn write(&mut self, place: usize, bytes: &[u8]) -> io::Result<usize>
        ensures bound { WritesAtMost result bytes.now }
        ensures went { IfOk result
            (λ count. follows (wrote place (take count bytes.now) ∷ []) self.old self.new) }
        ensures failed { IfErr result
            (λ e. follows (unwritten place (error_kind e) ∷ []) self.old self.new) };

    /// Nothing more is sent to the connection in a place.
    fn stop_sending(&mut self, place: usize)
        ensures { follows (shut place ∷ []) self.old self.new };

    /// Lets go of the connection in a place.
    fn close(&mut self, place: usize)
        ensures { follows (closed place ∷ []) self.old self.new };
}
