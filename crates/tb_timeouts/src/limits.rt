//! How many connections there are at once, and how long each may take.

/// The limits of connections. Times are in milliseconds.
#[derive(Clone, Copy, Debug, PartialEq, Eq)]
pub struct Limits {
    /// From one message to the next.
    pub idle: u64,
    /// From the first byte of a message to the end of its head.
    pub head: u64,
    /// From the first byte of a message to its last.
    pub message: u64,
    /// From the moment at which an answer is there to that at which it is taken.
    pub answer: u64,
    /// From one part of an answer that is taken to the next.
    pub part: u64,
    /// From the last answer to the end.
    pub closing: u64,
    /// How many reads there are behind the last answer.
    pub closing_reads: u32,
    /// How long a message that was begun keeps its place.
    pub spared: u64,
}

/// How many connections there are at once.
pub const CONNECTIONS: usize = 512;

/// The limits of the server.
pub const LIMITS: Limits = Limits {
    idle: 120_000,
    head: 30_000,
    message: 60_000,
    answer: 60_000,
    part: 30_000,
    closing: 1_000,
    closing_reads: 4_096,
    spared: 5_000,
};
