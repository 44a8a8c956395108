//! What a connection is doing, and since when.
ghost use Rattle.std.specs.Prelude.{◌≡◌, ◌+◌};
ghost use Rattle.tb_timeouts.specs.Stage.{begun_at, end_of, has_read_enough, idle_since, is_over, is_vacant, next_stage, read_stage, taken_at, taken_stage, takes_bytes, waiting_since, waiting_stage};

use crate::limits::Limits;

/// What a connection is doing, and since when.
#[derive(Clone, Copy, Debug, PartialEq, Eq)]
pub enum Stage {
    /// No connection is in this place.
    Vacant,
    /// It is between two messages.
    Idle { since: u64 },
    /// The head of a message has begun.
    Heading { begun: u64 },
    /// The head of a message is there, and its body isn't.
    Reading { begun: u64 },
    /// A message may be answered later.
    Waiting { since: u64 },
    /// An answer is there to be taken.
    Answering { since: u64, taken: u64 },
    /// The last answer is taken, and what the client still sends is thrown away.
    Closing { since: u64, reads: u32 },
}

/// What a connection needs next.
#[derive(Clone, Copy, Debug, PartialEq, Eq)]
pub enum Need {
    Message,
    RestOfHead,
    RestOfBody,
    /// That the client takes an answer.
    Taker,
    /// That the client ends it.
    End,
}

impl Stage {
    /// The stage behind this one where the connection needs this.
    pub fn next(self, need: Need, now: u64) -> Stage
        ensures { result ≡ next_stage now need self }
    {
        match (need, self) {
            (Need::Message, Stage::Idle { since }) => Stage::Idle { since },
            (Need::Message, _) => Stage::Idle { since: now },
            (Need::RestOfHead, Stage::Heading { begun }) => Stage::Heading { begun },
            (Need::RestOfHead, _) => Stage::Heading { begun: now },
            (Need::RestOfBody, Stage::Heading { begun }) => Stage::Reading { begun },
            (Need::RestOfBody, Stage::Reading { begun }) => Stage::Reading { begun },
            (Need::RestOfBody, _) => Stage::Reading { begun: now },
            (Need::Taker, Stage::Answering { since, taken }) => Stage::Answering { since, taken },
            (Need::Taker, _) => Stage::Answering {
                since: now,
                taken: now,
            },
            (Need::End, Stage::Closing { since, reads }) => Stage::Closing { since, reads },
            (Need::End, _) => Stage::Closing {
                since: now,
                reads: 0,
            },
        }
    }

    /// The stage of a connection whose message may be answered later.
    pub fn waiting(self, now: u64) -> Stage
        ensures { result ≡ waiting_stage now self }
    {
        match self {
            Stage::Waiting { since } => Stage::Waiting { since },
            _ => Stage::Waiting { since: now },
        }
    }

    /// The stage once a part of the answer was taken.
    pub fn part_taken(self, now: u64) -> Stage
        ensures { result ≡ taken_stage now self }
    {
        match self {
            Stage::Answering { since, taken: _ } => Stage::Answering { since, taken: now },
            _ => self,
        }
    }

    /// The stage once bytes behind the last answer were thrown away.
    pub fn bytes_dropped(self) -> Stage
        ensures { result ≡ read_stage self }
    {
        match self {
            Stage::Closing { since, reads } => Stage::Closing {
                since,
                reads: reads.saturating_add(1),
            },
            _ => self,
        }
    }

    /// Whether it has stayed too long, or sent too much behind the last answer.
    pub fn is_over(self, limits: &Limits, now: u64) -> bool
        ensures { result ≡ is_over limits.now now self }
    {
        if self.has_read_enough(limits) {
            return true;
        }
        match self.end(limits) {
            Some(end) => end <= u128::from(now),
            None => false,
        }
    }

    fn has_read_enough(self, limits: &Limits) -> bool
        ensures { result ≡ has_read_enough limits.now self }
    {
        match self {
            Stage::Closing { since: _, reads } => reads >= limits.closing_reads,
            _ => false,
        }
    }

    /// Whether no connection is in this place.
    pub fn is_vacant(self) -> bool
        ensures { result ≡ is_vacant self }
    {
        self == Stage::Vacant
    }

    /// Whether the bytes that come are of a message.
    pub fn takes_bytes(self) -> bool
        ensures { result ≡ takes_bytes self }
    {
        match self {
            Stage::Idle { since: _ }
            | Stage::Heading { begun: _ }
            | Stage::Reading { begun: _ }
            | Stage::Waiting { since: _ } => true,
            Stage::Vacant
            | Stage::Answering { since: _, taken: _ }
            | Stage::Closing { since: _, reads: _ } => false,
        }
    }

    /// The moment at which it has stayed too long.
    pub(crate) fn end(self, limits: &Limits) -> Option<u128>
        ensures { result ≡ end_of limits.now self }
    {
        match self {
            Stage::Vacant => None,
            Stage::Idle { since } => Some(sum(since, limits.idle)),
            Stage::Heading { begun } => Some(sum(begun, limits.head)),
            Stage::Reading { begun } => Some(sum(begun, limits.message)),
            Stage::Waiting { since } => Some(sum(since, limits.idle)),
            Stage::Answering { since, taken } => {
                Some(sum(since, limits.answer).min(sum(taken, limits.part)))
            }
            Stage::Closing { since, reads: _ } => Some(sum(since, limits.closing)),
        }
    }

    /// Since when it is between two messages.
    pub fn idle_since(self) -> Option<u128>
        ensures { result ≡ idle_since self }
    {
        match self {
            Stage::Idle { since } => Some(u128::from(since)),
            _ => None,
        }
    }

    /// When the message was begun that isn't whole.
    pub fn begun_at(self) -> Option<u128>
        ensures { result ≡ begun_at self }
    {
        match self {
            Stage::Heading { begun } | Stage::Reading { begun } => Some(u128::from(begun)),
            _ => None,
        }
    }

    /// Since when its message waits to be answered.
    pub fn waiting_since(self) -> Option<u128>
        ensures { result ≡ waiting_since self }
    {
        match self {
            Stage::Waiting { since } => Some(u128::from(since)),
            _ => None,
        }
    }

    /// When a part of its answer was taken last, or when it was made.
    pub fn taken_at(self) -> Option<u128>
        ensures { result ≡ taken_at self }
    {
        match self {
            Stage::Answering { since: _, taken } => Some(u128::from(taken)),
            _ => None,
        }
    }
}

fn sum(moment: u64, time: u64) -> u128
    ensures { result ≡ moment + time }
{
    u128::from(moment) + u128::from(time)
}
