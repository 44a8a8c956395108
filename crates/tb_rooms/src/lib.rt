//! How much each person's calls may write, and how many keys may be tried: decisions over numbers that need no socket.
//! All moments are milliseconds of a clock that doesn't go back. The crate stands on `tb_values` and `tb_timeouts`.
#![tactic(auto)]

mod bucket;
mod claims;
mod holding;
pub mod laws;
mod ledger;
mod rates;
mod yielding;

pub use bucket::{Bucket, Rate};
pub use claims::{Claim, Claims};
pub use holding::{Hold, ROOMS, Rooms, STRANGER, has_turns_left, is_let_in, may_turn, most_held};
pub use ledger::{Account, Ledger};
pub use rates::{Asking, Rates, Written};
pub use yielding::{gives_answer_way, gives_room_way, gives_way};
