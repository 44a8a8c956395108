//! The header and the frames of a log.
ghost use Rattle.std.specs.Prelude.{◌≡◌, ◌+◌, ◌≤◌, ◌↔◌, IsTrue, length};
ghost use Rattle.sqlite_wal.specs.Format.{be32, IsFrame, IsSigned, stored_sum};
ghost use Rattle.sqlite_wal.specs.Recovery.{Passes, frame, frame_at, header, sum_before};
ghost use Rattle.tb_wal.specs.Framing.{BeginsCommit, EndsCommit};

use sqlite_wal::checksum_of;

/// The length of a log's header.
pub(crate) const HEADER: usize = 32;

/// The length of a frame's header.
pub(crate) const FRAME_HEADER: usize = 24;

/// The page number of the frame with which a commit begins.
const COUNT_PAGE: u32 = 0xff00_0000;

/// Four bytes as a number, the highest first.
#[tactic(auto, unfolding(sqlite_wal::specs::Format::be32))]
pub(crate) fn number_at(bytes: &[u8], at: usize) -> u32
    requires { at + 4 ≤ length bytes.now }
    ensures { result ≡ be32 bytes.now at }
{
    let high = bytes[at] as u32 * 0x100_0000 + bytes[at + 1] as u32 * 0x1_0000;
    let low = bytes[at + 2] as u32 * 0x100 + bytes[at + 3] as u32;
    high + low
}

fn sum_at(bytes: &[u8], at: usize) -> (u32, u32)
    requires { at + 8 ≤ length bytes.now }
    ensures { result ≡ stored_sum bytes.now at }
{
    (number_at(bytes, at), number_at(bytes, at + 4))
}

/// Whether a header has SQLite's mark, and the sum of its other bytes.
pub(crate) fn is_signed(header: &[u8]) -> bool
    requires { length header.now ≡ 32 }
    ensures { IsTrue result ↔ IsSigned header.now }
{
    if header[0] != 0x37 || header[1] != 0x7f || header[2] != 0x06 {
        return false;
    }
    if header[3] / 2 != 0x82 / 2 {
        return false;
    }
    checksum_of(header[3] == 0x83, (0, 0), &header[..24]) == sum_at(header, 24)
}

/// Whether a frame belongs to the header, and has the sum of its bytes and of all before it.
fn is_frame(header: &[u8], before: (u32, u32), frame: &[u8]) -> bool
    requires header { length header.now ≡ 32 }
    requires frame { 24 ≤ length frame.now }
    ensures { IsTrue result ↔ IsFrame header.now before frame.now }
{
    if frame[8..16] != header[16..24] || number_at(frame, 0) == 0 {
        return false;
    }
    let is_big = header[3] == 0x83;
    let front = checksum_of(is_big, before, &frame[..8]);
    checksum_of(is_big, front, &frame[FRAME_HEADER..]) == sum_at(frame, 16)
}

/// The header of a log.
#[tactic(auto, unfolding(sqlite_wal::specs::Format::part))]
pub(crate) fn header_of(log: &[u8]) -> &[u8]
    requires { 32 ≤ length log.now }
    ensures header { result.now ≡ header log.now }
    ensures length { length result.now ≡ 32 }
{
    &log[..HEADER]
}

/// A frame, by its place from 0.
#[tactic(auto, unfolding(sqlite_wal::specs::Format::part, sqlite_wal::specs::Recovery::frames_len))]
fn frame_of(log: &[u8], page_size: usize, place: usize) -> &[u8]
    requires { frame_at page_size place + (24 + page_size) ≤ length log.now }
    ensures frame { result.now ≡ frame page_size log.now place }
    ensures length { length result.now ≡ 24 + page_size }
{
    let _end = log.len();
    let at = HEADER + place * (FRAME_HEADER + page_size);
    &log[at..at + (FRAME_HEADER + page_size)]
}

/// The sum that a frame goes on from.
fn sum_before(log: &[u8], page_size: usize, place: usize) -> (u32, u32)
    requires { frame_at page_size place + (24 + page_size) ≤ length log.now }
    ensures { result ≡ sum_before page_size log.now place }
{
    if place == 0 {
        return sum_at(header_of(log), 24);
    }
    sum_at(frame_of(log, page_size, place - 1), 16)
}

/// Whether a frame passes SQLite's test.
pub(crate) fn passes(log: &[u8], page_size: usize, place: usize) -> bool
    requires { frame_at page_size place + (24 + page_size) ≤ length log.now }
    ensures { IsTrue result ↔ Passes page_size log.now place }
{
    let before = sum_before(log, page_size, place);
    is_frame(header_of(log), before, frame_of(log, page_size, place))
}

/// Whether a commit begins with a frame.
pub(crate) fn begins_commit(log: &[u8], page_size: usize, place: usize) -> bool
    requires { frame_at page_size place + (24 + page_size) ≤ length log.now }
    ensures { IsTrue result ↔ BeginsCommit page_size log.now place }
{
    let page = number_at(frame_of(log, page_size, place), 0);
    passes(log, page_size, place) && page == COUNT_PAGE
}

/// Whether a frame commits.
pub(crate) fn ends_commit(log: &[u8], page_size: usize, place: usize) -> bool
    requires { frame_at page_size place + (24 + page_size) ≤ length log.now }
    ensures { IsTrue result ↔ EndsCommit page_size log.now place }
{
    let size = number_at(frame_of(log, page_size, place), 4);
    passes(log, page_size, place) && size != 0
}
