//! A head that is not whole yet, judged line by line, so that no byte is judged again when more of them come.
ghost use Rattle.std.specs.Prelude.{◌≡◌, ◌≢◌, ◌<◌, ◌≤◌, ◌-◌, ℕ, length, slice_index, MatchOption, IfSome, true, false};
ghost use Rattle.httparse.specs.Grammar.{LineEnd, print_end};
ghost use Rattle.tb_http.specs.Head.{line_feed};
ghost use Rattle.tb_http.specs.OpenHead.{IsLine, IsOpenHead, Leads};
ghost use Rattle.tb_http.specs.Wire.{IsOpen};

use httparse::Status;
use httparse::spans::{HeaderSpan, parse_headers, parse_request};

/// How far the lines of a head were read.
#[derive(Drop)]
pub struct OpenHead {
    /// Where the last line begins.
    pub line: usize,
    /// Up to where the last line has no end.
    pub searched: usize,
    /// Whether the request line is before the last line.
    pub is_in_fields: bool,
}

impl OpenHead {
    /// Nothing was read.
    pub fn new() -> OpenHead
        ensures { result ≡ record { line = 0; searched = 0; is_in_fields = false } }
    {
        OpenHead {
            line: 0,
            searched: 0,
            is_in_fields: false,
        }
    }

    /// Searches what came for the end of the last line, up to the first one.
    #[inline]
    pub fn search(&mut self, held: &[u8])
        requires { IsOpenHead held.now self.old }
        ensures { IsOpenHead held.now self.new }
    {
        self.searched = feed_at(held, self.searched);
    }
}

// Where the first line ends that has its end behind an offset.
#[inline]
fn line_end(bytes: &[u8], from: usize) -> Option<usize>
    requires { from ≤ length bytes.now }
    ensures { MatchOption result
        ((k : ℕ) → from ≤ k → k < length bytes.now → slice_index bytes.now k ≢ line_feed)
        (λ end. (from < end) × (end ≤ length bytes.now)
        × (slice_index bytes.now (end - 1) ≡ line_feed)
        × ((k : ℕ) → from ≤ k → k < end - 1 → slice_index bytes.now k ≢ line_feed)) }
{
    let mut end = from;
    while end < bytes.len() {
        if bytes[end] == b'\n' {
            return Some(end + 1);
        }
        end += 1;
    }
    None
}

// Where the first line feed is from an offset on, or else the end.
#[inline]
fn feed_at(bytes: &[u8], from: usize) -> usize
    requires { from ≤ length bytes.now }
    ensures within { (from ≤ result) × (result ≤ length bytes.now) }
    ensures none { (k : ℕ) → from ≤ k → k < result → slice_index bytes.now k ≢ line_feed }
{
    match line_end(bytes, from) {
        Some(end) => end - 1,
        None => bytes.len(),
    }
}

fn is_empty_line(line: &[u8]) -> bool
    requires { IsLine line.now }
    ensures empty { result ≡ true → (end : LineEnd) × (line.now ≡ print_end end) }
    ensures full { result ≡ false → (end : LineEnd) → line.now ≢ print_end end }
{
    line.len() == 1 || (line.len() == 2 && line[0] == b'\r')
}

// Whether the request line is read behind this line. None where a head may be whole or bad with it.
fn read_line(line: &[u8], is_in_fields: bool, room: &mut [HeaderSpan]) -> Option<bool>
    requires { IsLine line.now }
    ensures { IfSome result (λ after. Leads is_in_fields after line.now) }
{
    if is_in_fields {
        return match parse_headers(line, room) {
            Ok(Status::Partial) => Some(true),
            _ => None,
        };
    }
    if is_empty_line(line) {
        return Some(false);
    }
    match parse_request(line, room) {
        Ok(Status::Partial) => Some(true),
        _ => None,
    }
}

/// Reads the lines that are new, and says whether the head is open still. If not it may be whole or bad.
pub fn stays_open(held: &[u8], so_far: &mut OpenHead, room: &mut [HeaderSpan]) -> bool
    requires { IsOpenHead held.now so_far.old }
    ensures read { IsOpenHead held.now so_far.new }
    ensures stays { result ≡ true → IsOpen held.now }
{
    while let Some(end) = line_end(held, so_far.searched) {
        let line = &held[so_far.line..end];
        let Some(is_in_fields) = read_line(line, so_far.is_in_fields, room) else {
            return false;
        };
        *so_far = OpenHead {
            line: end,
            searched: end,
            is_in_fields,
        };
    }
    so_far.searched = held.len();
    true
}
