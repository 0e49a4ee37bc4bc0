// A header that is cut: its octets are kept until it has come, and then it is read as the walk reads it (`headers::read_head`).
ghost use Rattle.std.specs.Prelude.{◌≡◌, false, [], ◌∷◌, ◌++◌, ◌+◌, ◌-◌, ◌<◌, ◌≤◌, length, take};
ghost use Rattle.headers.specs.Head.{octet_at};
ghost use Rattle.blocks.specs.Engine.{further, field_size, wanted, whole, arrive, moved, decide, in_header};
ghost use Rattle.engine.specs.Stored.{state_of};
ghost use Rattle.engine.specs.Skimming.{opens, with_standing, Comes, Lying, Numbered};

use super::{Blocks, ends};
use headers::Head;
use octets::DEEPEST;

// On the way to the next header, and there.
pub fn arrived(mut b: Blocks) -> Blocks
    requires { (b.number ≡ 0) × (b.level ≤ 16) }
    ensures { Comes b (arrive b.taken b.headers (opens b) b.at) result }
{
    b.have = 0;
    if b.at != b.taken {
        return b;
    }
    match ends::close_ended(&b.ends, b.level, b.at) {
        Ok(level) => b.level = level,
        Err(unclosed) => {
            b.level = unclosed.level;
            b.number = 7;
            b.place = unclosed.place;
        }
    }
    b
}

// One item more is open, and its value starts.
fn open_item(mut b: Blocks, start: usize, bound: usize, marked: bool) -> Blocks
    requires { (b.number ≡ 0) × (b.level < 16) × (bound ≤ 2147483647) }
    ensures { Comes b (arrive b.taken b.headers (record { bound = bound; marked = marked } ∷ opens b) start) result }
{
    let n = b.level;
    b.ends[n] = ends::end_of(bound, marked);
    b.level = n + 1;
    b.at = start;
    arrived(b)
}

// What a header that was read from the octets kept does.
fn decided(mut b: Blocks, limit: usize, head: Head) -> Blocks
    requires { (b.number ≡ 0) × (b.level ≤ 16) × (b.headers ≤ 1048576) × (limit ≤ 2147483647)
        × Lying (limit - b.at) (16 - b.level) head × Numbered head × (b.at ≤ 1048576) }
    ensures { (state_of result ≡ with_standing b (decide b.taken b.headers (opens b) b.at (moved b.at head)))
        × (result.level ≤ 16) × (result.have ≤ 7) × (result.headers ≤ b.headers + 1) }
{
    let at = b.at;
    match head {
        Head::Item(h) => {
            b.headers = b.headers + 1;
            if h.code / 32 % 2 == 1 {
                return open_item(b, at + h.start, at + h.bound, h.marked);
            }
            b.at = at + h.bound;
            arrived(b)
        }
        Head::ClosingMark => {
            b.at = at + 2;
            b.level = b.level.saturating_sub(1);
            arrived(b)
        }
        Head::Refusal { number, place } => {
            b.number = number as u32;
            b.place = at as u32;
            b.have = 0;
            b
        }
    }
}

// How many length octets follow the first one.
fn further_of(first: u8) -> usize
    ensures { (result ≡ further first) × (result ≤ 4) }
{
    match first {
        0x81..=0x84 => (first - 0x80) as usize,
        _ => 0,
    }
}

// An octet of those kept, or 0 if it has not come.
fn octet_of(kept: &[u8], i: usize) -> u8
    ensures { result ≡ octet_at kept.now i }
{
    kept.get(i).copied().unwrap_or(0)
}

// How many octets the type field has of a header of which these octets are kept, as far as they tell.
fn field_size_of(kept: &[u8]) -> usize
    ensures { (result ≡ field_size kept.now) × (result ≤ 3) }
{
    if octet_of(kept, 0) % 32 != 31 {
        return 1;
    }
    if octet_of(kept, 1) < 0x80 {
        return 2;
    }
    3
}

// How many octets the header has.
fn wanted_of(kept: &[u8]) -> usize
    ensures { (result ≡ wanted kept.now) × (result ≤ 8) }
{
    let field = field_size_of(kept);
    field + 1 + further_of(octet_of(kept, field))
}

// Whether the header has come.
fn is_whole(kept: &[u8], left: usize) -> bool
    ensures { (result ≡ whole kept.now left) × (result ≡ false → length kept.now < 8) }
{
    wanted_of(kept).min(left) <= kept.len()
}

// One octet more of a header, which has been counted.
pub fn header_octet(mut b: Blocks, octet: u8) -> Blocks
    requires { (b.number ≡ 0) × (b.level ≤ 16) × (b.have ≤ 7) × (b.headers ≤ 1048576) × (b.total ≤ 1048576) × (b.at ≤ 1048576) }
    ensures { (state_of result ≡ with_standing b (in_header b.total b.taken b.headers (opens b) b.at (take b.have b.begun ++ (octet ∷ []))))
        × (result.level ≤ 16) × (result.have ≤ 7) × (result.headers ≤ b.headers + 1) }
{
    let n = b.have as usize;
    b.begun[n] = octet;
    b.have = b.have + 1;
    let limit = ends::limit_at(&b.ends, b.level, b.total);
    let left = limit.saturating_sub(b.at);
    if !is_whole(&b.begun[..n + 1], left) {
        return b;
    }
    let marked = ends::marked_at(&b.ends, b.level);
    let head = headers::read_head(&b.begun, 0, left, marked, DEEPEST - b.level);
    decided(b, limit, head)
}
