// The headers that lie in a block one after another, with their values: read where they stand, in one loop, with the state's numbers in locals.
ghost use Rattle.std.specs.Prelude.{◌≡◌, true, ◌+◌, ◌-◌, ◌<◌, ◌≤◌, min, length};
ghost use Rattle.blocks.specs.Engine.{limit_of};
ghost use Rattle.headers.specs.Head.{head_at};
ghost use Rattle.engine.specs.Stored.{opens_of};
ghost use Rattle.engine.specs.Skimming.{FineIfReading, Turns, GoesOn, Reads, Skims, Before, Settles, left_by};

use super::{Blocks, Moved, ends};
use headers::Head;
use octets::DEEPEST;

// Where a block lies in a letter of so many octets: its place `from` is the letter's place `base`, and it has `size` octets.
#[derive(Clone, Copy)]
pub struct Seat {
    pub total: usize,
    pub base: usize,
    pub from: usize,
    pub size: usize,
}

// Where the skimming of a block stands: the next header is at `i` of the block, or past its end, inside `level` open items. The run that is
// read there goes on to `stop` of the block, and waits for a closing mark if it is `marked`; a `stop` that is not past `i` tells
// nothing. Or there is a finding, and then all of the block is taken. (Its number and place stay as the state has them, 0 for none: an Option
// would be no plainer, since `left` would take it apart again at once.)
#[derive(Clone, Copy)]
pub struct Skim {
    pub level: usize,
    pub i: usize,
    pub stop: usize,
    pub marked: bool,
    pub headers: u32,
    pub number: u32,
    pub place: u32,
}

// The skimming goes on.
fn going(level: usize, i: usize, stop: usize, marked: bool, headers: u32) -> Skim
    ensures { result ≡ record { level = level; i = i; stop = stop; marked = marked; headers = headers; number = 0; place = 0 } }
{
    Skim {
        level,
        i,
        stop,
        marked,
        headers,
        number: 0,
        place: 0,
    }
}

// A finding: what is left of the block is only counted.
fn finding(s: Skim, size: usize, number: u32, place: u32) -> Skim
    ensures { result ≡ record { level = s.level; i = size; stop = 0; marked = s.marked; headers = s.headers; number = number; place = place } }
{
    Skim {
        i: size,
        stop: 0,
        number,
        place,
        ..s
    }
}

// The place in the block where the run inside so many open items ends.
fn stop_at(ends: &[u32; 16], level: usize, seat: Seat) -> usize
    requires { (level ≤ 16) × (seat.total ≤ 1048576) × (seat.from ≤ 1048576) }
    ensures { (result ≡ seat.from + (limit_of seat.total (opens_of level ends.now) - seat.base))
        × (limit_of seat.total (opens_of level ends.now) ≤ 2147483647) }
{
    let limit = ends::limit_at(ends, level, seat.total);
    seat.from + limit.saturating_sub(seat.base)
}

// The skimming goes on at i, inside so many open items.
fn go_on(ends: &[u32; 16], seat: Seat, level: usize, i: usize, headers: u32) -> Skim
    requires { (level ≤ 16) × (seat.total ≤ 1048576) × (seat.from ≤ 1048576) }
    ensures { GoesOn seat ends.now level i headers result }
{
    let stop = stop_at(ends, level, seat);
    let marked = ends::marked_at(ends, level);
    going(level, i, stop, marked, headers)
}

// What the header at i of a block does, up to the next header. An item that is primitive, or in which nothing stands, leaves nothing open.
fn skim_one(ends: &mut [u32; 16], s: Skim, seat: Seat, block: &[u8], head: Head) -> Skim
    requires { Reads seat ends.old s block.now × (head ≡ head_at block.now s.i s.stop s.marked (16 - s.level)) }
    ensures { Skims seat s ends.old block.now result ends.new }
{
    match head {
        Head::Item(h) => {
            if h.code / 32 % 2 != 1 {
                return going(s.level, h.bound, s.stop, s.marked, s.headers + 1);
            }
            if h.start == h.bound {
                if !h.marked {
                    return going(s.level, h.bound, s.stop, s.marked, s.headers + 1);
                }
            }
            let n = s.level;
            ends[n] = ends::end_of(seat.base + (h.bound - seat.from), h.marked);
            going(n + 1, h.start, h.bound, h.marked, s.headers + 1)
        }
        Head::ClosingMark => {
            let next = s.i + 2;
            going(s.level.saturating_sub(1), next, next, s.marked, s.headers)
        }
        Head::Refusal { number, place } => finding(
            s,
            seat.size,
            number as u32,
            (seat.base + (s.i - seat.from)) as u32,
        ),
    }
}

// Closes the items that end where the next header is, if that lies in the block.
fn settled(ends: &[u32; 16], s: Skim, seat: Seat) -> Skim
    requires { Before seat ends.now s }
    ensures { Settles seat ends.now s result }
{
    if s.i < s.stop {
        return s;
    }
    if s.number != 0 {
        return s;
    }
    if seat.size < s.i {
        return s;
    }
    match ends::close_ended(ends, s.level, seat.base + (s.i - seat.from)) {
        Ok(level) => go_on(ends, seat, level, s.i, s.headers),
        Err(unclosed) => finding(s, seat.size, 7, unclosed.place),
    }
}

// Whether the engine stands before a header of which nothing has come.
fn is_ready(b: Blocks) -> bool
    ensures { result ≡ true → (b.number ≡ 0) × (b.have ≡ 0) × (b.at ≡ b.taken) }
{
    b.number == 0 && b.have == 0 && b.at == b.taken
}

// The state in which the skimming of a block leaves the engine.
fn left(b: Blocks, ends: [u32; 16], s: Skim, seat: Seat) -> Moved
    requires { (seat.from ≤ s.i) × (seat.from ≤ seat.size) × (seat.base + (s.i - seat.from) ≤ 4294967295) }
    ensures { (result.state ≡ left_by seat b.begun ends s) × (result.to ≡ min s.i seat.size) }
{
    let to = s.i.min(seat.size);
    let begun = b.begun;
    Moved {
        state: Blocks {
            total: seat.total,
            taken: seat.base + (to - seat.from),
            at: seat.base + (s.i - seat.from),
            level: s.level,
            headers: s.headers,
            number: s.number,
            place: s.place,
            have: 0,
            ends,
            begun,
        },
        to,
    }
}

// The headers that lie in the block one after another, with their values. (A header tells the place of the next: the loop goes over no range.)
pub fn skim_block(b: Blocks, block: &[u8], from: usize) -> Moved
    requires { FineIfReading b × (from ≤ length block.now) × (b.taken + (length block.now - from) ≤ b.total) × (length block.now ≤ b.total) }
    ensures { Turns b block.now from result.state result.to }
{
    if !is_ready(b) {
        return Moved { state: b, to: from };
    }
    let seat = Seat {
        total: b.total,
        base: b.at,
        from,
        size: block.len(),
    };
    let mut ends = b.ends;
    let mut s = go_on(&ends, seat, b.level, from, b.headers);
    if s.stop <= from {
        return Moved { state: b, to: from };
    }
    while s.i + 8 <= seat.size {
        let head = headers::head_at(block, s.i, s.stop, s.marked, DEEPEST - s.level);
        let k = skim_one(&mut ends, s, seat, block, head);
        s = settled(&ends, k, seat);
    }
    left(b, ends, s, seat)
}
