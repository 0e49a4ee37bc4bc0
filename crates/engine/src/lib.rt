// The block engine: a letter that arrives block by block, and is not held. Its state is a struct by value with the ends of the open items;
// it keeps nothing else. Any caller may ask, with any state: what the crate `blocks` defines is what is answered.
#![tactic(auto)]

ghost use Rattle.std.specs.Prelude.{◌≡◌, ◌+◌, ◌≤◌, length};
ghost use Rattle.blocks.specs.Engine.{feed};
ghost use Rattle.blocks.specs.Blocks.{start};
ghost use Rattle.engine.specs.Stored.{state_of, sound, Starts, Takes, closed_of};
ghost use Rattle.engine.specs.Skimming.{FineIfReading};

use octets::{DEEPEST, STREAM_LIMIT};

mod ends; // ends.rt: the open items
mod header; // header.rt: a header that is cut, octet by octet
mod skim; // skim.rt: the headers that lie in a block
mod turn; // turn.rt: what the skimming leaves

// The state: so many octets were told and so many have come; the next header stands at `at`, inside `level` open items, and `have` octets of it
// are in `begun`; so many headers have passed. An end is stored twice, and one more if its item waits for a closing mark; the innermost
// is the last. Or there is a finding: its number, not 0, and its place. (A total may be any number, and its octets are counted.)
// It stays a struct of plain numbers, with 0 for no finding, since a C program holds it: `#[repr(C)]`.
#[repr(C)]
#[derive(Clone, Copy)]
pub struct Blocks {
    pub total: usize,
    pub taken: usize,
    pub at: usize,
    pub level: usize,
    pub headers: u32,
    pub number: u32,
    pub place: u32,
    pub have: u32,
    pub ends: [u32; 16],
    pub begun: [u8; 8],
}

// A number, 0 or a refusal, and a state. It stays a number, and no Result, since C reads it: `#[repr(C)]`.
#[repr(C)]
#[derive(Clone, Copy)]
pub struct Taken {
    pub number: u32,
    pub state: Blocks,
}

// What the walk of a letter tells: its number and place, and the header count. It stays three numbers, since C reads it: `#[repr(C)]`.
#[repr(C)]
#[derive(Clone, Copy)]
pub struct Walked {
    pub number: u32,
    pub place: u32,
    pub headers: u32,
}

// A state, and the place in a block up to which its octets were taken.
#[derive(Clone, Copy)]
pub struct Moved {
    pub state: Blocks,
    pub to: usize,
}

const TOO_LONG: u32 = 1;

// The greatest number that a finding has.
const LAST_FINDING: u32 = 8;

const PAST_TOTAL: u32 = 28;

const EARLY: u32 = 29;

// The refusal of a total: 1 if it is too long.
fn refusal_of(total: usize) -> u32
    ensures { result ≡ (start total).number }
{
    if STREAM_LIMIT < total {
        return TOO_LONG;
    }
    0
}

// A letter of so many octets, of which none has come: 1 if they are too many.
pub fn start(total: usize) -> Taken
    ensures { Starts total result }
{
    let number = refusal_of(total);
    Taken {
        number,
        state: Blocks {
            total,
            taken: 0,
            at: 0,
            level: 0,
            headers: 0,
            number,
            place: 0,
            have: 0,
            ends: [0; 16],
            begun: [0; 8],
        },
    }
}

// Whether the engine can go on with a state: every state that it gave is so. With a finding, 1 to 8, octets are only counted.
fn is_sound(b: Blocks) -> bool
    ensures { result ≡ sound b }
{
    if b.number != 0 {
        return b.number <= LAST_FINDING;
    }
    b.level <= DEEPEST && b.have <= 7 && b.headers as usize <= b.taken && b.total <= STREAM_LIMIT
}

// The state after a block that is not past the total. (Each turn tells the place of the next, so the loop goes over no range.)
fn fed(b: Blocks, block: &[u8]) -> Blocks
    requires { FineIfReading b × (b.taken + length block.now ≤ b.total) }
    ensures { FineIfReading result × (state_of result ≡ feed (state_of b) block.now) }
{
    let n = block.len();
    let first = skim::skim_block(b, block, 0);
    let mut s = first.state;
    let mut i = first.to;
    while i < n {
        let m = turn::turn(s, block, i);
        let k = skim::skim_block(m.state, block, m.to);
        s = k.state;
        i = k.to;
    }
    s
}

// Takes a block: 28 if it is past the total, and then the state is as it was. So it is with a state that the engine can't go on with.
pub fn take(b: Blocks, block: &[u8]) -> Taken
    ensures { Takes b block.now result }
{
    if !is_sound(b) || b.total < b.taken || b.total - b.taken < block.len() {
        return Taken {
            number: PAST_TOTAL,
            state: b,
        };
    }
    Taken {
        number: 0,
        state: fed(b, block),
    }
}

// The close: what the walk of the letter tells, or 29 if not all octets have come. The state stays with the caller, who may go on with it.
pub fn close(b: Blocks) -> Walked
    ensures { record { number = result.number; place = result.place; headers = result.headers } ≡ closed_of b }
{
    if !is_sound(b) || b.taken != b.total {
        return Walked {
            number: EARLY,
            place: 0,
            headers: 0,
        };
    }
    let place = if b.number == 0 { 0 } else { b.place };
    Walked {
        number: b.number,
        place,
        headers: b.headers,
    }
}
