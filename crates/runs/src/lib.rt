// A run of items as a value: what is met at its start. Every pass after the walk goes through `meet`, but the normal form's writer.
#![tactic(auto)]

ghost use Rattle.std.specs.Prelude.{◌≡◌, true, ◌<◌, ◌≤◌, eqb, length};
ghost use Rattle.headers.specs.Head.{constructed};
ghost use Rattle.octets.specs.Walk.{ends, run};
ghost use Rattle.octets.specs.Values.{value_of};
ghost use Rattle.tree.specs.Accepts.{Whole};
ghost use Rattle.runs.specs.Runs.{items_of, inside_of, whole_stream, tops, Fine, Meets};

use headers::{Head, Header};
use octets::DEEPEST;

// A run of items from `at` to `limit`, or, if it is marked, to a closing mark before it; with `room` levels left.
#[derive(Clone, Copy)]
pub struct Run {
    pub at: usize,
    pub limit: usize,
    pub marked: bool,
    pub room: usize,
}

// An item that is met at the start of a run: the code of its type field, its value from `first` to `past`, the run inside it and the rest of
// the run.
#[derive(Clone, Copy)]
pub struct Met {
    pub code: usize,
    pub first: usize,
    pub past: usize,
    pub inner: Run,
    pub rest: Run,
}

// The run inside an item: a primitive has an empty one, at its end. A primitive is never marked, so the mark is copied and not
// chosen: to choose costs a stall at every item.
fn inside_of(h: Header, room: usize) -> Run
    requires { (0 < room) × (h.marked ≡ true → constructed h.code ≡ true) }
    ensures { result ≡ inside_of h room }
{
    let code = h.code;
    if code / 32 % 2 == 1 {
        Run {
            at: h.start,
            limit: h.bound,
            marked: h.marked,
            room: room - 1,
        }
    } else {
        Run {
            at: h.bound,
            limit: h.bound,
            marked: h.marked,
            room: room - 1,
        }
    }
}

// Where an item with the header h ends that is known to be whole: at its bound, or past its closing mark.
#[cycle(end_of_item_end_of_marked)]
fn end_of_item(s: &[u8], h: Header, room: usize) -> usize
    requires room_nonzero { (0 < room) × (h.start ≤ h.bound) × (h.bound ≤ length s.now) }
    requires code_value { (h.marked ≡ true → constructed h.code ≡ true) × Whole (value_of room s.now h).how }
    ensures { (value_of room s.now h).how ≡ ends result }
{
    let bound = h.bound;
    if h.marked {
        return end_of_marked(s, h.start, bound, room - 1);
    }
    bound
}

// Where an indefinite value that is known to be whole ends, past its closing mark. What is definite in it is passed in one step.
// Each item tells where the next one stands, so the loop goes over no range.
#[cycle(end_of_item_end_of_marked)]
fn end_of_marked(s: &[u8], from: usize, limit: usize, room: usize) -> usize
    requires { (from ≤ limit) × (limit ≤ length s.now) × Whole (run room s.now from limit true).how }
    ensures { (run room s.now from limit true).how ≡ ends result }
{
    let mut at = from;
    loop {
        match headers::passed_head(s, at, limit, true, room) {
            Head::Item(h) => at = end_of_item(s, h, room),
            Head::ClosingMark => return at + 2,
            Head::Refusal { .. } => return limit,
        }
    }
}

// What stands at the start of a run that is known to be whole. A definite item is passed in one step; of an indefinite one the end is looked
// for. The two are written apart: in one, each item costs a choice, and a letter takes a fourth longer. An indefinite item is constructed, so
// the run inside it is told without a test. The compiler is told to make `meet` part of each pass: as a function of its own it takes up to
// twice the time.
#[inline(always)]
pub fn meet(s: &[u8], r: Run) -> Option<Met>
    requires { Fine s.now r }
    ensures { Meets s.now r result }
{
    let at = r.at;
    let limit = r.limit;
    let marked = r.marked;
    let room = r.room;
    if at == limit {
        return None;
    }
    let Head::Item(h) = headers::passed_head(s, at, limit, marked, room) else {
        return None;
    };
    let first = h.start;
    let bound = h.bound;
    if h.marked {
        let below = room - 1;
        let next = end_of_marked(s, first, bound, below);
        return Some(Met {
            code: h.code,
            first,
            past: next - 2,
            inner: Run {
                at: first,
                limit: bound,
                marked: true,
                room: below,
            },
            rest: Run {
                at: next,
                limit,
                marked,
                room,
            },
        });
    }
    Some(Met {
        code: h.code,
        first,
        past: bound,
        inner: inside_of(h, room),
        rest: Run {
            at: bound,
            limit,
            marked,
            room,
        },
    })
}

// Whether a run that is known to be whole has no item. It is told by what stands at its start, and no item's end is looked for.
pub fn is_over(s: &[u8], r: Run) -> bool
    requires { Fine s.now r }
    ensures { result ≡ eqb (tops (items_of s.now r)) 0 }
{
    let at = r.at;
    let limit = r.limit;
    if at == limit {
        return true;
    }
    match headers::passed_head(s, at, limit, r.marked, r.room) {
        Head::Item(_) => false,
        _ => true,
    }
}

// The run of a whole stream.
pub fn whole_stream(s: &[u8]) -> Run
    ensures { result ≡ whole_stream s.now }
{
    Run {
        at: 0,
        limit: s.len(),
        marked: false,
        room: DEEPEST,
    }
}
