// X.209 on a slice: the walk of a stream, refusals 1 to 8 with the header count.
#![tactic(auto)]

ghost use Rattle.std.specs.Prelude.{◌≡◌, ◌<◌, ◌≤◌, length};
ghost use Rattle.octets.specs.Walk.{run, answer, walk_of};
ghost use Rattle.octets.specs.Further.{one_of};
ghost use Rattle.octets.specs.Values.{value_of};

use headers::{Head, Header};

// Where a walk ended past its run, and how many items passed.
#[derive(Clone, Copy)]
pub struct Ended {
    pub at: usize,
    pub count: usize,
}

// A refusal, its place, and how many items passed before it.
#[derive(Clone, Copy)]
pub struct Refused {
    pub number: usize,
    pub place: usize,
    pub count: usize,
}

pub const STREAM_LIMIT: usize = 1048576;

pub const DEEPEST: usize = 16;

// Walks the value of the item with the header h: a constructed value is a run of items. An empty one is told without a call.
#[cycle(walk_item_walk_run)]
fn walk_item(s: &[u8], h: Header, room: usize) -> Result<Ended, Refused>
    requires { (0 < room) × (h.start ≤ h.bound) × (h.bound ≤ length s.now) }
    ensures { result ≡ answer (value_of room s.now h) }
{
    let code = h.code;
    let start = h.start;
    let bound = h.bound;
    let marked = h.marked;
    if code / 32 % 2 == 1 {
        if start != bound {
            return walk_run(s, start, bound, marked, room - 1);
        }
        if marked {
            return Err(Refused {
                number: 7,
                place: bound,
                count: 0,
            });
        }
    }
    Ok(Ended {
        at: bound,
        count: 0,
    })
}

// Walks a run of items, each with a value of its own, to `limit`, or to the closing mark if it is marked.
// Each item tells where the next one stands, so the loop goes over no range.
#[cycle(walk_item_walk_run)]
fn walk_run(
    s: &[u8],
    from: usize,
    limit: usize,
    marked: bool,
    room: usize,
) -> Result<Ended, Refused>
    requires { (from ≤ limit) × (limit ≤ length s.now) }
    ensures { result ≡ answer (run room s.now from limit marked) }
{
    let mut at = from;
    let mut count: usize = 0;
    while at < limit {
        match headers::head_at(s, at, limit, marked, room) {
            Head::ClosingMark => return Ok(Ended { at: at + 2, count }),
            Head::Refusal { number, place } => return Err(Refused {
                number,
                place,
                count,
            }),
            Head::Item(h) => match walk_item(s, h, room) {
                Ok(inside) => {
                    at = inside.at;
                    count = count + 1 + inside.count;
                }
                Err(inside) => return Err(Refused {
                    count: count + 1 + inside.count,
                    ..inside
                }),
            },
        }
    }
    if marked {
        Err(Refused {
            number: 7,
            place: limit,
            count,
        })
    } else {
        Ok(Ended { at: limit, count })
    }
}

// Walks the item at `at` alone: what follows it, within the limit, is not looked at.
pub fn walk_one(s: &[u8], at: usize, limit: usize, room: usize) -> Result<Ended, Refused>
    requires { (at ≤ limit) × (limit ≤ length s.now) }
    ensures { result ≡ answer (one_of room s.now at limit) }
{
    if limit <= at {
        return Ok(Ended {
            at: limit,
            count: 0,
        });
    }
    match headers::read_head(s, at, limit, false, room) {
        Head::ClosingMark => Ok(Ended {
            at: at + 2,
            count: 0,
        }),
        Head::Refusal { number, place } => Err(Refused {
            number,
            place,
            count: 0,
        }),
        Head::Item(h) => match walk_item(s, h, room) {
            Ok(inside) => Ok(Ended {
                count: inside.count + 1,
                ..inside
            }),
            Err(inside) => Err(Refused {
                count: inside.count + 1,
                ..inside
            }),
        },
    }
}

// Walks a whole stream: refusals 1 to 8 and the header count. Any caller may ask, of any octets.
pub fn walk(s: &[u8]) -> Result<Ended, Refused>
    ensures { result ≡ walk_of s.now }
{
    if STREAM_LIMIT < s.len() {
        return Err(Refused {
            number: 1,
            place: 0,
            count: 0,
        });
    }
    walk_run(s, 0, s.len(), false, DEEPEST)
}
