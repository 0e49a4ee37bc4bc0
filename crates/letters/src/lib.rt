// The judge of a whole stream: elements in order, rules 9 to 15 in order within each; and the rows of its table.
#![tactic(auto)]

ghost use Rattle.std.specs.Prelude.{◌≡◌, ◌≤◌, ltb, length};
ghost use Rattle.octets.specs.Walk.{stream_limit};
ghost use Rattle.runs.specs.Runs.{items_of, whole_stream, tops, Fine};
ghost use Rattle.letters.specs.Scratch.{GivesVerdict};
ghost use Rattle.letters.specs.Lent.{Lent, end_verdict};

use elements::Edition;
use headers::Refusal;
use judging::PlacedItem;
use runs::Run;

mod content; // content.rt: one element again, and where its content stands
mod writing; // writing.rt: rows, to the scratch and to a table

pub use content::{content_of, element_at};
pub use writing::copy_numbers;

// Where the content of an element stands: a part of the stream, or a run of pieces. Both are found places of their own kind, none of them missing or
// a failure, so this is neither an Option nor a Result.
#[derive(Clone, Copy)]
pub enum Held {
    Part { first: usize, past: usize },
    Pieces { run: Run },
}

// Whether a stream that the walk has passed has more elements than so many. Whoever judges it sizes the scratch by that; no more of
// them are passed than it takes to tell.
pub fn has_more(s: &[u8], most: usize) -> bool
    requires { Fine s.now (whole_stream s.now) }
    ensures { result ≡ ltb most (tops (items_of s.now (whole_stream s.now))) }
{
    let mut cur = runs::whole_stream(s);
    let mut left = most;
    while let Some(item) = runs::meet(s, cur) {
        if left == 0 {
            return true;
        }
        left -= 1;
        cur = item.rest;
    }
    false
}

fn at_end(n: usize) -> Result<usize, Refusal>
    ensures { result ≡ end_verdict n }
{
    if n == 0 {
        return Err(Refusal {
            number: 11,
            place: 0,
        });
    }
    Ok(n)
}

// Judges the elements of a stream that the walk has passed, and says how many it has. The scratch then holds the rows of an accepted one and their indexes.
pub fn judge_stream(
    edition: Edition,
    s: &[u8],
    rows: &mut [u32],
    index: &mut [u16],
    bounds: &mut [u32],
) -> Result<usize, Refusal>
    requires fine { Fine s.now (whole_stream s.now) × (length s.now ≤ stream_limit) }
    requires lent { Lent s.now rows.old index.old bounds.old }
    ensures { GivesVerdict edition s.now rows.new index.new result }
{
    let mut cur = runs::whole_stream(s);
    let mut n: usize = 0;
    while let Some(item) = runs::meet(s, cur) {
        let element = PlacedItem {
            code: item.code,
            first: cur.at,
            past: item.rest.at,
            inner: item.inner,
        };
        match judging::judge_element(edition, s, rows, index, bounds, n, element) {
            Err(number) => return Err(Refusal {
                number,
                place: cur.at,
            }),
            Ok(judged) => {
                writing::add_row(s, rows, index, n, judged.row, judged.hashes);
                n += 1;
                cur = item.rest;
            }
        }
    }
    at_end(n)
}
