// Where the octets of a content stand: the places of its pieces, counted, and put as records of three numbers (line, first, past). Each function over a run
// calls itself for the run inside a 24 or a 30, a level deeper.
#![tactic(auto)]

ghost use Rattle.std.specs.Prelude.{◌≡◌, [], ◌∷◌, ◌++◌, ◌+◌, ◌*◌, ◌≤◌, length, drop};
ghost use Rattle.std.proofs.lemmas.List.Edits.{sets};
ghost use Rattle.octets.specs.Walk.{stream_limit};
ghost use Rattle.runs.specs.Runs.{items_of, Fine};
ghost use Rattle.sources.specs.Places.{places_of};
ghost use Rattle.sources.specs.Sources.{source_width, place_numbers};

use runs::Run;

mod side; // side.rt: the sources of all lines of a side
mod unit; // unit.rt: the places of one element

pub use side::{count_sources, put_sources};

// How many numbers a record has.
pub const SOURCE_WIDTH: usize = 3;

// How many pieces of a run have octets. To count is no twin of to put, here and in unit.rt: it needs no list, which is made only by what is
// counted.
fn count_places(s: &[u8], r: Run) -> usize
    requires { Fine s.now r }
    ensures { result ≡ length (places_of (items_of s.now r)) }
{
    let mut cur = r;
    let mut n: usize = 0;
    while let Some(item) = runs::meet(s, cur) {
        cur = item.rest;
        if item.code / 32 % 2 == 1 {
            n += count_places(s, item.inner);
        } else if item.first < item.past {
            n += 1;
        }
    }
    n
}

// Puts one record.
fn put_source(list: &mut [u32], at: usize, line: u32, first: u32, past: u32)
    requires { at + source_width ≤ length list.old }
    ensures { list.new ≡ sets list.old at (line ∷ first ∷ past ∷ []) }
{
    list[at..at + SOURCE_WIDTH].copy_from_slice(&[line, first, past]);
}

// Puts a record for each piece of a run that has octets to the start of the list, and says how many numbers that are. What is past them stays.
fn put_places(s: &[u8], r: Run, line: u32, list: &mut [u32]) -> usize
    requires fine { Fine s.now r × (length s.now ≤ stream_limit) }
    requires r_in_bounds { source_width * length (places_of (items_of s.now r)) ≤ length list.old }
    ensures value { result ≡ source_width * length (places_of (items_of s.now r)) }
    ensures list_after { list.new ≡ place_numbers line (places_of (items_of s.now r)) ++ drop result list.old }
{
    let mut cur = r;
    let mut done: usize = 0;
    while let Some(item) = runs::meet(s, cur) {
        cur = item.rest;
        if item.code / 32 % 2 == 1 {
            done += put_places(s, item.inner, line, &mut list[done..]);
        } else if item.first < item.past {
            put_source(list, done, line, item.first as u32, item.past as u32);
            done += SOURCE_WIDTH;
        }
    }
    done
}
