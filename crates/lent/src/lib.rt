// The scratch that a caller lends for the mailroom's question: how much a letter needs, and rules 1 to 15 judged in it. No array of elements is
// made here, so the stack stays small whatever the letter.
#![tactic(auto)]

ghost use Rattle.std.specs.Prelude.{◌≡◌, ℕ, ◌≤◌, length};
ghost use Rattle.octets.specs.Walk.{walk_of};
ghost use Rattle.octets.specs.Told.{ended};
ghost use Rattle.runs.specs.Runs.{whole_stream, Fine};
ghost use Rattle.rows.specs.Chains.{Empty};
ghost use Rattle.letters.specs.Lent.{rows_needed};
ghost use Rattle.answers.specs.Answers.{ruled};
ghost use Rattle.lent.specs.Lent.{rows_for, size_for, index_for, ruled_lent};

use answers::Reason;
use elements::Edition;

// The most elements that are counted.
const MOST_ELEMENTS: usize = judging::MOST_ELEMENTS;

const TOO_SMALL: u32 = 32;

// How many rows a stream needs that the walk has passed: no more elements are counted than can be accepted.
fn rows_needed(s: &[u8]) -> usize
    requires { Fine s.now (whole_stream s.now) }
    ensures { result ≡ rows_needed s.now }
{
    let mut cur = runs::whole_stream(s);
    let mut n: usize = 0;
    while let Some(item) = runs::meet(s, cur) {
        if n == MOST_ELEMENTS {
            return n;
        }
        n += 1;
        cur = item.rest;
    }
    n
}

// How many elements an index is made for that is to hold so many: buckets are chosen by the low bits of a hash, so it is a power of two.
// The sizes are listed as in `size_for` of specs/Lent: what `next_power_of_two` ensures leaves open which of them it is, so its proof is longer.
fn size_for(n: usize) -> usize
    ensures { result ≡ size_for n }
{
    if n <= 64 {
        return 64;
    }
    if n <= 128 {
        return 128;
    }
    if n <= 256 {
        return 256;
    }
    if n <= 512 {
        return 512;
    }
    if n <= 1024 {
        return 1024;
    }
    if n <= 2048 {
        return 2048;
    }
    4096
}

// What the caller lends holds anything.
fn clear(index: &mut [u16])
    ensures empty { Empty index.new }
    ensures index_len_unchanged { length index.new ≡ length index.old }
{
    index.fill(0);
}

// Judges the elements of a stream that the walk has passed, in scratch of which the index is as long as it is to be.
fn judge(edition: Edition, stream: &[u8], rows: &mut [u32], index: &mut [u16]) -> Reason
    requires by_index { (at : ℕ) × (headers : ℕ) × (walk_of stream.now ≡ ended at headers) }
    requires stream_in_bounds { (rows_for (rows_needed stream.now) ≤ length rows.old) × (length index.old ≡ index_for (rows_needed stream.now)) }
    ensures { result ≡ ruled edition stream.now }
{
    clear(index);
    let mut bounds = [0u32; 128];
    match letters::judge_stream(edition, stream, rows, index, &mut bounds) {
        Ok(_) => Reason {
            number: 0,
            place: 0,
        },
        Err(refusal) => Reason {
            number: refusal.number as u32,
            place: refusal.place as u32,
        },
    }
}

// What refuses a stream by rules 1 to 15, in scratch that the caller lends; 32, after rule 8, if that is too small for the elements.
// A Reason, and no Result: its numbers are those that C is told and `ruled_lent` names, 0 among them.
pub fn refused_by(edition: Edition, stream: &[u8], rows: &mut [u32], index: &mut [u16]) -> Reason
    ensures { result ≡ ruled_lent edition stream.now (length rows.old) (length index.old) }
{
    match octets::walk(stream) {
        Err(refused) => Reason {
            number: refused.number as u32,
            place: refused.place as u32,
        },
        Ok(_) => {
            let needed = rows_needed(stream);
            let size = 6 * size_for(needed) + 2;
            if rows.len() < needed * rows::SCRATCH_WIDTH {
                return Reason {
                    number: TOO_SMALL,
                    place: 0,
                };
            }
            if index.len() < size {
                return Reason {
                    number: TOO_SMALL,
                    place: 0,
                };
            }
            judge(edition, stream, rows, &mut index[..size])
        }
    }
}
