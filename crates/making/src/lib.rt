// Making a letter of entries: the question behind `odif::make`. Entries are judged in order, then the letter is measured, and only then is
// anything written.
#![tactic(auto)]

ghost use Rattle.std.specs.Prelude.{◌≡◌, ◌+◌, ◌*◌, ◌<◌, ◌≤◌, length, replicate};
ghost use Rattle.making.specs.Entries.{judge_entries};
ghost use Rattle.making.specs.Answers.{reason_of, MakeOutcome};
ghost use Rattle.making.specs.Keeps.{Roomy};
ghost use Rattle.making.specs.Flat.{entry_width, span_at, entry_at, entries_of};

use answers::{Reason, Written};
use contents::Span;
use octets::STREAM_LIMIT;

mod rules; // rules.rt: the refusals of entries
mod writing; // writing.rt: how long a letter is, and its octets

// An entry that a letter is made of: where its identifier, its portion and its text stand in the buffer.
#[derive(Clone, Copy)]
pub struct Entry {
    pub identifier: Span,
    pub portion: Span,
    pub text: Span,
}

// Numbers an entry.
const ENTRY_WIDTH: usize = 6;

// How many entries are judged in the small frame.
const FEW_ENTRIES: usize = 128;

const TOO_LONG: u32 = normal::TOO_LONG as u32;

const OUTPUT_TOO_SHORT: u32 = normal::OUTPUT_TOO_SHORT as u32;

// A first and past among the numbers.
fn span_at(numbers: &[u32], at: usize) -> Span
    requires { at + 1 < length numbers.now }
    ensures { result ≡ span_at numbers.now at }
{
    Span {
        first: numbers[at] as usize,
        past: numbers[at + 1] as usize,
    }
}

// Entry k of those that are lent.
fn entry_at(numbers: &[u32], k: usize) -> Entry
    requires { k * entry_width + entry_width ≤ length numbers.now }
    ensures { result ≡ entry_at numbers.now k }
{
    let at = k * ENTRY_WIDTH;
    Entry {
        identifier: span_at(numbers, at),
        portion: span_at(numbers, at + 2),
        text: span_at(numbers, at + 4),
    }
}

// The refusal of entries, with scratch of so many numbers: a function, and so a frame, for each size.
fn judge_in<const ROWS: usize, const LINKS: usize>(
    buffer: &[u8],
    numbers: &[u32],
) -> Result<(), Reason>
    requires room { Roomy numbers.now (replicate ROWS 0) (replicate LINKS 0) }
    requires small { (ROWS ≤ 24564) × (LINKS ≤ 6145) }
    ensures { result ≡ reason_of (judge_entries buffer.now (entries_of numbers.now)) }
{
    let mut rows = [0u32; ROWS];
    let mut index = [0u16; LINKS];
    rules::judge_entries(buffer, numbers, &mut rows, &mut index)
}

// The refusal of entries: its number and place, if there is one. Scratch for few entries is soon cleared; the other is for as many as fit.
fn judge(buffer: &[u8], numbers: &[u32]) -> Result<(), Reason>
    ensures { result ≡ reason_of (judge_entries buffer.now (entries_of numbers.now)) }
{
    if numbers.len() / ENTRY_WIDTH <= FEW_ENTRIES {
        return judge_in::<1536, 385>(buffer, numbers);
    }
    judge_in::<24564, 6145>(buffer, numbers)
}

// Makes a letter of the entries that the numbers give, whose parts stand in the buffer. Nothing is written to an output that is too short.
pub fn make(buffer: &[u8], numbers: &[u32], out: &mut [u8]) -> Written
    ensures { MakeOutcome buffer.now (entries_of numbers.now) out.old result out.new }
{
    if let Err(refused) = judge(buffer, numbers) {
        return Written {
            number: refused.number,
            place: refused.place,
            length: 0,
        };
    }
    let size = writing::measure(numbers);
    if STREAM_LIMIT < size {
        return Written {
            number: TOO_LONG,
            place: 0,
            length: 0,
        };
    }
    if out.len() < size {
        return Written {
            number: OUTPUT_TOO_SHORT,
            place: 0,
            length: 0,
        };
    }
    let length = writing::put_letter(buffer, numbers, out);
    Written {
        number: 0,
        place: 0,
        length: length as u32,
    }
}
