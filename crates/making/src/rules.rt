// The refusals of entries: 27, 14, 15 and 9 in this order within each, entries in order.
ghost use Rattle.std.specs.Prelude.{◌≡◌, ◌+◌, ◌*◌, ◌<◌, ◌≤◌, length};
ghost use Rattle.std.proofs.Math.Seq.{slice};
ghost use Rattle.names.specs.Hash.{hash};
ghost use Rattle.rows.specs.Rows.{scratch_width};
ghost use Rattle.rows.specs.Columns.{identifier_column, Bounded};
ghost use Rattle.rows.specs.Index.{links_of, Filed};
ghost use Rattle.elements.specs.ElementRows.{bytes_in};
ghost use Rattle.making.specs.Entries.{said_by, inside, parts_inside, all_spelt, judge_entries};
ghost use Rattle.making.specs.Answers.{reason_of};
ghost use Rattle.making.specs.Flat.{entries_of};
ghost use Rattle.making.specs.Lent.{PartLies};
ghost use Rattle.making.specs.Keeps.{TellsUsed, Rules, KeepsOn, Roomy};

use super::{ENTRY_WIDTH, Entry, entry_at};
use answers::Reason;
use contents::Span;
use names::{Asked, LONGEST_IDENTIFIER};

const OUTSIDE: u32 = 27;

const MISSPELT: u32 = 14;

const USED_BEFORE: u32 = 15;

const TOO_MANY: u32 = 9;

// The most entries of a letter: with the profile they are 4,095 elements, and one more would be 4,097.
const MOST_ENTRIES: usize = 2047;

// The kind of a block, a layout object, as a row has it.
const BLOCK: u32 = rows::LAYOUT_OBJECT as u32;

// Whether a part lies in the buffer.
fn lies(buffer: &[u8], part: Span) -> bool
    ensures { result ≡ inside buffer.now part }
{
    if part.first <= part.past {
        return part.past <= buffer.len();
    }
    false
}

// 27: whether all parts of an entry do.
fn parts_lie(buffer: &[u8], entry: Entry) -> bool
    ensures { result ≡ parts_inside buffer.now entry }
{
    if lies(buffer, entry.identifier) {
        if lies(buffer, entry.portion) {
            return lies(buffer, entry.text);
        }
    }
    false
}

// 14: whether the names of an entry are well spelt, and its unit identifier is not too long.
fn is_well_spelt(buffer: &[u8], entry: Entry) -> bool
    requires { PartLies buffer.now entry.identifier × PartLies buffer.now entry.portion }
    ensures { result ≡ all_spelt (said_by buffer.now entry) }
{
    let identifier = entry.identifier;
    let portion = entry.portion;
    if names::is_identifier(&buffer[identifier.first..identifier.past]) {
        if names::is_portion(&buffer[portion.first..portion.past]) {
            let size = identifier.past - identifier.first + 1 + (portion.past - portion.first);
            return size <= LONGEST_IDENTIFIER;
        }
    }
    false
}

// 15: whether one of the n entries that are done has the identifier, whose hash is `hashed`.
fn is_used(
    buffer: &[u8],
    rows: &[u32],
    index: &[u16],
    n: usize,
    identifier: Span,
    hashed: usize,
) -> bool
    requires bounded { Bounded buffer.now rows.now identifier_column n × Filed buffer.now rows.now identifier_column index.now n }
    requires part_lies { PartLies buffer.now identifier × (hashed ≡ hash (bytes_in buffer.now identifier)) }
    ensures { TellsUsed buffer.now rows.now index.now n identifier result }
{
    let asked = Asked {
        front: &buffer[identifier.first..identifier.past],
        back: None,
    };
    rows::find(
        buffer,
        rows,
        index,
        n,
        rows::IDENTIFIER,
        rows::OBJECTS,
        hashed,
        asked,
    )
    .is_some()
}

// The refusal of entry n, after those that are done; if there is none, the hash of its identifier.
fn rule(buffer: &[u8], rows: &[u32], index: &[u16], n: usize, entry: Entry) -> Result<usize, u32>
    requires { Bounded buffer.now rows.now identifier_column n × Filed buffer.now rows.now identifier_column index.now n }
    ensures { Rules buffer.now rows.now index.now n entry result }
{
    if !parts_lie(buffer, entry) {
        return Err(OUTSIDE);
    }
    if !is_well_spelt(buffer, entry) {
        return Err(MISSPELT);
    }
    let identifier = entry.identifier;
    let hashed = names::hash_over(&buffer[identifier.first..identifier.past], 0);
    if is_used(buffer, rows, index, n, identifier, hashed) {
        return Err(USED_BEFORE);
    }
    if MOST_ENTRIES <= n {
        return Err(TOO_MANY);
    }
    Ok(hashed)
}

// Keeps the identifier of entry n, which has passed: a row of the kind of a block, and its place in the index.
fn keep(
    buffer: &[u8],
    rows: &mut [u32],
    index: &mut [u16],
    n: usize,
    first: u32,
    past: u32,
    hashed: usize,
)
    requires bounded { Bounded buffer.now rows.old identifier_column n × Filed buffer.now rows.old identifier_column index.old n }
    requires scratch_width_in_bounds { (n * scratch_width + scratch_width ≤ length rows.old) × (n + 1 < length (links_of index.old)) × (n < 2047) }
    requires first_le_past { (first ≤ past) × (past ≤ length buffer.now) × (hashed ≡ hash (slice first past buffer.now)) }
    ensures { KeepsOn buffer.now rows.old index.old n first past rows.new
        index.new }
{
    let at = n * rows::SCRATCH_WIDTH;
    rows[at] = BLOCK;
    rows[at + rows::IDENTIFIER] = first;
    rows[at + rows::IDENTIFIER + 1] = past;
    rows::insert(buffer, rows, index, n, rows::IDENTIFIER, hashed);
}

// Judges the entries in order: the number and place of the first refusal, if there is one.
pub fn judge_entries(
    buffer: &[u8],
    numbers: &[u32],
    rows: &mut [u32],
    index: &mut [u16],
) -> Result<(), Reason>
    requires { Roomy numbers.now rows.old index.old }
    ensures { result ≡ reason_of (judge_entries buffer.now (entries_of numbers.now)) }
{
    for k in 0..numbers.len() / ENTRY_WIDTH {
        match rule(buffer, rows, index, k, entry_at(numbers, k)) {
            Err(number) => return Err(Reason {
                number,
                place: k as u32,
            }),
            Ok(hashed) => {
                let at = k * ENTRY_WIDTH;
                keep(buffer, rows, index, k, numbers[at], numbers[at + 1], hashed);
            }
        }
    }
    Ok(())
}
