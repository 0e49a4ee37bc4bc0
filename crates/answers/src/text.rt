// The whole reading of a side of a letter: the texts of its matches, one after another, and where each ends. They are measured before any is written.
ghost use Rattle.std.specs.Prelude.{◌≡◌, ◌++◌, ◌*◌, ◌≤◌, length, drop};
ghost use Rattle.octets.specs.Walk.{stream_limit};
ghost use Rattle.tree.specs.Tree.{tree_of};
ghost use Rattle.tree.specs.Accepts.{Accepts};
ghost use Rattle.letters.specs.Lent.{rows_needed};
ghost use Rattle.rows.specs.Index.{BothFiled};
ghost use Rattle.letters.specs.Scratch.{LetterRows};
ghost use Rattle.text_lines.specs.Text.{texts_of};
ghost use Rattle.text_lines.specs.Flat.{records_from, PutsTexts};
ghost use Rattle.answers.specs.Text.{text_in, text_refused, text_read_from};
ghost use Rattle.answers.specs.TextSteps.{Listing, TextsFlat};

use super::content::fetch_judged;
use super::list::find_matches;
use super::table::TABLE_WIDTH;
use super::{COPY_TOO_SHORT, Listed, TextRead, table};
use elements::Edition;
use letters::Held;
use reading::Side;

// How many octets the text of a unit has. To measure and to put is a pass each: nothing is put before all texts are known to have room.
fn text_length(edition: Edition, stream: &[u8], rows: &[u32], count: usize, unit: usize) -> usize
    requires accepts { Accepts stream.now (tree_of stream.now) }
    requires letter_rows { LetterRows edition stream.now rows.now count }
    ensures { result ≡ length (text_in edition stream.now unit) }
{
    match fetch_judged(edition, stream, unit, rows, count) {
        Some(Held::Part { first, past }) => past - first,
        Some(Held::Pieces { run }) => pieces::joined_length(stream, run),
        None => 0,
    }
}

// Puts the text of a unit to the start of the output, and says how many octets it has. Output past it stays.
fn put_text(
    edition: Edition,
    stream: &[u8],
    rows: &[u32],
    count: usize,
    unit: usize,
    out: &mut [u8],
) -> usize
    requires accepts { Accepts stream.now (tree_of stream.now) }
    requires letter_rows { LetterRows edition stream.now rows.now count }
    requires unit_in_bounds { length (text_in edition stream.now unit) ≤ length out.old }
    ensures value { result ≡ length (text_in edition stream.now unit) }
    ensures out_after { out.new ≡ text_in edition stream.now unit ++ drop result out.old }
{
    match fetch_judged(edition, stream, unit, rows, count) {
        Some(Held::Part { first, past }) => pieces::copy(&stream[first..past], out),
        Some(Held::Pieces { run }) => pieces::put_joined(stream, run, out),
        None => 0,
    }
}

// How many octets the texts of the first matches have in all. A match is three numbers, of which the last is its unit.
fn measure(
    edition: Edition,
    stream: &[u8],
    rows: &[u32],
    count: usize,
    numbers: &[u32],
    lines: usize,
) -> usize
    requires accepts { Accepts stream.now (tree_of stream.now) }
    requires letter_rows { LetterRows edition stream.now rows.now count }
    requires listing { Listing edition stream.now numbers.now lines }
    ensures { result ≡ length (texts_of (text_in edition stream.now) (records_from numbers.now 0 lines)) }
{
    let mut total = 0;
    for k in 0..lines {
        let unit = numbers[3 * k + 2] as usize;
        total += text_length(edition, stream, rows, count, unit);
    }
    total
}

// Puts the texts of the first matches one after another, and after the matches where each text ends.
fn put_texts(
    edition: Edition,
    stream: &[u8],
    rows: &[u32],
    count: usize,
    numbers: &mut [u32],
    lines: usize,
    out: &mut [u8],
)
    requires accepts { Accepts stream.now (tree_of stream.now) }
    requires letter_rows { LetterRows edition stream.now rows.now count }
    requires listing { Listing edition stream.now numbers.old lines }
    requires lines_in_bounds { length (texts_of (text_in edition stream.now) (records_from numbers.old 0 lines)) ≤ length out.old }
    ensures { PutsTexts (text_in edition stream.now) numbers.old lines out.old numbers.new
        out.new }
{
    let mut done = 0;
    for k in 0..lines {
        let unit = numbers[3 * k + 2] as usize;
        done += put_text(edition, stream, rows, count, unit, &mut out[done..]);
        numbers[3 * lines + k] = done as u32;
    }
}

// What is answered where a whole reading is refused.
fn refuse(number: u32, place: u32, elements: u32) -> TextRead
    ensures { result ≡ text_refused number place elements }
{
    TextRead {
        number,
        place,
        elements,
        lines: 0,
        length: 0,
    }
}

// What is answered, by the answer of the list and by how many octets the texts have and the output: the list's refusal, then 22.
fn answer(listed: Listed, needed: usize, lent: usize) -> TextRead
    requires { needed ≤ stream_limit }
    ensures { result ≡ text_read_from listed needed lent }
{
    if listed.number != 0 {
        return refuse(listed.number, listed.place, listed.elements);
    }
    if lent < needed {
        return refuse(COPY_TOO_SHORT, 0, 0);
    }
    TextRead {
        number: 0,
        place: 0,
        elements: listed.elements,
        lines: listed.matches,
        length: needed as u32,
    }
}

// The whole reading of a side of a letter, its lines as numbers. Nothing that was lent is written before the answer is known. A refused list has no
// matches, so nothing is measured of it; a refused reading has no lines, so nothing is put.
pub fn text_judged(
    edition: Edition,
    stream: &[u8],
    side: Side,
    room: usize,
    rows: &[u32],
    index: &[u16],
    count: usize,
    table: &mut [u32],
    numbers: &mut [u32],
    out: &mut [u8],
) -> TextRead
    requires accepts { Accepts stream.now (tree_of stream.now) }
    requires letter_rows { LetterRows edition stream.now rows.now count }
    requires both_filed { BothFiled stream.now rows.now index.now count }
    requires stream_in_bounds { 4 * rows_needed stream.now ≤ length numbers.old }
    ensures { TextsFlat edition side stream.now table.old room out.old result table.new numbers.new
        out.new }
{
    let lent = table.len() / TABLE_WIDTH;
    let listed = find_matches(
        edition, stream, side, room, rows, index, count, lent, numbers,
    );
    let found = listed.matches as usize;
    let needed = measure(edition, stream, rows, count, numbers, found);
    let shown = answer(listed, needed, out.len());
    let names = rows::identifiers(index);
    table::finish(edition, stream, rows, names, count, shown.number, table);
    let lines = shown.lines as usize;
    put_texts(edition, stream, rows, count, numbers, lines, out);
    shown
}
