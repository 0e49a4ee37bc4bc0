// The lister's whole output, put line by line on a page that has room for the longest.
ghost use Rattle.std.specs.Prelude.{◌≡◌, ◌+◌, ◌*◌, ◌<◌, ◌≤◌, length, take};
ghost use Rattle.lister_text.specs.Lines.{accepted, refused, unreadable, WritesLine};
ghost use Rattle.answers.specs.Table.{table_width};
ghost use Rattle.answers.specs.Answers.{checked, matches_in, CheckOutcome, ListOutcome};
ghost use Rattle.hexlister.specs.Output.{rows_lent, records_lent, table_room, lent_table, lent_list, match_line, match_lines, side_lines, accepted_lines};
ghost use Rattle.hexlister.specs.Output.{stream_lines};
ghost use Rattle.hexlister.specs.Pages.{line_room, elements_room, side_room, page_room, PutsOnPage, row_line, row_lines};
ghost use Rattle.hexlister.specs.Inputs.{read_lines};
ghost use Rattle.lister_hex.specs.Blocks.{finished};

use answers::TABLE_WIDTH;
use lister_hex::{INPUT_LIMIT, State};
use lister_text::LINE_ROOM;
use odif::{Checked, Edition, Listed};
use reading::{Match, Side};
use rows::WHOLE;

// What is lent to the questions.
const ROWS: usize = 1024;

const RECORDS: usize = 1024;

// Room for a line of the whole stream, one for each row, and one for each record of either side.
pub const PAGE_ROOM: usize = (1 + ROWS + 2 * RECORDS) * LINE_ROOM;

// What the list of a side answers, and the list.
#[derive(Clone, Copy)]
struct SideList {
    answer: Listed,
    records: [Match; RECORDS],
}

// Asks the list of a side on an array of its own, and hands it back by value: whoever calls this needs no reference to a record.
fn list_side(stream: &[u8], side: Side, table: &mut [u32]) -> SideList
    ensures { ListOutcome Edition.Of1988 side stream.now table.old lent_list result.answer table.new result.records }
{
    let mut records = [Match {
        element: 0,
        portion: 0,
        unit: 0,
    }; RECORDS];
    let answer = odif::list(Edition::Of1988, stream, side, table, &mut records);
    SideList { answer, records }
}

// Puts a line on the page, from a place on. Tells the place past it.
fn append(page: &mut [u8], at: usize, line: &[u8]) -> usize
    requires { (length line.now ≤ line_room) × (at + line_room ≤ length page.old) }
    ensures { PutsOnPage line.now page.old at result page.new line_room }
{
    let past = at + line.len();
    page[at..past].copy_from_slice(line);
    past
}

// The line of an element, from its row in the table.
fn put_element(page: &mut [u8], at: usize, table: &[u32], number: usize) -> usize
    requires { (number < rows_lent) × (number * table_width + table_width ≤ length table.now) × (at + line_room ≤ length page.old) }
    ensures { PutsOnPage (row_line table.now number) page.old at result page.new line_room }
{
    let row = number * TABLE_WIDTH;
    let first = table[row + WHOLE];
    let past = table[row + WHOLE + 1];
    let kind = table[row];
    let mut line = [0u8; LINE_ROOM];
    let n = lister_text::put_element(&mut line, number as u32, first, past, kind);
    append(page, at, &line[..n])
}

// The lines of the first rows.
fn put_elements(page: &mut [u8], at: usize, table: &[u32], count: usize) -> usize
    requires { (count ≤ rows_lent) × (count * table_width ≤ length table.now) × (at + elements_room ≤ length page.old) }
    ensures { PutsOnPage (row_lines table.now 0 count) page.old at result page.new elements_room }
{
    let mut here = at;
    for i in 0..count {
        here = put_element(page, here, table, i);
    }
    here
}

// The line of a match.
fn put_match(page: &mut [u8], at: usize, side: Side, m: Match) -> usize
    requires { at + line_room ≤ length page.old }
    ensures { PutsOnPage (match_line side m) page.old at result page.new line_room }
{
    let mut line = [0u8; LINE_ROOM];
    match side {
        Side::Layout => {
            let n = lister_text::put_layout(&mut line, m.element, m.portion, m.unit);
            append(page, at, &line[..n])
        }
        Side::Logical => {
            let n = lister_text::put_logical(&mut line, m.element, m.portion, m.unit);
            append(page, at, &line[..n])
        }
    }
}

// The lines of the first records.
fn put_matches(
    page: &mut [u8],
    at: usize,
    side: Side,
    records: [Match; RECORDS],
    count: usize,
) -> usize
    requires { (count ≤ records_lent) × (at + side_room ≤ length page.old) }
    ensures { PutsOnPage (match_lines side (take count records)) page.old at result page.new side_room }
{
    let mut here = at;
    for i in 0..count {
        here = put_match(page, here, side, records[i]);
    }
    here
}

// The matches of a side of a stream that the check has accepted.
fn put_side(page: &mut [u8], at: usize, side: Side, stream: &[u8], table: &mut [u32]) -> usize
    requires { (at + side_room ≤ length page.old) × (length table.old ≡ table_room) × ((checked Edition.Of1988 stream.now lent_table).number ≡ 0) }
    ensures { PutsOnPage (match_lines side (matches_in Edition.Of1988 side stream.now)) page.old at result page.new side_room }
{
    let found = list_side(stream, side, table);
    let answer = found.answer;
    let count = answer.matches as usize;
    let records = found.records;
    put_matches(page, at, side, records, count)
}

// The matches of both sides of such a stream.
fn put_sides(page: &mut [u8], at: usize, stream: &[u8], table: &mut [u32]) -> usize
    requires { (at + side_room + side_room ≤ length page.old) × (length table.old ≡ table_room)
        × ((checked Edition.Of1988 stream.now lent_table).number ≡ 0) }
    ensures { PutsOnPage (side_lines stream.now) page.old at result page.new (side_room + side_room) }
{
    let layout = put_side(page, at, Side::Layout, stream, table);
    put_side(page, layout, Side::Logical, stream, table)
}

// The first line of an accepted stream.
fn put_accepted(page: &mut [u8], elements: u32, headers: u32) -> usize
    requires { line_room ≤ length page.old }
    ensures { PutsOnPage (accepted elements headers) page.old 0 result page.new line_room }
{
    let mut line = [0u8; LINE_ROOM];
    let n = lister_text::put_accepted(&mut line, elements, headers);
    append(page, 0, &line[..n])
}

// The one line of a refused stream.
fn put_refused(page: &mut [u8], number: u32, place: u32) -> usize
    requires { line_room ≤ length page.old }
    ensures { PutsOnPage (refused number place) page.old 0 result page.new line_room }
{
    let mut line = [0u8; LINE_ROOM];
    let n = lister_text::put_refused(&mut line, number, place);
    append(page, 0, &line[..n])
}

// The one line of a text that cannot be read.
fn put_unreadable(page: &mut [u8], number: u64) -> usize
    requires { line_room ≤ length page.old }
    ensures { PutsOnPage (unreadable number) page.old 0 result page.new line_room }
{
    let mut line = [0u8; LINE_ROOM];
    let n = lister_text::put_unreadable(&mut line, number);
    append(page, 0, &line[..n])
}

// All lines of a stream that the check has accepted, by the check's answer and the table that it filled.
fn put_letter(page: &mut [u8], stream: &[u8], answer: Checked, table: &mut [u32]) -> usize
    requires { (length page.old ≡ page_room) × (answer.number ≡ 0) × CheckOutcome Edition.Of1988 stream.now lent_table answer table.old }
    ensures { PutsOnPage (accepted_lines answer.elements answer.headers stream.now) page.old 0 result
        page.new page_room }
{
    let head = put_accepted(page, answer.elements, answer.headers);
    let elements = put_elements(page, head, table, answer.elements as usize);
    put_sides(page, elements, stream, table)
}

// The lines of a stream: its elements and matches, or the one line of its refusal.
fn put_stream(page: &mut [u8], stream: &[u8]) -> usize
    requires { length page.old ≡ page_room }
    ensures { PutsOnPage (stream_lines stream.now) page.old 0 result page.new page_room }
{
    let mut table = [0u32; ROWS * TABLE_WIDTH];
    let answer = odif::check(Edition::Of1988, stream, &mut table);
    if answer.number != 0 {
        return put_refused(page, answer.number, answer.place);
    }
    put_letter(page, stream, answer, &mut table)
}

// The whole output, at the front of the page, for a text that led the reading here. Tells its length.
pub fn put_output(page: &mut [u8; PAGE_ROOM], state: State, octets: &[u8; INPUT_LIMIT]) -> usize
    ensures { WritesLine (read_lines (finished state) octets.now) page.old result page.new }
{
    match lister_hex::finish(state) {
        Ok(length) => put_stream(page, lister_hex::part(octets, length)),
        Err(line) => put_unreadable(page, line),
    }
}
