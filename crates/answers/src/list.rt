// The reading list of a side of a letter. Its matches are found, and what is answered is known, before the table is written.
ghost use Rattle.std.specs.Prelude.{◌*◌, ◌≤◌, length};
ghost use Rattle.tree.specs.Tree.{tree_of};
ghost use Rattle.tree.specs.Accepts.{Accepts};
ghost use Rattle.letters.specs.Lent.{rows_needed};
ghost use Rattle.rows.specs.Index.{BothFiled};
ghost use Rattle.letters.specs.Scratch.{LetterRows};
ghost use Rattle.answers.specs.Asking.{ListsFlat};
ghost use Rattle.answers.specs.TextSteps.{FindsMatches};

use super::table::TABLE_WIDTH;
use super::{LIST_TOO_SHORT, Listed, TOO_FEW_ROWS, table};
use elements::Edition;
use reading::Side;

// The matches of a side as numbers, and the answer of the list: 16 if the table has too few rows, then 19.
pub fn find_matches(
    edition: Edition,
    stream: &[u8],
    side: Side,
    room: usize,
    rows: &[u32],
    index: &[u16],
    elements: usize,
    lent: usize,
    flat: &mut [u32],
) -> Listed
    requires accepts { Accepts stream.now (tree_of stream.now) }
    requires letter_rows { LetterRows edition stream.now rows.now elements }
    requires both_filed { BothFiled stream.now rows.now index.now elements }
    requires stream_in_bounds { 3 * rows_needed stream.now ≤ length flat.old }
    ensures { FindsMatches edition side stream.now lent room result flat.new }
{
    if lent < elements {
        return Listed {
            number: TOO_FEW_ROWS,
            place: 0,
            elements: 0,
            matches: 0,
        };
    }
    let matches = reading::list_matches(stream, rows, index, elements, side, flat);
    if room < matches {
        return Listed {
            number: LIST_TOO_SHORT,
            place: 0,
            elements: elements as u32,
            matches: 0,
        };
    }
    Listed {
        number: 0,
        place: 0,
        elements: elements as u32,
        matches: matches as u32,
    }
}

// The reading list of a letter, as numbers, and the table.
pub fn list_judged(
    edition: Edition,
    stream: &[u8],
    side: Side,
    room: usize,
    rows: &[u32],
    index: &[u16],
    count: usize,
    table: &mut [u32],
    flat: &mut [u32],
) -> Listed
    requires accepts { Accepts stream.now (tree_of stream.now) }
    requires letter_rows { LetterRows edition stream.now rows.now count }
    requires both_filed { BothFiled stream.now rows.now index.now count }
    requires stream_in_bounds { 3 * rows_needed stream.now ≤ length flat.old }
    ensures { ListsFlat edition side stream.now table.old room result table.new flat.new }
{
    let lent = table.len() / TABLE_WIDTH;
    let listed = find_matches(edition, stream, side, room, rows, index, count, lent, flat);
    let names = rows::identifiers(index);
    table::finish(edition, stream, rows, names, count, listed.number, table);
    listed
}
