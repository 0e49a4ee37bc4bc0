// The children of a row: those rows of the finished table that have it as their parent.
ghost use Rattle.std.specs.Prelude.{◌≡◌, ◌++◌, ◌*◌, ◌<◌, ◌≤◌, length, drop};
ghost use Rattle.tree.specs.Tree.{tree_of};
ghost use Rattle.tree.specs.Accepts.{Accepts};
ghost use Rattle.elements.specs.Judge.{most_elements};
ghost use Rattle.rows.specs.Columns.{identifier_column};
ghost use Rattle.rows.specs.Index.{Filed};
ghost use Rattle.letters.specs.Scratch.{LetterRows};
ghost use Rattle.answers.specs.Table.{table_width};
ghost use Rattle.answers.specs.Filling.{rows_with, Relates};
ghost use Rattle.answers.specs.Related.{unrelated};

use super::table::{PARENT, TABLE_WIDTH};
use super::{CHILDREN_TOO_SHORT, NO_ROW, Related, TOO_FEW_ROWS, table};
use elements::Edition;

// How many rows of a finished table have this one as their parent. To count and to put is a pass each: nothing is put to a list that is too short.
fn count_children(table: &[u32], count: usize, row: usize) -> usize
    requires { (count ≤ most_elements) × (count * table_width ≤ length table.now) }
    ensures { result ≡ length (rows_with table.now row 0 count) }
{
    let mut found = 0;
    for j in 0..count {
        let parent = table[j * TABLE_WIDTH + PARENT] as usize;
        if parent == row {
            found += 1;
        }
    }
    found
}

// Puts their numbers to a list that has room for them; what is past them stays.
fn put_children(table: &[u32], count: usize, row: usize, list: &mut [u32])
    requires count_le_most_elements { (count ≤ most_elements) × (count * table_width ≤ length table.now) }
    requires count_in_bounds { length (rows_with table.now row 0 count) ≤ length list.old }
    ensures { list.new ≡ rows_with table.now row 0 count
        ++ drop (length (rows_with table.now row 0 count)) list.old }
{
    let mut found = 0;
    for j in 0..count {
        let parent = table[j * TABLE_WIDTH + PARENT] as usize;
        if parent == row {
            list[found] = j as u32;
            found += 1;
        }
    }
}

// What is answered where children are refused.
fn refuse(number: u32, elements: usize) -> Related
    requires { elements ≤ most_elements }
    ensures { result ≡ unrelated number 0 elements }
{
    Related {
        number,
        place: 0,
        elements: elements as u32,
        children: 0,
    }
}

// The children of a row of a letter: 16, then 20, before anything is written; then the table, then 25.
pub fn children_judged(
    edition: Edition,
    stream: &[u8],
    row: usize,
    room: usize,
    rows: &[u32],
    index: &[u16],
    count: usize,
    table: &mut [u32],
    list: &mut [u32],
) -> Related
    requires accepts { Accepts stream.now (tree_of stream.now) }
    requires letter_rows { LetterRows edition stream.now rows.now count }
    requires filed { Filed stream.now rows.now identifier_column index.now count }
    requires room_in_bounds { room ≤ length list.old }
    ensures { Relates edition stream.now table.old row room list.old result table.new list.new }
{
    if table.len() / TABLE_WIDTH < count {
        return refuse(TOO_FEW_ROWS, 0);
    }
    if count <= row {
        return refuse(NO_ROW, 0);
    }
    table::fill(stream, rows, index, count, table);
    let found = count_children(table, count, row);
    if room < found {
        return refuse(CHILDREN_TOO_SHORT, count);
    }
    put_children(table, count, row, list);
    Related {
        number: 0,
        place: 0,
        elements: count as u32,
        children: found as u32,
    }
}
