// The lent table: how wide its rows are, and how they are filled. A row of the scratch has its own width (`rows::SCRATCH_WIDTH`); the lent one has its
// parent's row besides.
ghost use Rattle.std.specs.Prelude.{◌≡◌, true, ◌*◌, ◌<◌, ◌≤◌, length};
ghost use Rattle.headers.specs.Head.{is_in};
ghost use Rattle.tree.specs.Tree.{tree_of};
ghost use Rattle.tree.specs.Accepts.{Accepts};
ghost use Rattle.elements.specs.Judge.{most_elements};
ghost use Rattle.rows.specs.Columns.{identifier_column};
ghost use Rattle.rows.specs.Index.{Filed};
ghost use Rattle.letters.specs.Scratch.{LetterRows};
ghost use Rattle.answers.specs.Table.{table_width, rows_lent};
ghost use Rattle.answers.specs.Filling.{PutsRow, Fills};
ghost use Rattle.answers.specs.Text.{finishing, table_by};

use super::LIST_TOO_SHORT;
use elements::Edition;
use rows::SCRATCH_WIDTH;

pub const TABLE_WIDTH: usize = 13;

// Where a row has its parent's row.
pub const PARENT: usize = 12;

// Puts row j of the table: the scratch's numbers, and its parent's row, which is looked up once.
fn put_row(s: &[u8], rows: &[u32], index: &[u16], count: usize, j: usize, table: &mut [u32])
    requires letter_rows { (edition : Edition) × LetterRows edition s.now rows.now count }
    requires filed { Filed s.now rows.now identifier_column index.now count }
    requires j_lt_count { (j < count) × (count ≤ most_elements) × (count * table_width ≤ length table.old) }
    ensures { PutsRow s.now rows.now count j table.old table.new }
{
    let parent = parents::parent_of(s, rows, index, count, j);
    let from = j * SCRATCH_WIDTH;
    let at = j * TABLE_WIDTH;
    letters::copy_numbers(&rows[from..from + SCRATCH_WIDTH], SCRATCH_WIDTH, table, at);
    table[at + PARENT] = parent as u32;
}

// Fills the first rows of the table from those of the scratch. It has room for them.
pub fn fill(s: &[u8], rows: &[u32], index: &[u16], count: usize, table: &mut [u32])
    requires letter_rows { (edition : Edition) × LetterRows edition s.now rows.now count }
    requires filed { Filed s.now rows.now identifier_column index.now count }
    requires count_le_most_elements { (count ≤ most_elements) × (count * table_width ≤ length table.old) }
    ensures { Fills s.now rows.now count table.old table.new }
{
    for j in 0..count {
        put_row(s, rows, index, count, j, table);
    }
}

// Whether an answer with this number leaves the finished table: if it is no refusal, or that of a list too short.
fn is_finishing(number: u32) -> bool
    ensures { result ≡ is_in number finishing }
{
    number == 0 || number == LIST_TOO_SHORT
}

// The table as an answer with this number leaves it: finished, or as it was.
pub fn finish(
    edition: Edition,
    stream: &[u8],
    rows: &[u32],
    index: &[u16],
    count: usize,
    number: u32,
    table: &mut [u32],
)
    requires accepts { Accepts stream.now (tree_of stream.now) }
    requires letter_rows { LetterRows edition stream.now rows.now count }
    requires filed { Filed stream.now rows.now identifier_column index.now count }
    requires count_bound { is_in number finishing ≡ true → count ≤ rows_lent table.old }
    ensures { table.new ≡ table_by edition stream.now table.old number }
{
    if is_finishing(number) {
        fill(stream, rows, index, count, table);
    }
}
