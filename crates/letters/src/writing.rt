// Writing rows: to the scratch, with both indexes, and to a table.
ghost use Rattle.std.specs.Prelude.{◌≡◌, List, ◌+◌, ◌*◌, ◌<◌, ◌≤◌, length};
ghost use Rattle.std.proofs.lemmas.List.Edits.{sets};
ghost use Rattle.std.proofs.Math.Seq.{paste};
ghost use Rattle.octets.specs.Walk.{stream_limit};
ghost use Rattle.rows.specs.Rows.{scratch_width};
ghost use Rattle.rows.specs.Index.{BothFiled, HasLinks};
ghost use Rattle.elements.specs.Judge.{Element, most_elements};
ghost use Rattle.elements.specs.ElementRows.{cells};
ghost use Rattle.elements.specs.Says.{RowPlaced};
ghost use Rattle.letters.specs.Numbers.{Narrow};
ghost use Rattle.judging.specs.Done.{DoneRows};
ghost use Rattle.judging.specs.Judges.{hashes_of, Grows};

use elements::Row;
use judging::Hashes;

// Copies the first numbers of one slice to a place of another.
pub fn copy_numbers(from: &[u32], count: usize, to: &mut [u32], at: usize)
    requires { (count ≤ length from.now) × (at + count ≤ length to.old) }
    ensures { to.new ≡ paste to.old at from.now count }
{
    to[at..at + count].copy_from_slice(&from[..count]);
}

// The numbers of a row, in the order that the lent table has, which is that of the C interface: no derive or `From` says it plainer.
fn cells_of(row: Row) -> [u32; 12]
    requires { Narrow row }
    ensures { result ≡ cells row }
{
    [
        row.kind as u32,
        row.object as u32,
        row.whole.first as u32,
        row.whole.past as u32,
        row.identifier.first as u32,
        row.identifier.past as u32,
        row.logical.first as u32,
        row.logical.past as u32,
        row.portions.first as u32,
        row.portions.past as u32,
        row.content.first as u32,
        row.content.past as u32,
    ]
}

// Writes the twelve numbers of a row.
fn put_row(rows: &mut [u32], at: usize, row: Row)
    requires { (at + scratch_width ≤ length rows.old) × Narrow row }
    ensures { rows.new ≡ sets rows.old at (cells row) }
{
    let numbers = cells_of(row);
    copy_numbers(&numbers, rows::SCRATCH_WIDTH, rows, at);
}

// Writes row n, and adds it to both indexes.
pub fn add_row(s: &[u8], rows: &mut [u32], index: &mut [u16], n: usize, row: Row, hashes: Hashes)
    requires done_rows { (table : List Row) × (done : List Element) × DoneRows s.now rows.old n table done }
    requires both_filed { BothFiled s.now rows.old index.old n }
    requires row_placed { RowPlaced s.now row × (hashes ≡ hashes_of s.now row) × (length s.now ≤ stream_limit) }
    requires scratch_width_in_bounds { (n * scratch_width + scratch_width ≤ length rows.old) × HasLinks index.old (n + 1) × (n < most_elements) }
    ensures grows { Grows s.now rows.old rows.new n row }
    ensures both_filed_2 { BothFiled s.now rows.new index.new (n + 1) }
{
    put_row(rows, n * rows::SCRATCH_WIDTH, row);
    let half = rows::half_of(index.len());
    rows::insert(
        s,
        rows,
        &mut index[..half],
        n,
        rows::IDENTIFIER,
        hashes.identifier,
    );
    rows::insert(
        s,
        rows,
        &mut index[half..],
        n,
        rows::LOGICAL,
        hashes.logical,
    );
}
