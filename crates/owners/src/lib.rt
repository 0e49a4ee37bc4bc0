// Which portion of which element a text unit represents: what its identifier says, looked up by the index that is there. And what else the order
// rules look at. Nothing is stored: each is asked of the rows when it is wanted.
#![tactic(auto)]

ghost use Rattle.std.specs.Prelude.{◌≡◌, ◌+◌, ◌*◌, ◌<◌, ◌≤◌, length};
ghost use Rattle.rows.specs.Rows.{scratch_width};
ghost use Rattle.rows.specs.Columns.{identifier_column};
ghost use Rattle.letters.specs.Scratch.{LetterRows};
ghost use Rattle.elements.specs.declared.Edition.{Edition};
ghost use Rattle.rows.specs.Index.{Filed};
ghost use Rattle.owners.specs.Owner.{OwnerAt, Meetable, owner_among, listed_at, owner_by};

use reading::Side;
use rows::TEXT_UNIT;

// The element whose portion a text unit represents, and the place of that portion, both from 0.
#[derive(Clone, Copy)]
pub struct Owner {
    pub row: usize,
    pub portion: usize,
}

// How many portions the element of row j lists.
pub fn portions_of(s: &[u8], rows: &[u32], j: usize) -> usize
    requires scratch_width_in_bounds { j * scratch_width + scratch_width ≤ length rows.now }
    requires meetable { Meetable s.now rows.now j }
    ensures { result ≡ length (listed_at s.now rows.now j) }
{
    let mut left = rows::portions_at(rows, j);
    let mut count: usize = 0; // counted by hand, as a run is no slice
    while let Some(item) = runs::meet(s, left) {
        count += 1;
        left = item.rest;
    }
    count
}

// The portion of a row that has these octets.
fn portion_with(s: &[u8], rows: &[u32], row: usize, octets: &[u8]) -> Option<Owner>
    requires scratch_width_in_bounds { row * scratch_width + scratch_width ≤ length rows.now }
    requires meetable { Meetable s.now rows.now row }
    ensures { result ≡ owner_among row 0 (listed_at s.now rows.now row) octets.now }
{
    let mut left = rows::portions_at(rows, row);
    let mut portion: usize = 0; // counted by hand, as a run is no slice
    while let Some(item) = runs::meet(s, left) {
        if names::is_same(&s[item.first..item.past], octets) {
            return Some(Owner { row, portion });
        }
        portion += 1;
        left = item.rest;
    }
    None
}

// The owner of a unit, by a row that has the unit's name before its last space, if that row is of the side.
fn owner_by(
    s: &[u8],
    rows: &[u32],
    side: Side,
    row: usize,
    first: usize,
    past: usize,
) -> Option<Owner>
    requires scratch_width_in_bounds { row * scratch_width + scratch_width ≤ length rows.now }
    requires meetable { Meetable s.now rows.now row }
    requires first_le_past { (first ≤ past) × (past ≤ length s.now) }
    ensures { result ≡ owner_by side s.now rows.now row first past }
{
    if !reading::is_read(side, rows::kind_at(rows, row)) {
        return None;
    }
    portion_with(s, rows, row, &s[first..past])
}

// Whose portion row u represents on a side, and which. A row that is no text unit represents none. The unit's identifier of the side is cut at its last
// space; what stands before it is looked up among classes and objects, what stands after it among the portions of the one that has that name.
pub fn owner_of(
    s: &[u8],
    rows: &[u32],
    index: &[u16],
    n: usize,
    side: Side,
    u: usize,
) -> Option<Owner>
    requires letter_rows { (edition : Edition) × LetterRows edition s.now rows.now n }
    requires filed { Filed s.now rows.now identifier_column index.now n }
    requires u_lt_n { u < n }
    ensures { OwnerAt side s.now rows.now n u result }
{
    if rows::kind_at(rows, u) != TEXT_UNIT {
        return None;
    }
    let name = rows::bounds_at(rows, u, reading::column_of(side));
    let cut = parents::last_space(s, name.first, name.past)?;
    let row = parents::carrier(s, rows, index, n, name.first, cut)?;
    owner_by(s, rows, side, row, cut + 1, name.past)
}
