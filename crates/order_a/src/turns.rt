// What the records of a unit tell in numbers: which element it is associated with on a side, and whether its portion is the next of those by which units
// are ordered. Nothing is stored.
ghost use Rattle.std.specs.Prelude.{◌≡◌, ◌*◌, ◌<◌, ◌≤◌, length};
ghost use Rattle.rows.specs.Rows.{scratch_width};
ghost use Rattle.letters.specs.Scratch.{LetterRows};
ghost use Rattle.elements.specs.declared.Edition.{Edition};
ghost use Rattle.rows.specs.Index.{Filed};
ghost use Rattle.rows.specs.Columns.{identifier_column};
ghost use Rattle.order_a.specs.Turns.{RowBelow, own_of, OwnAt, kind_for, own_for, row_for, turn_for, counts, counts_in, Reaches};

use owners::Owner;
use reading::Side;
use rows::{LAYOUT_OBJECT, LOGICAL_OBJECT};

// Whose portion a unit represents on a side: the kind of the element, if it stands before the unit, its row and the place of the portion; kind 0,
// if there is none. And its row, if it stands after the unit; else how many rows there are. Kind 0 and no Option: all that is asked is whether it is of one
// kind of those that list portions, and by an Option each of these five tests would be a match.
#[derive(Clone, Copy)]
pub struct Own {
    pub kind: usize,
    pub row: usize,
    pub portion: usize,
    pub later: usize,
}

// What an owner tells of row u.
fn own_of(rows: &[u32], n: usize, u: usize, owner: Option<Owner>) -> Own
    requires { RowBelow n owner × (n * scratch_width ≤ length rows.now) }
    ensures { result ≡ own_of rows.now n u owner }
{
    match owner {
        Some(of) if of.row < u => Own {
            kind: rows::kind_at(rows, of.row),
            row: of.row,
            portion: of.portion,
            later: n,
        },
        Some(of) => Own {
            kind: 0,
            row: 0,
            portion: 0,
            later: of.row,
        },
        None => Own {
            kind: 0,
            row: 0,
            portion: 0,
            later: n,
        },
    }
}

// Whose portion row u represents on a side.
pub fn look(s: &[u8], rows: &[u32], index: &[u16], n: usize, side: Side, u: usize) -> Own
    requires letter_rows { (edition : Edition) × LetterRows edition s.now rows.now n }
    requires filed { Filed s.now rows.now identifier_column index.now n }
    requires u_lt_n { u < n }
    ensures { OwnAt side s.now rows.now n u result }
{
    let owner = owners::owner_of(s, rows, index, n, side, u);
    own_of(rows, n, u, owner)
}

// The kind of the objects by which units are ordered: layout objects, if there are any.
#[tactic(auto, unfolding(crate::specs::Turns::kind_for))]
pub fn kind_for(layouts: bool) -> usize
    ensures { result ≡ kind_for layouts }
{
    if layouts {
        LAYOUT_OBJECT
    } else {
        LOGICAL_OBJECT
    }
}

#[tactic(auto, unfolding(crate::specs::Turns::own_for))]
pub fn own_for(layouts: bool, layout: Own, logical: Own) -> Own
    ensures { result ≡ own_for layouts layout logical }
{
    if layouts { layout } else { logical }
}

// The row up to which portions are counted for a unit: that of its element, if it is ordered and not behind.
#[tactic(auto, unfolding(crate::specs::Turns::row_for))]
pub fn row_for(own: Own, kind: usize, row: usize) -> usize
    ensures { result ≡ row_for own kind row }
{
    if own.kind == kind {
        own.row.max(row)
    } else {
        row
    }
}

// Whether the turn of a unit has come: it is not ordered, or its portion is the next, `base` being listed before those of its element.
#[tactic(auto, unfolding(crate::specs::Turns::turn_for))]
pub fn has_turn(own: Own, kind: usize, row: usize, base: usize, ordered: usize) -> bool
    ensures { result ≡ turn_for own kind row base ordered }
{
    own.kind != kind || (own.row == row && base <= ordered && own.portion == ordered - base)
}

// How many of two elements are of their kind.
#[tactic(auto, unfolding(crate::specs::Turns::counts))]
pub fn count_kinds(layout: Own, a: usize, logical: Own, b: usize) -> usize
    ensures { result ≡ counts layout a logical b }
{
    usize::from(layout.kind == a) + usize::from(logical.kind == b)
}

// How many portions row j lists, if it is of a kind.
#[tactic(auto, unfolding(crate::specs::Turns::counts_in))]
fn count_in(s: &[u8], rows: &[u32], n: usize, kind: usize, j: usize) -> usize
    requires letter_rows { (edition : Edition) × LetterRows edition s.now rows.now n }
    requires j_lt_n { j < n }
    ensures { result ≡ counts_in s.now rows.now kind j }
{
    if rows::kind_at(rows, j) == kind {
        owners::portions_of(s, rows, j)
    } else {
        0
    }
}

// How many portions the elements of a kind list before a row, counted on from an earlier row.
pub fn reach(
    s: &[u8],
    rows: &[u32],
    n: usize,
    kind: usize,
    row: usize,
    base: usize,
    to: usize,
) -> usize
    requires letter_rows { (edition : Edition) × LetterRows edition s.now rows.now n }
    requires row_le_to { (row ≤ to) × (to ≤ n) × (base ≤ 64 * row) }
    ensures { Reaches s.now rows.now n kind row base to result }
{
    let mut total = base;
    for at in row..to {
        total += count_in(s, rows, n, kind, at);
    }
    total
}
