// Whose child an element is: the row of the class or object whose identifier is its own without the last group.
#![tactic(auto)]

ghost use Rattle.std.specs.Prelude.{◌≡◌, ◌<◌, ◌≤◌, length};
ghost use Rattle.std.proofs.Math.Seq.{slice};
ghost use Rattle.headers.specs.Head.{is_in};
ghost use Rattle.rows.specs.Columns.{identifier_column, Bounded};
ghost use Rattle.rows.specs.Chains.{FindsRow};
ghost use Rattle.rows.specs.Index.{Filed};
ghost use Rattle.elements.specs.declared.Edition.{Edition};
ghost use Rattle.elements.specs.Judge.{most_elements};
ghost use Rattle.letters.specs.Scratch.{LetterRows};
ghost use Rattle.parents.specs.Parent.{parent_kinds};
ghost use Rattle.parents.specs.Lookup.{object_space, LastSpace, FoundIn, on_side, ParentAt};

use names::{Asked, SPACE};
use rows::{IDENTIFIER, LAYOUT_CLASS, LAYOUT_OBJECT, LOGICAL_CLASS, LOGICAL_OBJECT, OBJECTS};

// Stands for no row where a parent's row is told: a number, as a parent's row is one of the lent table's numbers.
pub const NO_PARENT: usize = 65535;

// Whether an element of one kind may be the parent of one of another.
fn is_parent_kind(kind: usize, other: usize) -> bool
    ensures { result ≡ is_in other (parent_kinds kind) }
{
    if rows::is_either(kind, LAYOUT_CLASS, LAYOUT_OBJECT) {
        return rows::is_either(other, LAYOUT_CLASS, LAYOUT_OBJECT);
    }
    if rows::is_either(kind, LOGICAL_CLASS, LOGICAL_OBJECT) {
        return rows::is_either(other, LOGICAL_CLASS, LOGICAL_OBJECT);
    }
    false
}

// Where the last space of s[first..past] stands, if it has one.
pub fn last_space(s: &[u8], first: usize, past: usize) -> Option<usize>
    requires { (first ≤ past) × (past ≤ length s.now) }
    ensures { LastSpace s.now first past result }
{
    for at in (first..past).rev() {
        if s[at] == SPACE {
            return Some(at);
        }
    }
    None
}

// The class or object whose identifier is s[first..past].
pub fn carrier(
    s: &[u8],
    rows: &[u32],
    index: &[u16],
    n: usize,
    first: usize,
    past: usize,
) -> Option<usize>
    requires bounded { Bounded s.now rows.now identifier_column n }
    requires filed { Filed s.now rows.now identifier_column index.now n }
    requires first_le_past { (first ≤ past) × (past ≤ length s.now) }
    ensures { FindsRow s.now rows.now identifier_column n object_space (slice first past s.now) result }
{
    let front = &s[first..past];
    let asked = Asked { front, back: None };
    let hashed = names::hash_over(front, 0);
    rows::find(s, rows, index, n, IDENTIFIER, OBJECTS, hashed, asked)
}

// The row that was found, if its element may be the parent of one of this kind.
fn own_side(rows: &[u32], kind: usize, found: Option<usize>) -> usize
    requires { FoundIn rows.now found }
    ensures { result ≡ on_side rows.now kind found }
{
    match found {
        Some(row) if is_parent_kind(kind, rows::kind_at(rows, row)) => row,
        _ => NO_PARENT,
    }
}

// The parent's row of row j, or NO_PARENT. A text unit or style has none, whatever its identifier.
pub fn parent_of(s: &[u8], rows: &[u32], index: &[u16], n: usize, j: usize) -> usize
    requires letter_rows { (edition : Edition) × LetterRows edition s.now rows.now n }
    requires filed { Filed s.now rows.now identifier_column index.now n }
    requires j_lt_n { (j < n) × (n ≤ most_elements) }
    ensures { ParentAt s.now rows.now n j result }
{
    let kind = rows::kind_at(rows, j);
    if !is_parent_kind(kind, kind) {
        return NO_PARENT;
    }
    let name = rows::bounds_at(rows, j, IDENTIFIER);
    let Some(cut) = last_space(s, name.first, name.past) else {
        return NO_PARENT;
    };
    own_side(rows, kind, carrier(s, rows, index, n, name.first, cut))
}
