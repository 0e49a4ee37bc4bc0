// The order of rows: by their name space and then their name, as a dictionary has it, compared where they stand; and whether a row has a name.
ghost use Rattle.std.specs.Prelude.{◌≡◌, ◌&&◌, ◌∷◌, ◌+◌, ◌*◌, ◌<◌, ◌≤◌, length};
ghost use Rattle.names.specs.Asked.{spelling};
ghost use Rattle.rows.specs.Rows.{scratch_width};
ghost use Rattle.rows.specs.Columns.{first_at, past_at, span_at, there};
ghost use Rattle.rows.specs.Chains.{named};
ghost use Rattle.rows.specs.Order.{less};
ghost use Rattle.rows.specs.Lookup.{key_at};

use super::{readers, space_of};
use names::{Asked, SPACE};

// Whether one name comes before another. A loop, as `<` on slices calls a C library's function, which not every machine has.
fn is_less(a: &[u8], b: &[u8]) -> bool
    ensures { result ≡ less a.now b.now }
{
    for (x, y) in a.iter().zip(b) {
        if x != y {
            return x < y;
        }
    }
    a.len() < b.len()
}

// Whether the name asked for comes before another, compared in its parts.
fn is_asked_less(asked: Asked, name: &[u8]) -> bool
    ensures { result ≡ less (spelling asked.entry) name.now }
{
    let size = asked.front.len();
    match asked.back {
        None => is_less(asked.front, name),
        Some(back) => {
            if name.len() <= size {
                return is_less(asked.front, name);
            }
            let start = &name[..size];
            if !names::is_same(asked.front, start) {
                return is_less(asked.front, start);
            }
            if name[size] != SPACE {
                return SPACE < name[size];
            }
            is_less(back, &name[size + 1..])
        }
    }
}

// Whether the name asked for, in its name space, comes before row j.
pub fn is_before(s: &[u8], rows: &[u32], column: usize, j: usize, space: u8, asked: Asked) -> bool
    requires column_bound { column + 1 < scratch_width }
    requires scratch_width_in_bounds { j * scratch_width + scratch_width ≤ length rows.now }
    requires j_bound { first_at rows.now column j ≤ past_at rows.now column j }
    requires j_in_bounds { past_at rows.now column j ≤ length s.now }
    ensures { result ≡ less (space ∷ spelling asked.entry) (key_at s.now rows.now column j) }
{
    let own = space_of(readers::kind_at(rows, j));
    if own != space {
        return space < own;
    }
    is_asked_less(asked, readers::value_at(s, rows, column, j))
}

// Whether row j is of the name space and has the name asked for. Inline, as it is part of the loop over a chain.
#[inline(always)]
pub fn has(s: &[u8], rows: &[u32], column: usize, j: usize, space: u8, asked: Asked) -> bool
    requires column_bound { column + 1 < scratch_width }
    requires scratch_width_in_bounds { j * scratch_width + scratch_width ≤ length rows.now }
    requires j_bound { first_at rows.now column j ≤ past_at rows.now column j }
    requires j_in_bounds { past_at rows.now column j ≤ length s.now }
    ensures { result ≡ named s.now rows.now column space (spelling asked.entry) j }
{
    if space_of(readers::kind_at(rows, j)) != space {
        return false;
    }
    names::is_asked(asked, readers::value_at(s, rows, column, j))
}

// Whether row j has a value besides.
pub fn is_held(s: &[u8], rows: &[u32], column: usize, j: usize, space: u8, asked: Asked) -> bool
    requires column_bound { column + 1 < scratch_width }
    requires scratch_width_in_bounds { j * scratch_width + scratch_width ≤ length rows.now }
    requires j_bound { first_at rows.now column j ≤ past_at rows.now column j }
    requires j_in_bounds { past_at rows.now column j ≤ length s.now }
    ensures { result ≡ (there (span_at rows.now column j)
        && named s.now rows.now column space (spelling asked.entry) j) }
{
    if !readers::is_there(readers::bounds_at(rows, j, column)) {
        return false;
    }
    has(s, rows, column, j, space, asked)
}
