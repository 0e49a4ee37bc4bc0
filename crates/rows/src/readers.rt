// What a row has at a column. Each number is read where it is wanted.
ghost use Rattle.std.specs.Prelude.{◌≡◌, [], ◌∷◌, ◌+◌, ◌*◌, ◌<◌, ◌≤◌, length};
ghost use Rattle.headers.specs.Head.{is_in};
ghost use Rattle.rows.specs.Rows.{scratch_width};
ghost use Rattle.rows.specs.Columns.{identifier_column, first_at, past_at, kind_at, span_at, there, value_at, portions_at};

use super::{IDENTIFIER, PORTIONS, SCRATCH_WIDTH};
use contents::Span;
use runs::Run;

// The kind of row j.
pub fn kind_at(rows: &[u32], j: usize) -> usize
    requires { j * scratch_width + scratch_width ≤ length rows.now }
    ensures { result ≡ kind_at rows.now j }
{
    rows[j * SCRATCH_WIDTH] as usize
}

// Whether a kind is one of two.
pub fn is_either(x: usize, a: usize, b: usize) -> bool
    ensures { result ≡ is_in x (a ∷ b ∷ []) }
{
    x == a || x == b
}

// The bounds of row j at a column.
pub fn bounds_at(rows: &[u32], j: usize, column: usize) -> Span
    requires { (column + 1 < scratch_width) × (j * scratch_width + scratch_width ≤ length rows.now) }
    ensures { result ≡ span_at rows.now column j }
{
    let at = j * SCRATCH_WIDTH + column;
    let first = rows[at] as usize;
    let past = rows[at + 1] as usize;
    Span { first, past }
}

// What row j has at a column.
pub fn value_at<'a>(s: &'a [u8], rows: &[u32], column: usize, j: usize) -> &'a [u8]
    requires column_bound { column + 1 < scratch_width }
    requires scratch_width_in_bounds { j * scratch_width + scratch_width ≤ length rows.now }
    requires j_bound { first_at rows.now column j ≤ past_at rows.now column j }
    requires j_in_bounds { past_at rows.now column j ≤ length s.now }
    ensures { result.now ≡ value_at s.now rows.now column j }
{
    let bounds = bounds_at(rows, j, column);
    &s[bounds.first..bounds.past]
}

// Whether bounds are those of a value that is not empty.
pub fn is_there(bounds: Span) -> bool
    ensures { result ≡ there bounds }
{
    bounds.first < bounds.past
}

// Whether the element of row j has an identifier.
pub fn is_named(rows: &[u32], j: usize) -> bool
    requires { j * scratch_width + scratch_width ≤ length rows.now }
    ensures { result ≡ there (span_at rows.now identifier_column j) }
{
    is_there(bounds_at(rows, j, IDENTIFIER))
}

// The run of the portions of row j.
pub fn portions_at(rows: &[u32], j: usize) -> Run
    requires { j * scratch_width + scratch_width ≤ length rows.now }
    ensures { result ≡ portions_at rows.now j }
{
    let bounds = bounds_at(rows, j, PORTIONS);
    Run {
        at: bounds.first,
        limit: bounds.past,
        marked: false,
        room: 1,
    }
}
