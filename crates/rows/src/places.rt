// Rows in order: the place of a name among them, searched by halves; the last row with a name; and a row more.
ghost use Rattle.std.specs.Prelude.{◌∷◌, ◌+◌, ◌<◌, ◌≤◌, length};
ghost use Rattle.names.specs.Asked.{spelling};
ghost use Rattle.rows.specs.Columns.{Bounded};
ghost use Rattle.rows.specs.Lookup.{Ordered, Between, FindsFrom, Shifted, Around};

use super::{order, readers, space_of};
use names::Asked;

// By halves in a loop: a library's search takes a closure over the rows, which is no plainer.
// Where the name asked for would go among the rows from `from` on, which are in order: after those that don't come after it.
fn place(
    s: &[u8],
    rows: &[u32],
    next: &[u16],
    from: usize,
    n: usize,
    column: usize,
    space: u8,
    asked: Asked,
) -> usize
    requires bounded { Bounded s.now rows.now column n }
    requires ordered { Ordered s.now rows.now column next.now from n }
    ensures { Between s.now rows.now column next.now from n (space ∷ spelling asked.entry) result result }
{
    let mut low = from;
    let mut high = n;
    while low < high {
        let middle = low + (high - low) / 2;
        if order::is_before(s, rows, column, next[middle] as usize, space, asked) {
            high = middle;
        } else {
            low = middle + 1;
        }
    }
    low
}

// Moves what stands from p to n one place further.
fn shift(next: &mut [u16], p: usize, n: usize)
    requires { (p ≤ n) × (n < length next.old) }
    ensures { Shifted next.old next.new p n }
{
    next.copy_within(p..n, p + 1);
}

// The last of the rows from `from` on, which are in order, that is of the name space and has the name asked for.
fn find_in_order(
    s: &[u8],
    rows: &[u32],
    next: &[u16],
    from: usize,
    n: usize,
    column: usize,
    space: u8,
    asked: Asked,
) -> Option<usize>
    requires bounded { Bounded s.now rows.now column n }
    requires ordered { Ordered s.now rows.now column next.now from n }
    ensures { FindsFrom s.now rows.now column from n space (spelling asked.entry) result }
{
    let p = place(s, rows, next, from, n, column, space, asked);
    if p == from {
        return None;
    }
    let j = next[p - 1] as usize;
    if order::is_held(s, rows, column, j, space, asked) {
        return Some(j);
    }
    None
}

// Finds a row among those in order, where mostly there are none.
pub fn find_later(
    s: &[u8],
    rows: &[u32],
    next: &[u16],
    from: usize,
    n: usize,
    column: usize,
    space: u8,
    asked: Asked,
) -> Option<usize>
    requires bounded { Bounded s.now rows.now column n }
    requires ordered { Ordered s.now rows.now column next.now from n }
    ensures { FindsFrom s.now rows.now column from n space (spelling asked.entry) result }
{
    if from == n {
        return None;
    }
    find_in_order(s, rows, next, from, n, column, space, asked)
}

// Puts row n in its place among the rows from `from` on, which are in order.
pub fn put_in_order(s: &[u8], rows: &[u32], next: &mut [u16], from: usize, n: usize, column: usize)
    requires bounded { Bounded s.now rows.now column (n + 1) }
    requires ordered { Ordered s.now rows.now column next.old from n }
    requires n_in_bounds { (n < length next.old) × (n < 65536) }
    ensures ordered_2 { Ordered s.now rows.now column next.new from (n + 1) }
    ensures around { Around next.old next.new from n }
{
    let space = space_of(readers::kind_at(rows, n));
    let asked = Asked {
        front: readers::value_at(s, rows, column, n),
        back: None,
    };
    let p = place(s, rows, next, from, n, column, space, asked);
    shift(next, p, n);
    next[p] = n as u16;
}
