// The order of class A in one pass over the rows, by numbers: no array, a small state by value.
#![tactic(auto)]

ghost use Rattle.std.specs.Prelude.{◌≡◌, ◌<◌};
ghost use Rattle.rows.specs.Columns.{identifier_column, kind_at};
ghost use Rattle.order.specs.Fault.{FaultIn};
ghost use Rattle.letters.specs.Scratch.{LetterRows};
ghost use Rattle.elements.specs.declared.Edition.{Edition};
ghost use Rattle.rows.specs.Index.{Filed};
ghost use Rattle.order_a.specs.Step.{Small};
ghost use Rattle.reading.specs.declared.Side.{Side};
ghost use Rattle.order_a.specs.Turns.{OwnAt};
ghost use Rattle.order_a.specs.Pass.{sight_for, walk_for, start_of, Bounds, StepAt};

use order::Class;
use ranks::{Sight, State};
use reading::Side;
use rows::{LAYOUT_CLASS, LAYOUT_OBJECT, LOGICAL_CLASS, LOGICAL_OBJECT, PROFILE};
use turns::Own;

mod ranks; // ranks.rt: one step over numbers
mod turns; // turns.rt: whose portion a unit represents, and whether its turn has come

// What is known of the elements so far: the step's own state; the first row that a unit before it is associated with; up to which row the portions were
// counted by which units are ordered, and how many they are; whether there was a layout object.
#[derive(Clone, Copy)]
pub struct Walk {
    pub state: State,
    pub least: usize,
    pub row: usize,
    pub base: usize,
    pub layouts: bool,
}

// What is seen of row k.
fn see(
    s: &[u8],
    rows: &[u32],
    n: usize,
    k: usize,
    w: Walk,
    layout: Own,
    logical: Own,
    row: usize,
    base: usize,
) -> Sight
    requires { ((edition : Edition) × LetterRows edition s.now rows.now n) × (k < n) }
    ensures { result ≡ sight_for s.now rows.now k w layout logical row base }
{
    let own = turns::own_for(w.layouts, layout, logical);
    let by = turns::kind_for(w.layouts);
    let kind = rows::kind_at(rows, k);
    let named = rows::is_named(rows, k);
    let lists = owners::portions_of(s, rows, k);
    let early = w.least == k;
    let generic = turns::count_kinds(layout, LAYOUT_CLASS, logical, LOGICAL_CLASS);
    let specific = turns::count_kinds(layout, LAYOUT_OBJECT, logical, LOGICAL_OBJECT);
    let ordered = own.kind == by;
    let turn = turns::has_turn(own, by, row, base, w.state.ordered);
    Sight {
        kind,
        named,
        lists,
        early,
        generic,
        specific,
        ordered,
        turn,
    }
}

// What is known after row k, which may stand there.
#[tactic(auto, unfolding(crate::specs::Pass::walk_for, crate::specs::Pass::has_layouts))]
fn walk_on(w: Walk, x: Sight, layout: Own, logical: Own, row: usize, base: usize) -> Walk
    requires { Small w.state x }
    ensures { result ≡ walk_for w x layout logical row base }
{
    Walk {
        state: ranks::after(w.state, x),
        least: w.least.min(layout.later.min(logical.later)),
        row,
        base,
        layouts: w.layouts || x.kind == LAYOUT_OBJECT,
    }
}

// What comes of row k.
fn take_row(
    s: &[u8],
    rows: &[u32],
    n: usize,
    k: usize,
    w: Walk,
    layout: Own,
    logical: Own,
) -> Option<Walk>
    requires k_lt_n { ((edition : Edition) × LetterRows edition s.now rows.now n) × (k < n) }
    requires bounds { Bounds k w }
    requires own_at { OwnAt Side.Layout s.now rows.now n k layout × OwnAt Side.Logical s.now rows.now n k logical }
    ensures { StepAt s.now rows.now n k w result }
{
    let kind = turns::kind_for(w.layouts);
    let row = turns::row_for(turns::own_for(w.layouts, layout, logical), kind, w.row);
    let base = turns::reach(s, rows, n, kind, w.row, w.base, row);
    let x = see(s, rows, n, k, w, layout, logical, row, base);
    if !ranks::may_stand(w.state, x) {
        return None;
    }
    Some(walk_on(w, x, layout, logical, row, base))
}

// What is known after the profile.
fn first_walk(n: usize) -> Walk
    ensures { result ≡ start_of n }
{
    let state = State {
        rank: 0,
        generic: 0,
        specific: 0,
        ordered: 0,
    };
    Walk {
        state,
        least: n,
        row: 0,
        base: 0,
        layouts: false,
    }
}

// The pass over the rows after the profile.
fn pass(s: &[u8], rows: &[u32], index: &[u16], n: usize) -> Option<usize>
    requires letter_rows { (edition : Edition) × LetterRows edition s.now rows.now n }
    requires filed { Filed s.now rows.now identifier_column index.now n }
    requires n_nonzero { (0 < n) × (kind_at rows.now 0 ≡ 0) }
    ensures { FaultIn Class.A s.now rows.now n result }
{
    let mut w = first_walk(n);
    for k in 1..n {
        let layout = turns::look(s, rows, index, n, Side::Layout, k);
        let logical = turns::look(s, rows, index, n, Side::Logical, k);
        match take_row(s, rows, n, k, w, layout, logical) {
            None => return Some(k),
            Some(after) => w = after,
        }
    }
    if ranks::is_waiting(w.state) {
        Some(n)
    } else {
        None
    }
}

// The fault of the order of class A, of the letter whose rows these are: 26 at an element, from 0, at how many they are if only the end
// is missing, or none.
pub fn fault_a(s: &[u8], rows: &[u32], index: &[u16], n: usize) -> Option<usize>
    requires letter_rows { (edition : Edition) × LetterRows edition s.now rows.now n }
    requires filed { Filed s.now rows.now identifier_column index.now n }
    ensures { FaultIn Class.A s.now rows.now n result }
{
    if n == 0 || rows::kind_at(rows, 0) != PROFILE {
        return Some(0);
    }
    pass(s, rows, index, n)
}
