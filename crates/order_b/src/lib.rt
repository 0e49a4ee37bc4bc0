// The order of class B in one pass over the rows, with a small state by value. Nothing is stored: the element that a unit is associated with is looked up in
// the index that is there.
#![tactic(auto)]

ghost use Rattle.std.specs.Prelude.{◌≡◌, ◌||◌, ◌+◌, ◌*◌, ◌<◌, ◌≤◌, eqb, length};
ghost use Rattle.rows.specs.Rows.{scratch_width};
ghost use Rattle.rows.specs.Columns.{identifier_column};
ghost use Rattle.rows.specs.Columns.{span_at, there};
ghost use Rattle.order.specs.Ranks.{rank_in};
ghost use Rattle.order.specs.ClassB.{rows_b};
ghost use Rattle.order.specs.declared.Class.TheVariants.{B};
ghost use Rattle.order.specs.PassB.{step_b};
ghost use Rattle.order.specs.Fault.{FaultIn};
ghost use Rattle.letters.specs.Scratch.{LetterRows};
ghost use Rattle.elements.specs.declared.Edition.{Edition};
ghost use Rattle.rows.specs.Index.{Filed};
ghost use Rattle.order_b.specs.Steps.{state_of, StepIs, first_step, unit_step, may_follow, head_step, PassIs};

use reading::Side;
use rows::{LAYOUT_CLASS, LAYOUT_OBJECT, PROFILE, TEXT_UNIT};

// The rank past the last: that of kinds with no place.
const NO_RANK: usize = 7;

// After the last element that is no text unit: its rank, its row, and how many of its portions wait for their units.
#[derive(Clone, Copy)]
pub struct State {
    pub rank: usize,
    pub head: usize,
    pub left: usize,
}

// The rank of a kind in the order of class B.
#[tactic(auto, unfolding(order::specs::Ranks::rank_in))]
fn rank_of(kind: usize) -> usize
    ensures { result ≡ rank_in rows_b kind }
{
    match kind {
        PROFILE => 0,
        LAYOUT_CLASS => 1,
        7 => 2, // presentation styles
        LAYOUT_OBJECT => 3,
        9 => 4, // sealed profiles
        10 => 5, // enciphered profiles
        12 => 6, // post-enciphered parts
        _ => NO_RANK,
    }
}

// Whether what row j lists can come: it lists nothing, or it has an identifier.
fn can_come(rows: &[u32], j: usize, lists: usize) -> bool
    requires { j * scratch_width + scratch_width ≤ length rows.now }
    ensures { result ≡ (eqb lists 0 || there (span_at rows.now identifier_column j)) }
{
    lists == 0 || rows::is_named(rows, j)
}

// Whether an element of a kind that is no unit may stand next.
fn may_follow(state: State, kind: usize) -> bool
    ensures { result ≡ may_follow (state_of state) kind }
{
    let rank = rank_of(kind);
    state.left == 0 && kind != PROFILE && rank < NO_RANK && state.rank <= rank
}

// The first element: it must be the profile.
fn first_step(s: &[u8], rows: &[u32], index: &[u16], n: usize) -> Option<State>
    requires letter_rows { (edition : Edition) × LetterRows edition s.now rows.now n }
    requires filed { Filed s.now rows.now identifier_column index.now n }
    requires n_nonzero { 0 < n }
    ensures { StepIs s.now rows.now n 0 first_step result }
{
    let kind = rows::kind_at(rows, 0);
    if kind != PROFILE {
        return None;
    }
    let left = owners::portions_of(s, rows, 0);
    if !can_come(rows, 0, left) {
        return None;
    }
    Some(State {
        rank: rank_of(kind),
        head: 0,
        left,
    })
}

// A text unit: it must represent a portion of the last element that is none.
fn unit_step(
    s: &[u8],
    rows: &[u32],
    index: &[u16],
    n: usize,
    state: State,
    u: usize,
) -> Option<State>
    requires letter_rows { (edition : Edition) × LetterRows edition s.now rows.now n }
    requires filed { Filed s.now rows.now identifier_column index.now n }
    requires u_lt_n { u < n }
    ensures { StepIs s.now rows.now n u (unit_step (state_of state)) result }
{
    let owner = owners::owner_of(s, rows, index, n, Side::Layout, u)?;
    if owner.row != state.head {
        return None;
    }
    Some(State {
        rank: state.rank,
        head: state.head,
        left: state.left.saturating_sub(1),
    })
}

// Any other element: the head of those that follow.
fn head_step(
    s: &[u8],
    rows: &[u32],
    index: &[u16],
    n: usize,
    state: State,
    j: usize,
) -> Option<State>
    requires letter_rows { (edition : Edition) × LetterRows edition s.now rows.now n }
    requires filed { Filed s.now rows.now identifier_column index.now n }
    requires j_lt_n { j < n }
    ensures { StepIs s.now rows.now n j (head_step (state_of state) j) result }
{
    let kind = rows::kind_at(rows, j);
    if !may_follow(state, kind) {
        return None;
    }
    let left = owners::portions_of(s, rows, j);
    if !can_come(rows, j, left) {
        return None;
    }
    Some(State {
        rank: rank_of(kind),
        head: j,
        left,
    })
}

// One step of the pass.
fn step_b(s: &[u8], rows: &[u32], index: &[u16], n: usize, state: State, j: usize) -> Option<State>
    requires letter_rows { (edition : Edition) × LetterRows edition s.now rows.now n }
    requires filed { Filed s.now rows.now identifier_column index.now n }
    requires j_lt_n { j < n }
    ensures { StepIs s.now rows.now n j (step_b (state_of state) j) result }
{
    if rows::kind_at(rows, j) == TEXT_UNIT {
        unit_step(s, rows, index, n, state, j)
    } else {
        head_step(s, rows, index, n, state, j)
    }
}

// The elements after the first, from the state that it left.
fn pass(s: &[u8], rows: &[u32], index: &[u16], n: usize, start: State) -> Option<usize>
    requires letter_rows { (edition : Edition) × LetterRows edition s.now rows.now n }
    requires filed { Filed s.now rows.now identifier_column index.now n }
    requires n_nonzero { 0 < n }
    ensures { PassIs s.now rows.now n (state_of start) result }
{
    let mut state = start;
    for j in 1..n {
        match step_b(s, rows, index, n, state, j) {
            None => return Some(j),
            Some(after) => state = after,
        }
    }
    if state.left == 0 { None } else { Some(n) }
}

// Where the elements of an accepted letter leave the order of class B.
pub fn fault_b(s: &[u8], rows: &[u32], index: &[u16], n: usize) -> Option<usize>
    requires letter_rows { (edition : Edition) × LetterRows edition s.now rows.now n }
    requires filed { Filed s.now rows.now identifier_column index.now n }
    ensures { FaultIn B s.now rows.now n result }
{
    if n == 0 {
        return Some(0);
    }
    match first_step(s, rows, index, n) {
        None => Some(0),
        Some(start) => pass(s, rows, index, n, start),
    }
}
