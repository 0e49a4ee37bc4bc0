// One step of the order of class A, by numbers: whether an element may stand next, and what is known after it.
ghost use Rattle.std.specs.Prelude.{◌≡◌, ◌+◌};
ghost use Rattle.order.specs.Ranks.{rank_in};
ghost use Rattle.order.specs.ClassA.{rows_a};
ghost use Rattle.order_a.specs.Step.{rank_of, tabled, settled, comes, complete, stands, count_of, next, waiting, Small};

use rows::{LAYOUT_CLASS, LAYOUT_OBJECT, LOGICAL_CLASS, LOGICAL_OBJECT, PROFILE, TEXT_UNIT};

// The ranks of kinds 0 to 12; 13 is no place. A table here and a match in order_b, which has places for half of the kinds: one look-up for both would need
// the table's end, too.
const RANKS: [u8; 13] = [0, 1, 6, 3, 13, 2, 7, 4, 5, 9, 10, 11, 12];

const END: usize = 13;

const GENERIC: usize = 3;

const SPECIFIC: usize = 8;

// What is seen of an element: its kind, whether it has an identifier, how many portions it lists, whether a unit before it represents one of
// them; of a unit how many portions of classes and of objects before it it represents, whether it is one of those that are ordered, and whether
// its turn has come.
#[derive(Clone, Copy)]
pub struct Sight {
    pub kind: usize,
    pub named: bool,
    pub lists: usize,
    pub early: bool,
    pub generic: usize,
    pub specific: usize,
    pub ordered: bool,
    pub turn: bool,
}

// What is known of the elements so far: the rank of the last; how many portions of classes, and of objects, wait for their units; how many
// ordered units there were.
#[derive(Clone, Copy)]
pub struct State {
    pub rank: usize,
    pub generic: usize,
    pub specific: usize,
    pub ordered: usize,
}

// The rank of a kind, text units aside.
fn rank_in(kind: usize) -> usize
    ensures { result ≡ rank_in rows_a kind }
{
    if kind < RANKS.len() {
        usize::from(RANKS[kind])
    } else {
        END
    }
}

// The rank of an element: of a unit by what it represents, classes or objects, and not both.
#[tactic(auto, unfolding(crate::specs::Step::rank_of))]
fn rank_of(x: Sight) -> usize
    ensures { result ≡ rank_of x }
{
    if x.kind != TEXT_UNIT {
        return rank_in(x.kind);
    }
    match (x.generic != 0, x.specific != 0) {
        (true, false) => GENERIC,
        (false, true) => SPECIFIC,
        _ => END,
    }
}

// Whether the rank is one that may come next, and no second profile.
#[tactic(auto, unfolding(crate::specs::Step::tabled))]
fn is_tabled(s: State, x: Sight, rank: usize) -> bool
    ensures { result ≡ tabled s x rank }
{
    !x.early && x.kind != PROFILE && rank < END && s.rank <= rank
}

// Whether nothing is left of what had to come up to a rank.
#[tactic(auto, unfolding(crate::specs::Step::settled))]
fn is_settled(rank: usize, last: usize, left: usize) -> bool
    ensures { result ≡ settled rank last left }
{
    rank <= last || left == 0
}

// Whether what an element lists can come: it lists nothing, or it has an identifier.
#[tactic(auto, unfolding(crate::specs::Step::comes))]
fn can_come(x: Sight) -> bool
    ensures { result ≡ comes x }
{
    x.lists == 0 || x.named
}

// Whether nothing is passed over that had to come before, what is listed can come, and a unit stands in its turn.
#[tactic(auto, unfolding(crate::specs::Step::complete))]
fn is_complete(s: State, x: Sight, rank: usize) -> bool
    ensures { result ≡ complete s x rank }
{
    is_settled(rank, GENERIC, s.generic)
        && is_settled(rank, SPECIFIC, s.specific)
        && can_come(x)
        && x.turn
}

// Whether an element may stand next.
#[tactic(auto, unfolding(crate::specs::Step::stands))]
pub fn may_stand(s: State, x: Sight) -> bool
    ensures { result ≡ stands s x }
{
    let rank = rank_of(x);
    is_tabled(s, x, rank) && is_complete(s, x, rank)
}

// What an element lists, if it is of one of two kinds.
#[tactic(auto, unfolding(crate::specs::Step::count_of))]
fn count_of(kind: usize, a: usize, b: usize, lists: usize) -> usize
    ensures { result ≡ count_of kind a b lists }
{
    if rows::is_either(kind, a, b) {
        lists
    } else {
        0
    }
}

// What is known after an element that may stand next.
pub fn after(s: State, x: Sight) -> State
    requires { Small s x }
    ensures { result ≡ next s x }
{
    State {
        rank: rank_of(x),
        generic: s.generic.saturating_sub(x.generic)
            + count_of(x.kind, LAYOUT_CLASS, LOGICAL_CLASS, x.lists),
        specific: s.specific.saturating_sub(x.specific)
            + count_of(x.kind, LAYOUT_OBJECT, LOGICAL_OBJECT, x.lists),
        ordered: s.ordered + usize::from(x.ordered),
    }
}

// Whether portions wait for their units.
#[tactic(auto, unfolding(crate::specs::Step::waiting))]
pub fn is_waiting(s: State) -> bool
    ensures { result ≡ waiting s }
{
    s.generic != 0 || s.specific != 0
}
