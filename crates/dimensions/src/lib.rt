// The dimensions of a page: the A4 in its descriptor body, the numbers in that, and the verdict on them.
#![tactic(auto)]

ghost use Rattle.std.specs.Prelude.{◌≡◌};
ghost use Rattle.runs.specs.Runs.{tree_in, Fine};
ghost use Rattle.measures.specs.Verdicts.{number_of};
ghost use Rattle.dimensions.specs.Dimensions.{verdict_of_items, verdict_of_body, verdict_of};

use contents::Sought;
use measures::Verdict;
use runs::Run;

// The octets of the items on the way to the numbers.
const DESCRIPTOR: usize = 0x31;

const DIMENSIONS: usize = 0xA4;

const FIXED: usize = 0x80;

// The verdict on what an A4 holds: two items 80, and nothing else.
fn verdict_of_items(s: &[u8], r: Run) -> Verdict
    requires { Fine s.now r }
    ensures { number_of result ≡ verdict_of_items (tree_in s.now r) }
{
    let o = contents::opening_of(s, r);
    if o.count != 2 {
        return Verdict::NotFixed;
    }
    let one = o.one;
    let two = o.two;
    if one.code != FIXED {
        return Verdict::NotFixed;
    }
    if two.code != FIXED {
        return Verdict::NotFixed;
    }
    let h = measures::integer_of(&s[one.first..one.past]);
    let v = measures::integer_of(&s[two.first..two.past]);
    measures::verdict_of_two(h, v)
}

// The verdict on a descriptor body. One pass counts the A4 and hands out the run inside the first, as it does of an element's portions.
fn verdict_of_body(s: &[u8], r: Run) -> Verdict
    requires { Fine s.now r }
    ensures { number_of result ≡ verdict_of_body (tree_in s.now r) }
{
    let sought = Sought {
        identifier: 0,
        logical: 0,
        portions: DIMENSIONS,
        never: 0,
        neither: 0,
    };
    let g = contents::gather(s, r, sought);
    if g.lists == 0 {
        return Verdict::Absent;
    }
    if g.lists != 1 {
        return Verdict::NotFixed;
    }
    verdict_of_items(s, g.list)
}

// The verdict on an element, by the run of its items.
pub fn verdict_of(s: &[u8], r: Run) -> Verdict
    requires { Fine s.now r }
    ensures { number_of result ≡ verdict_of (tree_in s.now r) }
{
    let Some(p) = contents::first_with(s, r, DESCRIPTOR) else {
        return Verdict::Absent;
    };
    verdict_of_body(s, p.inner)
}
