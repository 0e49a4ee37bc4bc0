// The two numbers of a page, and what they are to PM1: X.209 integers, and the verdict on them by T.502's table 10.
#![tactic(auto)]

ghost use Rattle.std.specs.Prelude.{◌≡◌, [], ◌∷◌, ◌≤◌, ◌^◌};
ghost use Rattle.measures.specs.Integers.{is_integer, integer_of};
ghost use Rattle.measures.specs.Verdicts.{number_of, pair, not_over, within, essential_pairs, non_essential_pairs, verdict_of_sizes, under_one, verdict_of_two};

// The verdicts on a page. The numbers are those of the list that is lent.
#[derive(Clone, Copy, Debug, PartialEq, Eq)]
pub enum Verdict {
    Absent = 0,
    Essential = 1,
    NonEssential = 2,
    Outside = 3,
    NotFixed = 4,
}

impl From<Verdict> for u32 {
    ghost from_gives = { λ verdict number. number ≡ number_of verdict };

    fn from(verdict: Verdict) -> u32 {
        verdict as u32
    }
}

// An integer: whether it is under 0, and how far from 0 it is.
#[derive(Clone, Copy)]
pub struct Integer {
    pub negative: bool,
    pub distance: usize,
}

// Whether octets are an integer: four at most, and no octet more than it needs.
fn is_integer(v: &[u8]) -> bool
    ensures { result ≡ is_integer v.now }
{
    let n = v.len();
    if n == 0 {
        return false;
    }
    if 4 < n {
        return false;
    }
    if n == 1 {
        return true;
    }
    let nine = v[0] as usize * 2 + v[1] as usize / 128;
    if nine == 0 {
        return false;
    }
    nine != 511
}

// How many numbers so many octets have.
fn power(n: usize) -> usize
    requires { (1 ≤ n) × (n ≤ 4) }
    ensures { result ≡ 256 ^ n }
{
    match n {
        1 => 256,
        2 => 65536,
        3 => 16777216,
        _ => 4294967296,
    }
}

// The integer that octets are, if they are one.
pub fn integer_of(v: &[u8]) -> Option<Integer>
    ensures { result ≡ integer_of v.now }
{
    if !is_integer(v) {
        return None;
    }
    let n = headers::big_endian(v, 0, v.len());
    if v[0] < 0x80 {
        return Some(Integer {
            negative: false,
            distance: n,
        });
    }
    Some(Integer {
        negative: true,
        distance: power(v.len()) - n,
    })
}

// Whether neither number is over its bound.
fn is_not_over(h: usize, v: usize, x: usize, y: usize) -> bool
    ensures { result ≡ not_over h v x y }
{
    if x < h {
        return false;
    }
    v <= y
}

// Whether two numbers are within a pair, as it stands or turned.
#[tactic(auto, unfolding(crate::specs::Verdicts::within))]
fn fits(h: usize, v: usize, x: usize, y: usize) -> bool
    ensures { result ≡ within h v (pair x y ∷ []) }
{
    if is_not_over(h, v, x, y) {
        return true;
    }
    is_not_over(h, v, y, x)
}

#[tactic(auto, unfolding(crate::specs::Verdicts::within))]
fn is_essential(h: usize, v: usize) -> bool
    ensures { result ≡ within h v essential_pairs }
{
    fits(h, v, 9240, 12400)
}

// The pairs as the request prints them. The first two lie within the third, and so decide nothing.
#[tactic(auto, unfolding(crate::specs::Verdicts::within))]
fn is_non_essential(h: usize, v: usize) -> bool
    ensures { result ≡ within h v non_essential_pairs }
{
    if fits(h, v, 9920, 14030) {
        return true;
    }
    if fits(h, v, 10200, 13200) {
        return true;
    }
    fits(h, v, 14030, 19840)
}

// The verdict on two sizes that are not under 1.
#[tactic(auto, unfolding(crate::specs::Verdicts::verdict_of_sizes))]
fn verdict_of_sizes(h: usize, v: usize) -> Verdict
    ensures { number_of result ≡ verdict_of_sizes h v }
{
    if is_essential(h, v) {
        return Verdict::Essential;
    }
    if is_non_essential(h, v) {
        return Verdict::NonEssential;
    }
    Verdict::Outside
}

// Whether a number is under 1.
fn is_under_one(n: Integer) -> bool
    ensures { result ≡ under_one n }
{
    if n.negative {
        return true;
    }
    n.distance == 0
}

// The verdict on two values.
#[tactic(auto, unfolding(crate::specs::Verdicts::verdict_of_two))]
pub fn verdict_of_two(h: Option<Integer>, v: Option<Integer>) -> Verdict
    ensures { number_of result ≡ verdict_of_two h v }
{
    let Some(wide) = h else {
        return Verdict::NotFixed;
    };
    let Some(high) = v else {
        return Verdict::NotFixed;
    };
    if is_under_one(wide) {
        return Verdict::Outside;
    }
    if is_under_one(high) {
        return Verdict::Outside;
    }
    verdict_of_sizes(wide.distance, high.distance)
}
