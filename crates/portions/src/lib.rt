// The portions of an element: read once into lent numbers, and compared there.
#![tactic(auto)]

ghost use Rattle.std.specs.Prelude.{◌≡◌, false, not, ◌||◌, [], ◌∷◌, ◌++◌, ◌+◌, ◌*◌, ◌<◌, ◌≤◌, length, take};
ghost use Rattle.std.proofs.Math.Seq.{slice};
ghost use Rattle.octets.specs.Walk.{stream_limit};
ghost use Rattle.names.specs.Names.{is_portion};
ghost use Rattle.runs.specs.Runs.{Fine};
ghost use Rattle.portions.specs.Portions.{most_portions, among, repeats};
ghost use Rattle.portions.specs.Bounds.{pair_at, bounded_at, bounded, Inside};
ghost use Rattle.portions.specs.Lists.{ReadsPortions};
ghost use Rattle.portions.specs.Tags.{tags, tag};

use contents::Span;
use runs::Run;

const PORTION: usize = 0x12;

pub const MOST_PORTIONS: usize = 64;

const TAGS: usize = 64;

const NO_DIGITS: usize = 16;

// What one reading of portions tells: how many they are, and whether one is misspelt.
#[derive(Clone, Copy)]
pub struct PortionList {
    pub count: usize,
    pub misspelt: bool,
}

// Keeps the bounds of portion k, if it is one of the first 64.
fn keep_bounds(bounds: &mut [u32], k: usize, v: Span)
    requires { (2 * most_portions ≤ length bounds.old) × (v.first ≤ stream_limit) × (v.past ≤ stream_limit) }
    ensures { k < most_portions → take (2 * (k + 1)) bounds.new ≡ take (2 * k) bounds.old ++ v.first ∷ v.past ∷ [] }
{
    if k < MOST_PORTIONS {
        bounds[2 * k] = v.first as u32;
        bounds[2 * k + 1] = v.past as u32;
    }
}

// Whether one was misspelt before, or this value is.
fn is_misspelt(s: &[u8], before: bool, v: Span) -> bool
    requires { (v.first ≤ v.past) × (v.past ≤ length s.now) }
    ensures { result ≡ (before || not (is_portion (slice v.first v.past s.now))) }
{
    if before {
        return true;
    }
    !names::is_portion(&s[v.first..v.past])
}

// Reads the portions of an element, once: rules 12, 14 and 15 are judged by what it tells and by the numbers that it leaves, two for
// each of the first 64. The numbers lent are for this alone. Where other items are among the portions, nothing is told.
pub fn read_portions(s: &[u8], r: Run, bounds: &mut [u32]) -> Option<PortionList>
    requires { Fine s.now r × (length s.now ≤ stream_limit) × (2 * most_portions ≤ length bounds.old) }
    ensures { ReadsPortions s.now r result bounds.new }
{
    let mut left = r;
    // counted by hand, as a run is no iterator
    let mut count: usize = 0;
    let mut misspelt = false;
    while let Some(item) = runs::meet(s, left) {
        if item.code != PORTION {
            return None;
        }
        let value = Span {
            first: item.first,
            past: item.past,
        };
        misspelt = is_misspelt(s, misspelt, value);
        keep_bounds(bounds, count, value);
        count += 1;
        left = item.rest;
    }
    Some(PortionList { count, misspelt })
}

// The bounds of the value k.
fn bounds_of(bounds: &[u32], k: usize) -> Span
    requires { 2 * k + 1 < length bounds.now }
    ensures { result ≡ pair_at bounds.now k }
{
    let first = bounds[2 * k] as usize;
    let past = bounds[2 * k + 1] as usize;
    Span { first, past }
}

// Whether the value k stands again among those after it.
fn is_among(s: &[u8], bounds: &[u32], k: usize, count: usize) -> bool
    requires { (k < count) × (2 * count ≤ length bounds.now) × Inside s.now (slice (2 * k) (2 * count) bounds.now) }
    ensures { result ≡ among (bounded_at s.now bounds.now k)
        (bounded s.now (slice (2 * (k + 1)) (2 * count) bounds.now)) }
{
    let one = bounds_of(bounds, k);
    let value = &s[one.first..one.past];
    for j in k + 1..count {
        let other = bounds_of(bounds, j);
        if names::is_same(value, &s[other.first..other.past]) {
            return true;
        }
    }
    false
}

// Whether the value k stands again, by whether its tag is marked: if not, no value after it has the tag.
fn is_again(s: &[u8], bounds: &[u32], k: usize, count: usize, marked: bool) -> bool
    requires k_lt_count { (k < count) × (2 * count ≤ length bounds.now) × Inside s.now (slice (2 * k) (2 * count) bounds.now) }
    requires bounds_value { marked ≡ false → among (bounded_at s.now bounds.now k) (bounded s.now (slice (2 * (k + 1)) (2 * count) bounds.now)) ≡ false }
    ensures { result ≡ among (bounded_at s.now bounds.now k)
        (bounded s.now (slice (2 * (k + 1)) (2 * count) bounds.now)) }
{
    if !marked {
        return false;
    }
    is_among(s, bounds, k, count)
}

// The tag of a value: values with different tags are different.
fn tag_of(s: &[u8], v: Span) -> usize
    requires { (v.first ≤ v.past) × (v.past ≤ length s.now) }
    ensures { (result ≡ tag (slice v.first v.past s.now)) × (result < tags) }
{
    let mut r = NO_DIGITS;
    for digit in &s[v.first..v.past] {
        r = (10 * r + *digit as usize) % TAGS;
    }
    r
}

// Whether two of the values that the first numbers bound, two numbers a value, are the same. From the last to the first, the tags of those
// that are done are marked, and only a value whose tag is marked is compared with them.
pub fn has_repeats(s: &[u8], bounds: &[u32], count: usize) -> bool
    requires { (2 * count ≤ length bounds.now) × Inside s.now (take (2 * count) bounds.now) }
    ensures { result ≡ repeats (bounded s.now (take (2 * count) bounds.now)) }
{
    let mut marks = [false; TAGS];
    for k in (0..count).rev() {
        let tag = tag_of(s, bounds_of(bounds, k));
        if is_again(s, bounds, k, count, marks[tag]) {
            return true;
        }
        marks[tag] = true;
    }
    false
}
