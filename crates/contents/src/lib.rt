// What an element holds: its first items, and, of a run, the items that name it. Each is one pass over the run.
#![tactic(auto)]

ghost use Rattle.std.specs.Prelude.{◌≡◌, cond, not, ◌&&◌, ◌||◌, List, ℕ, ◌+◌, ◌<◌, ◌^◌, eqb};
ghost use Rattle.runs.specs.Runs.{tree_in, Fine};
ghost use Rattle.contents.specs.Search.{in_order};
ghost use Rattle.contents.specs.First.{span_of};
ghost use Rattle.contents.specs.Opening.{no_part, Begins, Opens, CountsOn, FoundIn, FindsPart};
ghost use Rattle.contents.specs.Gather.{Gathers, unseen, earlier, seen_with, gathered_from};

use runs::Run;

// The bounds of a value; absent is 0 and 0.
#[derive(Clone, Copy)]
pub struct Span {
    pub first: usize,
    pub past: usize,
}

// An item of a run: the code of its type field, its value from `first` to `past`, and the run inside it.
#[derive(Clone, Copy)]
pub struct Part {
    pub code: usize,
    pub first: usize,
    pub past: usize,
    pub inner: Run,
}

// How many items a run has, 3 for more than two, and the first two of them. An enum would be no plainer: more than two have a first two as
// well, and each reader of the first would name every variant that has it.
#[derive(Clone, Copy)]
pub struct Opening {
    pub count: usize,
    pub one: Part,
    pub two: Part,
}

// An item that is needed, or may be missing.
#[derive(Clone, Copy)]
pub struct Slot {
    pub octet: usize,
    pub needed: bool,
}

// The octets that matter in the run that names an element: its identifier, its logical identifier, its portions, and two that may
// not stand there. 0 is none: no item has it, so a pass need not test for it, as it would an `Option`.
#[derive(Clone, Copy)]
pub struct Sought {
    pub identifier: usize,
    pub logical: usize,
    pub portions: usize,
    pub never: usize,
    pub neither: usize,
}

// How often each of them stands there, and the first one's value; `list` is the run of the portions. The bounds are no `Option`: they go as
// they are into lent tables, where absent is 0 and 0.
#[derive(Clone, Copy)]
pub struct Gathered {
    pub identifiers: usize,
    pub identifier: Span,
    pub logicals: usize,
    pub logical: Span,
    pub lists: usize,
    pub portions: Span,
    pub list: Run,
    pub barred: usize,
}

// How many items with one octet were seen, and the first of them. The amount says more than an `Option` of the part would, and is told.
#[derive(Clone, Copy)]
struct Tally {
    amount: usize,
    part: Part,
}

// A part that is not there.
fn no_part() -> Part
    ensures { result ≡ no_part }
{
    Part {
        code: 0,
        first: 0,
        past: 0,
        inner: Run {
            at: 0,
            limit: 0,
            marked: false,
            room: 0,
        },
    }
}

// An item that was met. The run inside it is copied field by field: copied whole, a struct has its padding carried along, through
// memory.
fn part_of(code: usize, first: usize, past: usize, inner: Run) -> Part
    ensures { result ≡ record { code = code; first = first; past = past; inner = inner } }
{
    Part {
        code,
        first,
        past,
        inner: Run {
            at: inner.at,
            limit: inner.limit,
            marked: inner.marked,
            room: inner.room,
        },
    }
}

// A copy of a part, field by field.
fn copied(p: Part) -> Part
    ensures { result ≡ p }
{
    part_of(p.code, p.first, p.past, p.inner)
}

// 2 if a run that follows two items ends here, 3 if it goes on.
fn count_after_two(s: &[u8], last: Run) -> usize
    requires { Fine s.now last }
    ensures { CountsOn s.now last result }
{
    match runs::meet(s, last) {
        None => 2,
        Some(_) => 3,
    }
}

// The opening of a run whose first item is met already.
fn opening_after(s: &[u8], one: Part, rest: Run) -> Opening
    requires { Fine s.now rest }
    ensures { (r : Run) → Begins s.now r one rest → Opens s.now r result }
{
    match runs::meet(s, rest) {
        None => {
            Opening {
                count: 1,
                one,
                two: no_part(),
            }
        }
        Some(item) => {
            Opening {
                count: count_after_two(s, item.rest),
                one,
                two: part_of(item.code, item.first, item.past, item.inner),
            }
        }
    }
}

// The first two items of a run, and whether it has more. An element's own items are read by this, at most three of them.
pub fn opening_of(s: &[u8], r: Run) -> Opening
    requires { Fine s.now r }
    ensures { Opens s.now r result }
{
    match runs::meet(s, r) {
        None => {
            Opening {
                count: 0,
                one: no_part(),
                two: no_part(),
            }
        }
        Some(item) => opening_after(
            s,
            part_of(item.code, item.first, item.past, item.inner),
            item.rest,
        ),
    }
}

// Whether an item alone is the first of two slots, or the second.
fn fills_either(code: usize, one: Slot, two: Slot) -> bool
    ensures { result ≡ (eqb code one.octet && not two.needed || not one.needed && eqb code two.octet) }
{
    code == one.octet && !two.needed || !one.needed && code == two.octet
}

// Whether an opening has an item for each of two slots in order, or none where it is not needed, and no others. Contents that are
// not as tabled fail this.
pub fn fills(o: Opening, one: Slot, two: Slot) -> bool
    ensures { (s : List ℕ) (r : Run) → Opens s r o → result ≡ in_order one two (tree_in s r) }
{
    match o.count {
        0 => !one.needed && !two.needed,
        1 => fills_either(o.one.code, one, two),
        2 => o.one.code == one.octet && o.two.code == two.octet,
        _ => false,
    }
}

// The first of an opening's items with the octet: the object type, the run that names an element, the content.
pub fn part_with(o: Opening, octet: usize) -> Option<Part>
    ensures { FindsPart o octet result }
{
    if o.count > 0 && o.one.code == octet {
        return Some(o.one);
    }
    if o.count > 1 && o.two.code == octet {
        return Some(o.two);
    }
    None
}

// The first item of a run with the octet. A content that is asked for alone is found by this.
pub fn first_with(s: &[u8], r: Run, sought: usize) -> Option<Part>
    requires { Fine s.now r }
    ensures { FoundIn s.now r sought result }
{
    let mut cur = r;
    while let Some(item) = runs::meet(s, cur) {
        if item.code == sought {
            return Some(part_of(item.code, item.first, item.past, item.inner));
        }
        cur = item.rest;
    }
    None
}

// Nothing was seen.
fn unseen_yet() -> Tally
    ensures { result ≡ unseen }
{
    Tally {
        amount: 0,
        part: no_part(),
    }
}

// The first of the items with an octet, after one more.
fn first_of(x: Tally, p: Part) -> Part
    ensures { result ≡ earlier x p }
{
    if x.amount == 0 {
        return copied(p);
    }
    let first = x.part;
    copied(first)
}

// One item more: it counts if it has the octet.
fn seen_with(x: Tally, octet: usize, p: Part) -> Tally
    requires { x.amount + 1 < 2 ^ 64 }
    ensures { result ≡ seen_with octet x p }
{
    if p.code == octet {
        return Tally {
            amount: x.amount + 1,
            part: first_of(x, p),
        };
    }
    let part = x.part;
    Tally {
        amount: x.amount,
        part: copied(part),
    }
}

// One more if a code is the one that is counted.
fn counted_with(n: usize, counted: usize, code: usize) -> usize
    requires { n + 1 < 2 ^ 64 }
    ensures { result ≡ n + cond (eqb code counted) 1 0 }
{
    if code == counted {
        return n + 1;
    }
    n
}

// The bounds of a part's value.
pub fn span_of(p: Part) -> Span
    ensures { result ≡ span_of p }
{
    Span {
        first: p.first,
        past: p.past,
    }
}

// What was seen, as the answer.
fn gathered_from(identifier: Tally, logical: Tally, portions: Tally, barred: usize) -> Gathered
    ensures { result ≡ gathered_from identifier logical portions barred }
{
    let list = portions.part;
    let inner = list.inner;
    Gathered {
        identifiers: identifier.amount,
        identifier: span_of(identifier.part),
        logicals: logical.amount,
        logical: span_of(logical.part),
        lists: portions.amount,
        portions: span_of(list),
        list: inner,
        barred,
    }
}

// How often each of five octets stands in a run, and the first value of three of them, in one pass: what names an element.
pub fn gather(s: &[u8], r: Run, sought: Sought) -> Gathered
    requires { Fine s.now r }
    ensures { Gathers s.now r sought result }
{
    let mut cur = r;
    let none = unseen_yet();
    let mut identifier = none;
    let mut logical = none;
    let mut portions = none;
    let mut barred: usize = 0;
    while let Some(item) = runs::meet(s, cur) {
        let p = part_of(item.code, item.first, item.past, item.inner);
        identifier = seen_with(identifier, sought.identifier, p);
        logical = seen_with(logical, sought.logical, p);
        portions = seen_with(portions, sought.portions, p);
        barred = counted_with(barred, sought.never, p.code);
        barred = counted_with(barred, sought.neither, p.code);
        cur = item.rest;
    }
    gathered_from(identifier, logical, portions, barred)
}
