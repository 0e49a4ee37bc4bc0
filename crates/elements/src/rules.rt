// Rules 12 to 14 of an element whose items stand in order, by what was found in it.
ghost use Rattle.std.specs.Prelude.{◌≡◌};
ghost use Rattle.contents.specs.Search.{Value};
ghost use Rattle.elements.specs.Judge.{spelt};
ghost use Rattle.elements.specs.Says.{Placed, Bounds};
ghost use Rattle.elements.specs.Frames.{OneOctet, Types};
ghost use Rattle.elements.specs.Sees.{once, tabled_by, spelt_by};

use super::NO_TYPE;
use contents::{Gathered, Span};
use portions::{MOST_PORTIONS, PortionList};

// Rule 13: the object type, if it is in its range.
pub fn object_type(s: &[u8], v: Span, types: usize) -> Option<usize>
    requires { Placed s.now v }
    ensures { OneOctet result × ((value : Value) → Bounds s.now v value → Types types value result) }
{
    let first = v.first;
    let past = v.past;
    if past == 0 {
        return Some(NO_TYPE);
    }
    if past - first != 1 {
        return None;
    }
    let value = s[first] as usize;
    if value < types {
        return Some(value);
    }
    None
}

// Whether an item may stand there so often: at most once, and once if it is needed.
#[tactic(auto, unfolding(crate::specs::Sees::once))]
fn is_once(needed: bool, amount: usize) -> bool
    ensures { result ≡ once needed amount }
{
    if amount == 0 {
        return !needed;
    }
    amount <= 1
}

// Rule 12, in an element whose items stand in order, by what was gathered.
#[tactic(auto, unfolding(crate::specs::Sees::tabled_by))]
pub fn is_tabled(needed: bool, g: Gathered) -> bool
    ensures { result ≡ tabled_by needed g }
{
    if !is_once(needed, g.identifiers) {
        return false;
    }
    if 1 < g.logicals {
        return false;
    }
    if 1 < g.lists {
        return false;
    }
    g.barred == 0
}

// Whether an identifier is well spelt, or absent.
fn is_spelt(s: &[u8], v: Span) -> bool
    requires { Placed s.now v }
    ensures { (value : Value) → Bounds s.now v value → result ≡ spelt value }
{
    let first = v.first;
    let past = v.past;
    if past == 0 {
        return true;
    }
    names::is_identifier(&s[first..past])
}

// Rule 14, by what was gathered and read.
pub fn are_spelt(s: &[u8], identifier: Span, logical: Span, listed: PortionList) -> bool
    requires { Placed s.now identifier × Placed s.now logical }
    ensures { (x y : Value) → Bounds s.now identifier x → Bounds s.now logical y → result ≡ spelt_by x y listed }
{
    if !is_spelt(s, identifier) {
        return false;
    }
    if !is_spelt(s, logical) {
        return false;
    }
    if MOST_PORTIONS < listed.count {
        return false;
    }
    !listed.misspelt
}
