// The date of the document: the one item [0] on the path A3, A0 in the profile, and the day that its first ten octets name.
#![tactic(auto)]

ghost use Rattle.std.specs.Prelude.{◌≡◌};
ghost use Rattle.runs.specs.Runs.{items_of, Fine};
ghost use Rattle.dates.specs.Finding.{path_octet, found_at, both, places_from, Tells, Answers};

use calendar::Day;
use runs::Run;

const MANAGEMENT: usize = 0xA3;

const TIMES: usize = 0xA0;

const DATE: usize = 0x80;

const CONSTRUCTED_DATE: usize = 0xA0;

const PATH_LENGTH: usize = 2;

// What a pass found: nothing; one primitive item, with its value from `first` to `past`; or more, or a constructed one, which do not serve.
#[derive(Clone, Copy)]
enum Found {
    Nothing,
    Sole { first: usize, past: usize },
    Unfit,
}

// The date: the bounds of its octets, and the day.
#[derive(Clone, Copy)]
pub struct DateFound {
    pub first: usize,
    pub past: usize,
    pub day: Day,
}

// The octet of the path that so many others follow.
fn path_octet(level: usize) -> usize
    ensures { result ≡ path_octet level }
{
    if level == 0 {
        return TIMES;
    }
    MANAGEMENT
}

// An item, if it is [0].
fn zero_at(code: usize, first: usize, past: usize) -> Found
    ensures { result ≡ found_at code first past }
{
    if code == DATE {
        return Found::Sole { first, past };
    }
    if code == CONSTRUCTED_DATE {
        return Found::Unfit;
    }
    Found::Nothing
}

// What was found in one run and then in another.
fn both(a: Found, b: Found) -> Found
    ensures { result ≡ both a b }
{
    if let Found::Nothing = a {
        return b;
    }
    if let Found::Nothing = b {
        return a;
    }
    Found::Unfit
}

// The items [0] at the end of the path, from a run that is `level` octets before it. It calls itself for the run inside each item on
// the path.
fn found_from(s: &[u8], r: Run, level: usize) -> Found
    requires { Fine s.now r }
    ensures { Tells s.now (places_from level (items_of s.now r)) result }
{
    let mut cur = r;
    let mut had = Found::Nothing;
    while let Some(item) = runs::meet(s, cur) {
        cur = item.rest;
        if level == 0 {
            had = both(had, zero_at(item.code, item.first, item.past));
        } else if item.code == path_octet(level - 1) {
            had = both(had, found_from(s, item.inner, level - 1));
        }
    }
    had
}

// The date in a profile whose run is known to be whole, or the number of a refusal.
pub fn date_in(s: &[u8], profile: Run) -> Result<DateFound, usize>
    requires { Fine s.now profile }
    ensures { Answers s.now profile result }
{
    let Found::Sole { first, past } = found_from(s, profile, PATH_LENGTH) else {
        return Err(23);
    };
    let Some(day) = calendar::day_named(&s[first..past]) else {
        return Err(24);
    };
    Ok(DateFound { first, past, day })
}
