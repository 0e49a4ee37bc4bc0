// Days of the Gregorian calendar, as the first ten octets of a value spell them: four, two and two digits with hyphens between.
#![tactic(auto)]

ghost use Rattle.std.specs.Prelude.{◌≡◌, true, cond, Some, None, ◌+◌, ◌<◌, length};
ghost use Rattle.calendar.specs.Calendar.{leap, days_in, exists, two_digits, two_number, spells_ten, day_at, names_day};

const MONTH_DAYS: [u8; 13] = [0, 31, 28, 31, 30, 31, 30, 31, 31, 30, 31, 30, 31];

// A day of the calendar.
#[derive(Clone, Copy)]
pub struct Day {
    pub year: usize,
    pub month: usize,
    pub day: usize,
}

fn is_leap(year: usize) -> bool
    ensures { result ≡ leap year }
{
    if year % 4 != 0 {
        return false;
    }
    if year % 100 != 0 {
        return true;
    }
    year % 400 == 0
}

// The days of a month: 0 of what is no month.
#[tactic(auto, unfolding(crate::specs::Calendar::days_in))]
fn days_in(year: usize, month: usize) -> usize
    ensures { result ≡ days_in year month }
{
    let Some(&table_days) = MONTH_DAYS.get(month) else {
        return 0;
    };
    let days = table_days as usize;
    if month != 2 {
        return days;
    }
    if is_leap(year) {
        return 29;
    }
    28
}

#[tactic(auto, unfolding(crate::specs::Calendar::exists))]
fn is_day(d: Day) -> bool
    ensures { result ≡ exists d }
{
    if d.year == 0 {
        return false;
    }
    if d.day == 0 {
        return false;
    }
    d.day <= days_in(d.year, d.month)
}

#[tactic(auto, unfolding(crate::specs::Calendar::two_digits))]
fn is_two_digits(v: &[u8], i: usize) -> bool
    requires { i + 1 < length v.now }
    ensures { result ≡ two_digits v.now i }
{
    if !names::is_digit(v[i]) {
        return false;
    }
    names::is_digit(v[i + 1])
}

#[tactic(auto, unfolding(crate::specs::Calendar::two_number))]
fn two_number(v: &[u8], i: usize) -> usize
    requires { (i + 1 < length v.now) × (two_digits v.now i ≡ true) }
    ensures { result ≡ two_number v.now i }
{
    10 * ((v[i] as usize) - 48) + ((v[i + 1] as usize) - 48)
}

// Whether a value begins with four, two and two digits with hyphens between.
#[tactic(auto, unfolding(crate::specs::Calendar::spells_ten))]
fn is_spelt(v: &[u8]) -> bool
    ensures { result ≡ spells_ten v.now }
{
    if v.len() < 10 {
        return false;
    }
    if !is_two_digits(v, 0) {
        return false;
    }
    if !is_two_digits(v, 2) {
        return false;
    }
    if v[4] != 45 {
        return false;
    }
    if !is_two_digits(v, 5) {
        return false;
    }
    if v[7] != 45 {
        return false;
    }
    is_two_digits(v, 8)
}

// The day that a value spells.
#[tactic(auto, unfolding(crate::specs::Calendar::day_at))]
fn day_at(v: &[u8]) -> Day
    requires { spells_ten v.now ≡ true }
    ensures { result ≡ day_at v.now }
{
    Day {
        year: 100 * two_number(v, 0) + two_number(v, 2),
        month: two_number(v, 5),
        day: two_number(v, 8),
    }
}

// The day that the first ten octets of a value name, if they name one.
#[tactic(auto, unfolding(crate::specs::Calendar::names_day))]
pub fn day_named(v: &[u8]) -> Option<Day>
    ensures { result ≡ cond (names_day v.now) (Some (day_at v.now)) None }
{
    if !is_spelt(v) {
        return None;
    }
    let d = day_at(v);
    if !is_day(d) {
        return None;
    }
    Some(d)
}
