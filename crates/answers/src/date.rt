// The date of the document, of a letter.
ghost use Rattle.std.specs.Prelude.{◌≡◌, ◌≤◌, length};
ghost use Rattle.octets.specs.Walk.{stream_limit};
ghost use Rattle.runs.specs.Runs.{whole_stream, Fine};
ghost use Rattle.elements.specs.declared.Edition.{Edition};
ghost use Rattle.answers.specs.Answers.{ruled};
ghost use Rattle.answers.specs.Dating.{refused_dated, dated_as, Narrow, DateTells};

use super::Dated;
use dates::DateFound;

// What is answered where there is no date to show.
pub fn refused_date(number: u32, place: u32) -> Dated
    ensures { result ≡ refused_dated number place }
{
    Dated {
        number,
        place,
        first: 0,
        past: 0,
        year: 0,
        month: 0,
        day: 0,
    }
}

// A date that was looked for, in numbers of 32 bits.
pub fn dated_as(found: Result<DateFound, usize>) -> Dated
    requires { Narrow found }
    ensures { result ≡ dated_as found }
{
    match found {
        Ok(date) => Dated {
            number: 0,
            place: 0,
            first: date.first as u32,
            past: date.past as u32,
            year: date.day.year as u32,
            month: date.day.month as u32,
            day: date.day.day as u32,
        },
        Err(number) => refused_date(number as u32, 0),
    }
}

// The date of a stream that was walked, if it is a letter: the first element of a letter is its profile.
pub fn date_of_letter(stream: &[u8]) -> Dated
    requires { Fine stream.now (whole_stream stream.now) × (length stream.now ≤ stream_limit) }
    ensures { (edition : Edition) → (ruled edition stream.now).number ≡ 0 → DateTells edition stream.now result }
{
    match runs::meet(stream, runs::whole_stream(stream)) {
        None => refused_date(0, 0),
        Some(item) => dated_as(dates::date_in(stream, item.inner)),
    }
}
