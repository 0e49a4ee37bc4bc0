// The date of the document by its first element alone: what follows that element is not read.
ghost use Rattle.std.specs.Prelude.{◌≤◌, length};
ghost use Rattle.octets.specs.Walk.{stream_limit};
ghost use Rattle.fronts.specs.FirstItem.{FirstItem};
ghost use Rattle.answers.specs.FirstDates.{FirstDateOutcome};
ghost use Rattle.answers.specs.Dating.{FirstTells};

use super::date::{dated_as, refused_date};
use super::{Dated, FirstDated};
use elements::Edition;
use octets::STREAM_LIMIT;
use runs::Run;

const TOO_LONG: u32 = 1;

const NO_PROFILE: u32 = 11;

// The date in a first element that is whole: rules 10 and 11, then the date in its run.
fn date_in_first(edition: Edition, stream: &[u8], code: usize, inner: Run) -> Dated
    requires { FirstItem stream.now code inner × (length stream.now ≤ stream_limit) }
    ensures { FirstTells edition stream.now result }
{
    let shape = elements::shape_of(edition, code);
    match judging::early(0, code, shape.octet) {
        Err(number) => refused_date(number as u32, 0),
        Ok(()) => dated_as(dates::date_in(stream, inner)),
    }
}

// The numbers of the answer.
fn first_numbers(edition: Edition, stream: &[u8]) -> Dated
    ensures { FirstTells edition stream.now result }
{
    if STREAM_LIMIT < stream.len() {
        return refused_date(TOO_LONG, 0);
    }
    if stream.len() == 0 {
        return refused_date(NO_PROFILE, 0);
    }
    match fronts::first_item(stream) {
        Ok(first) => date_in_first(edition, stream, first.code, first.inner),
        Err(refusal) => refused_date(refusal.number as u32, refusal.place as u32),
    }
}

// The date by the first element, with the note that the remainder is unread.
pub fn date_of_first(edition: Edition, stream: &[u8]) -> FirstDated
    ensures { FirstDateOutcome edition stream.now result }
{
    let told = first_numbers(edition, stream);
    FirstDated {
        number: told.number,
        place: told.place,
        first: told.first,
        past: told.past,
        year: told.year,
        month: told.month,
        day: told.day,
        unread: 1,
    }
}
