// The date of the document: by its profile, once the stream is judged; and by the first element alone.
ghost use Rattle.answers.specs.Dates.{DateOutcome, DatePartOutcome};
ghost use Rattle.answers.specs.Dating.{DateTells};
ghost use Rattle.answers.specs.FirstDates.{FirstDateOutcome};

use super::{Dated, Edition, FirstDated, refused_by};

// The date of the document: the octets of the one date in the letter's profile, a part of the caller's own stream. It is an empty part if the
// stream is refused, or has no such date, or that names no day. The viewer shows it above the letter, and `dated` says why it is empty.
pub fn date<'a>(edition: Edition, stream: &'a [u8]) -> &'a [u8]
    ensures { DatePartOutcome edition stream.now result.now }
{
    let told = find_date(edition, stream);
    let first = told.first as usize;
    let past = told.past as usize;
    &stream[first..past]
}

// The date in numbers: where its octets stand, and its year, month and day. With a refusal they are 0.
pub fn dated(edition: Edition, stream: &[u8]) -> Dated
    ensures { DateOutcome edition stream.now result }
{
    find_date(edition, stream)
}

// The rules first; then the date in the profile of a letter. The bounds are where the part stands.
fn find_date(edition: Edition, stream: &[u8]) -> Dated
    ensures { DateTells edition stream.now result }
{
    if let Err(why) = refused_by(edition, stream) {
        return answers::refused_date(why.number, why.place);
    }
    answers::date_of_letter(stream)
}

// The date of the document by the first element alone, with the note that the remainder is unread. The inbox list asks this of each letter, or of
// its front: the octets after the first element are counted and not read.
pub fn first_date(edition: Edition, stream: &[u8]) -> FirstDated
    ensures { FirstDateOutcome edition stream.now result }
{
    answers::date_of_first(edition, stream)
}
