// The public questions, and nothing else. None has a `requires`: any caller may ask, of any octets, with any buffers. Those of the base are here,
// those that were asked for later each in a file of their own. Crate `odif_c` has their names for C.
#![tactic(auto)]

ghost use Rattle.std.specs.Prelude.{◌≡◌, ◌≤◌};
ghost use Rattle.octets.specs.Walk.{stream_limit};
ghost use Rattle.answers.specs.Asking.{written_as, RulesSay};
ghost use Rattle.answers.specs.Answers.{CheckOutcome, NormalOutcome, ListOutcome, PartOutcome, WhyOutcome, LocatedOutcome, Stands, JoinedOutcome};

use answers::Question;
pub use answers::{
    Checked, Copied, Dated, FirstDated, Found, Listed, Reason, Related, Sourced, TextRead, Written,
};
pub use characters::Shown;
pub use elements::Edition;
use headers::Refusal;
pub use order::{Class, Ordered};
pub use reading::{Match, Side};

mod dating; // dating.rt: the date of the document
mod family; // family.rt: the children of a row
mod in_order; // in_order.rt: the order of a letter by an interchange class
mod made; // made.rt: a letter that is made
mod mailroom; // mailroom.rt: the normal form of a short stream
mod showing; // showing.rt: the characters of a text
mod side_sources; // side_sources.rt: where each octet of a side stands
mod side_text; // side_text.rt: the whole reading of a side

pub use dating::{date, dated, first_date};
pub use family::children;
pub use in_order::order;
pub use made::make;
pub use mailroom::{normal_short, normal_short_lent};
pub use showing::utf8;
pub use side_sources::sources;
pub use side_text::text;

// Checks a stream and fills the element table, thirteen numbers a row. The viewer asks this first.
pub fn check(edition: Edition, stream: &[u8], table: &mut [u32]) -> Checked
    ensures { CheckOutcome edition stream.now table.old result table.new }
{
    let told = scratch::ask(edition, stream, Question::Check, table, &mut [], &mut []);
    Checked::from(told)
}

// Writes the normal form of a stream. The archive asks this, and keeps what is written.
pub fn normal(edition: Edition, stream: &[u8], out: &mut [u8]) -> Written
    ensures { NormalOutcome edition stream.now out.old result out.new }
{
    if let Err(why) = refused_by(edition, stream) {
        return unwritten(why);
    }
    written_as(normal::write(stream, out))
}

// A refusal as the writer tells it: nothing is written.
fn unwritten(why: Reason) -> Written
    ensures { result ≡ record { number = why.number; place = why.place; length = 0 } }
{
    Written {
        number: why.number,
        place: why.place,
        length: 0,
    }
}

// The writer's answer as it is told: 17, 18, or no refusal and a length that no stream passes.
fn written_as(answer: Result<usize, Refusal>) -> Written
    requires { ((written_as answer).number ≤ 18) × (((written_as answer).place ≤ 0) × ((written_as answer).length ≤ stream_limit)) }
    ensures { result ≡ written_as answer }
{
    match answer {
        Ok(length) => Written {
            number: 0,
            place: 0,
            length: length as u32,
        },
        Err(refusal) => Written {
            number: refusal.number as u32,
            place: refusal.place as u32,
            length: 0,
        },
    }
}

// Lists the matches of a side, and fills the element table. The viewer reads the letter in this order.
pub fn list(
    edition: Edition,
    stream: &[u8],
    side: Side,
    table: &mut [u32],
    list: &mut [Match],
) -> Listed
    ensures { ListOutcome edition side stream.now table.old list.old result table.new list.new }
{
    scratch::list_side(edition, stream, side, table, list)
}

// The content of a text unit: a part of the caller's own stream, and an empty part if the stream or the element is refused, the content is in
// pieces or tiles, or there is none. The viewer asks this of an element of a match, and `why` if the part is empty.
pub fn content<'a>(edition: Edition, stream: &'a [u8], element: usize) -> &'a [u8]
    ensures { PartOutcome edition stream.now element result.now }
{
    let located = locate(edition, stream, element);
    let first = located.first as usize;
    let past = located.past as usize;
    &stream[first..past]
}

// Why the content of an element was refused: 0 at 0 if it was not.
pub fn why(edition: Edition, stream: &[u8], element: usize) -> Reason
    ensures { WhyOutcome edition stream.now element result }
{
    let located = locate(edition, stream, element);
    Reason {
        number: located.number,
        place: located.place,
    }
}

// The bounds of the content of a text unit in the stream, with the number and place of a refusal: `content` and `why` in numbers, for callers that
// take no part of a slice.
pub fn bounds(edition: Edition, stream: &[u8], element: usize) -> Found
    ensures { LocatedOutcome edition stream.now element result }
{
    locate(edition, stream, element)
}

// Where the content of an element stands in the stream, with the number and place of a refusal.
fn locate(edition: Edition, stream: &[u8], element: usize) -> Found
    ensures { LocatedOutcome edition stream.now element result × Stands edition stream.now element result.first result.past }
{
    let found = scratch::ask(
        edition,
        stream,
        Question::Content { element },
        &mut [],
        &mut [],
        &mut [],
    );
    Found::from(found)
}

// Copies the content of a text unit, its pieces joined in order, to a lent buffer. The viewer asks this where the content may be in pieces;
// nothing is written to a buffer that is too short.
pub fn joined(edition: Edition, stream: &[u8], element: usize, out: &mut [u8]) -> Copied
    ensures { JoinedOutcome edition stream.now element out.old result out.new }
{
    let put = scratch::ask(
        edition,
        stream,
        Question::Joined { element },
        &mut [],
        &mut [],
        out,
    );
    Copied::from(put)
}

// Whether rules 1 to 15 accept a stream, or why not.
fn refused_by(edition: Edition, stream: &[u8]) -> Result<(), Reason>
    ensures { RulesSay edition stream.now result }
{
    let told = scratch::ask(edition, stream, Question::Rules, &mut [], &mut [], &mut []);
    if told.number == 0 {
        return Ok(());
    }
    Err(Reason {
        number: told.number,
        place: told.place,
    })
}
