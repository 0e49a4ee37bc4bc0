// The work behind the questions: what each does with a stream that was judged.
// Nothing that was lent to a question is written before all that can refuse it is known.
#![tactic(auto)]

ghost use Rattle.std.specs.Prelude.{◌≡◌, length};
ghost use Rattle.octets.specs.Walk.{walk_of};
ghost use Rattle.octets.specs.Told.{ended};
ghost use Rattle.rows.specs.Columns.{identifier_column};
ghost use Rattle.rows.specs.Index.{Filed, BothFiled};
ghost use Rattle.letters.specs.Scratch.{LetterRows};
ghost use Rattle.answers.specs.Answers.{refused_check, CheckOutcome};
ghost use Rattle.answers.specs.Questions.{told_with, check_told, located_told, refused_told};
ghost use Rattle.answers.specs.Questions.{Leaves, Roomy};

use elements::Edition;
use order::Class;
use reading::Side;

mod children; // children.rt: the children of a row
mod content; // content.rt: the content of one element, as a part or copied
mod date; // date.rt: the date of the document
mod first_date; // first_date.rt: the same by the first element alone
mod in_order; // in_order.rt: the order of a letter, as number and place
mod list; // list.rt: the reading list of a side
mod replies; // replies.rt: each question's own answer, of what the work told
mod sourcing; // sourcing.rt: where each octet of a side stands
mod table; // table.rt: the lent table
mod text; // text.rt: the whole reading of a side

use children::children_judged;
use content::{join_judged, locate_judged};
pub use date::{date_of_letter, refused_date};
pub use first_date::date_of_first;
use list::list_judged;
use sourcing::sources_judged;
pub use table::TABLE_WIDTH;
use text::text_judged;

// The numbers of refusals that come after rules 1 to 15, those of the questions themselves; 17 and 18 are crate normal's. They are numbers, since the
// answers tell them so to C.
const TOO_FEW_ROWS: u32 = 16;

const LIST_TOO_SHORT: u32 = 19;

const NO_UNIT: u32 = 20;

const IN_PIECES: u32 = 21;

const COPY_TOO_SHORT: u32 = 22;

// Document 01's 20 is what does not exist: a text unit there, a row here.
const NO_ROW: u32 = 20;

const CHILDREN_TOO_SHORT: u32 = 25;

const SOURCES_TOO_SHORT: u32 = 31;

// The answers below are the C interface: structs in its layout, with a number that is 0 for accepted.

// What the check answers.
#[repr(C)]
#[derive(Clone, Copy)]
pub struct Checked {
    pub number: u32,
    pub place: u32,
    pub headers: u32,
    pub elements: u32,
}

// What the writer of the normal form answers.
#[repr(C)]
#[derive(Clone, Copy)]
pub struct Written {
    pub number: u32,
    pub place: u32,
    pub length: u32,
}

// What the lister of a side answers.
#[repr(C)]
#[derive(Clone, Copy)]
pub struct Listed {
    pub number: u32,
    pub place: u32,
    pub elements: u32,
    pub matches: u32,
}

// Why a fetch of content gave nothing: number 0 if it was answered.
#[repr(C)]
#[derive(Clone, Copy)]
pub struct Reason {
    pub number: u32,
    pub place: u32,
}

// The bounds of a text unit's content, for callers to whom no part can be handed back.
#[repr(C)]
#[derive(Clone, Copy)]
pub struct Found {
    pub number: u32,
    pub place: u32,
    pub first: u32,
    pub past: u32,
}

// What the copier of a joined content answers.
#[repr(C)]
#[derive(Clone, Copy)]
pub struct Copied {
    pub number: u32,
    pub place: u32,
    pub length: u32,
}

// The date of the document: the bounds of its octets in the stream, and its day. With a refusal they are 0.
#[repr(C)]
#[derive(Clone, Copy)]
pub struct Dated {
    pub number: u32,
    pub place: u32,
    pub first: u32,
    pub past: u32,
    pub year: u32,
    pub month: u32,
    pub day: u32,
}

// The date of the document by its first element alone, with the note that the remainder is unread: always 1.
#[repr(C)]
#[derive(Clone, Copy)]
pub struct FirstDated {
    pub number: u32,
    pub place: u32,
    pub first: u32,
    pub past: u32,
    pub year: u32,
    pub month: u32,
    pub day: u32,
    pub unread: u32,
}

// What is answered of the children of a row.
#[repr(C)]
#[derive(Clone, Copy)]
pub struct Related {
    pub number: u32,
    pub place: u32,
    pub elements: u32,
    pub children: u32,
}

// What is answered of the whole reading of a side.
#[repr(C)]
#[derive(Clone, Copy)]
pub struct TextRead {
    pub number: u32,
    pub place: u32,
    pub elements: u32,
    pub lines: u32,
    pub length: u32,
}

// What is answered of the sources of a side: how many lines it has, and how many records were put.
#[repr(C)]
#[derive(Clone, Copy)]
pub struct Sourced {
    pub number: u32,
    pub place: u32,
    pub lines: u32,
    pub sources: u32,
}

// A question that is put to a stream. Those that want a list say how many records or rows it has room for.
#[derive(Clone, Copy)]
pub enum Question {
    Rules,
    Check,
    Content { element: usize },
    Joined { element: usize },
    List { side: Side, room: usize },
    Children { row: usize, room: usize },
    Order { class: Class },
    Text { side: Side, room: usize },
    Sources { side: Side },
}

// What the work of any question tells. What the question does not ask for is 0.
#[derive(Clone, Copy)]
pub struct Told {
    pub number: u32,
    pub place: u32,
    pub headers: u32,
    pub elements: u32,
    pub listed: u32,
    pub length: u32,
    pub first: u32,
    pub past: u32,
}

// What the check answers to a stream that is refused.
pub fn refused_check(number: u32, place: u32, headers: u32) -> Checked
    ensures { result ≡ refused_check number place headers }
{
    Checked {
        number,
        place,
        headers,
        elements: 0,
    }
}

// The check of a letter: 16, or the table.
fn check_judged(
    edition: Edition,
    stream: &[u8],
    headers: u32,
    rows: &[u32],
    index: &[u16],
    count: usize,
    table: &mut [u32],
) -> Checked
    requires stream_value { walk_of stream.now ≡ ended (length stream.now) headers }
    requires letter_rows { LetterRows edition stream.now rows.now count }
    requires filed { Filed stream.now rows.now identifier_column index.now count }
    ensures { CheckOutcome edition stream.now table.old result table.new }
{
    if table.len() / TABLE_WIDTH < count {
        return refused_check(TOO_FEW_ROWS, 0, headers);
    }
    table::fill(stream, rows, index, count, table);
    Checked {
        number: 0,
        place: 0,
        headers,
        elements: count as u32,
    }
}

// An answer as the work tells it, of the questions that tell neither headers nor bounds.
fn tell(number: u32, place: u32, elements: u32, listed: u32, length: u32) -> Told
    ensures { result ≡ told_with number place elements listed length }
{
    Told {
        number,
        place,
        headers: 0,
        elements,
        listed,
        length,
        first: 0,
        past: 0,
    }
}

// That of the check, which tells the headers.
fn tell_checked(r: Checked) -> Told
    ensures { result ≡ check_told r }
{
    Told {
        number: r.number,
        place: r.place,
        headers: r.headers,
        elements: r.elements,
        listed: 0,
        length: 0,
        first: 0,
        past: 0,
    }
}

// That of a fetch, which tells the bounds.
fn tell_located(r: Found) -> Told
    ensures { result ≡ located_told r }
{
    Told {
        number: r.number,
        place: r.place,
        headers: 0,
        elements: 0,
        listed: 0,
        length: 0,
        first: r.first,
        past: r.past,
    }
}

// What rules 1 to 15 refuse, as the work of any question tells it: the check alone is told how many headers were read.
pub fn tell_refused(question: Question, number: u32, place: u32, headers: u32) -> Told
    ensures { result ≡ refused_told question number place headers }
{
    match question {
        Question::Check => tell_checked(refused_check(number, place, headers)),
        _ => tell(number, place, 0, 0, 0),
    }
}

// The work of a question, of a letter. The rows and their index are what the judge left in its scratch. The list of the sources is lent where others lend
// the table: they have none.
pub fn work(
    edition: Edition,
    s: &[u8],
    headers: u32,
    question: Question,
    rows: &[u32],
    index: &[u16],
    count: usize,
    table: &mut [u32],
    flat: &mut [u32],
    out: &mut [u8],
) -> Told
    requires s_value { walk_of s.now ≡ ended (length s.now) headers }
    requires letter_rows { LetterRows edition s.now rows.now count }
    requires both_filed { BothFiled s.now rows.now index.now count }
    requires roomy { Roomy question s.now (length flat.old) }
    ensures { Leaves edition question s.now table.old flat.old out.old result table.new
        flat.new out.new }
{
    let names = rows::identifiers(index);
    match question {
        Question::Rules => tell(0, 0, 0, 0, 0),
        Question::Check => {
            let r = check_judged(edition, s, headers, rows, names, count, table);
            tell_checked(r)
        }
        Question::Content { element } => {
            let r = locate_judged(edition, s, element, rows, count);
            tell_located(r)
        }
        Question::Joined { element } => {
            let r = join_judged(edition, s, element, rows, count, out);
            tell(r.number, r.place, 0, 0, r.length)
        }
        Question::List { side, room } => {
            let r = list_judged(edition, s, side, room, rows, index, count, table, flat);
            tell(r.number, r.place, r.elements, r.matches, 0)
        }
        Question::Children { row, room } => {
            let r = children_judged(edition, s, row, room, rows, names, count, table, flat);
            tell(r.number, r.place, r.elements, r.children, 0)
        }
        Question::Order { class } => {
            let r = in_order::order_judged(edition, s, class, rows, names, count);
            tell(r.number, r.place, 0, 0, 0)
        }
        Question::Text { side, room } => {
            let r = text_judged(edition, s, side, room, rows, index, count, table, flat, out);
            tell(r.number, r.place, r.elements, r.lines, r.length)
        }
        Question::Sources { side } => {
            let r = sources_judged(edition, s, side, rows, index, count, table, flat);
            tell(r.number, r.place, 0, r.lines, r.sources)
        }
    }
}
