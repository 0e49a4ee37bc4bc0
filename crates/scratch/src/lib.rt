// A stream is walked, its size told, and the question put in a frame of that size: there it is judged, and the rest left to `answers`. Frames have
// two sizes, for few elements and for as many as a letter may have, since every letter pays for clearing one.
#![tactic(auto)]

ghost use Rattle.std.specs.Prelude.{◌≡◌, true, cond, ◌≤◌, length};
ghost use Rattle.octets.specs.Told.{ended};
ghost use Rattle.octets.specs.Walk.{walk_of};
ghost use Rattle.letters.specs.Lent.{rows_needed};
ghost use Rattle.answers.specs.Asking.{Sized};
ghost use Rattle.answers.specs.Questions.{Leaves, Roomy};

use answers::{Question, Told};
use elements::Edition;
use octets::{Ended, Refused};

mod frames; // frames.rt: the arrays of either size
mod list; // list.rt: the reading list of a side
mod side_sources; // side_sources.rt: where each octet of a side stands
mod text; // text.rt: the whole reading of a side

use frames::ask_walked;
pub use list::list_side;
pub use side_sources::sources_of_side;
pub use text::text_of_side;

// Scratch for so many elements is soon cleared, and most letters have no more.
const FEW: usize = 512;

// With more headers than that, a few elements may hold most of them, and to pass over those again may cost more than to clear the scratch
// for all.
const MANY_HEADERS: usize = 8192;

// Numbers for the matches of few elements, and of as many as a letter may have: there are never more matches than elements, and each has three.
const FEW_MATCHES: usize = 1536;

const MANY_MATCHES: usize = 12288;

// Numbers for their lines, each of which has the end of its text besides.
const FEW_LINES: usize = 2048;

const MANY_LINES: usize = 16384;

// Whether scratch for few elements is enough for a stream that the walk has passed with so many headers. Its elements are passed over only
// where the headers do not tell.
fn is_few(stream: &[u8], headers: usize) -> bool
    requires { walk_of stream.now ≡ ended (length stream.now) headers }
    ensures { result ≡ true → rows_needed stream.now ≤ 512 }
{
    if headers <= FEW {
        return true;
    }
    if headers > MANY_HEADERS {
        return false;
    }
    !letters::has_more(stream, FEW)
}

// Whether a stream that was walked needs few rows: what the walk refused needs none.
pub fn needs_few(stream: &[u8], walked: Result<Ended, Refused>) -> bool
    requires { walk_of stream.now ≡ walked }
    ensures { Sized stream.now walked (cond result 512 4096) }
{
    match walked {
        Ok(end) => is_few(stream, end.count),
        Err(_) => true,
    }
}

// Puts a question to a stream. What it does not ask for may be lent with no room; a reading list is made by those of its size.
pub fn ask(
    edition: Edition,
    stream: &[u8],
    question: Question,
    table: &mut [u32],
    flat: &mut [u32],
    out: &mut [u8],
) -> Told
    requires { Roomy question stream.now (length flat.old) }
    ensures { Leaves edition question stream.now table.old flat.old out.old result table.new
        flat.new out.new }
{
    let walked = octets::walk(stream);
    let few = needs_few(stream, walked);
    ask_walked(edition, stream, walked, few, question, table, flat, out)
}
