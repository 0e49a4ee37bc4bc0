// The content of one element of a letter: where it stands, or copied to a lent buffer.
ghost use Rattle.std.specs.Prelude.{ℕ, ◌<◌, ◌≤◌, length};
ghost use Rattle.std.proofs.Math.Seq.{slice};
ghost use Rattle.tree.specs.Tree.{tree_of};
ghost use Rattle.tree.specs.Accepts.{Accepts};
ghost use Rattle.runs.specs.Runs.{whole_stream, tree_in, Fine};
ghost use Rattle.pieces.specs.Pieces.{joined};
ghost use Rattle.letters.specs.Scratch.{LetterRows};
ghost use Rattle.answers.specs.Answers.{JoinedOutcome};
ghost use Rattle.answers.specs.Asking.{ContentAt, Fetches, FindsContent, Copies};

use super::{COPY_TOO_SHORT, Copied, Found, IN_PIECES, NO_UNIT};
use elements::Edition;
use letters::Held;
use rows::TEXT_UNIT;
use runs::Run;

// The content of the element whose row is given, if it is a text unit.
fn content_at(edition: Edition, stream: &[u8], rows: &[u32], element: usize) -> Option<Held>
    requires fine { Fine stream.now (whole_stream stream.now) }
    requires element_bound { (element < 4096) × ((count : ℕ) × LetterRows edition stream.now rows.now count × (element < count)) }
    ensures { ContentAt edition stream.now rows.now element result }
{
    if rows::kind_at(rows, element) != TEXT_UNIT {
        return None;
    }
    Some(letters::content_of(edition, stream, rows, element))
}

// The content of an element: 20, or where it stands.
pub fn fetch_judged(
    edition: Edition,
    stream: &[u8],
    element: usize,
    rows: &[u32],
    count: usize,
) -> Option<Held>
    requires accepts { Accepts stream.now (tree_of stream.now) }
    requires letter_rows { LetterRows edition stream.now rows.now count }
    ensures { FindsContent edition stream.now element result }
{
    if element < count {
        return content_at(edition, stream, rows, element);
    }
    None
}

// Where the content of an element stands, or the number of a refusal.
pub fn locate_judged(
    edition: Edition,
    stream: &[u8],
    element: usize,
    rows: &[u32],
    count: usize,
) -> Found
    requires accepts { Accepts stream.now (tree_of stream.now) }
    requires letter_rows { LetterRows edition stream.now rows.now count }
    ensures { Fetches edition stream.now element result }
{
    match fetch_judged(edition, stream, element, rows, count) {
        Some(Held::Part { first, past }) => Found {
            number: 0,
            place: 0,
            first: first as u32,
            past: past as u32,
        },
        None => Found {
            number: NO_UNIT,
            place: 0,
            first: 0,
            past: 0,
        },
        Some(Held::Pieces { run: _ }) => Found {
            number: IN_PIECES,
            place: 0,
            first: 0,
            past: 0,
        },
    }
}

// Copies the content of an element, its pieces joined in order, to a lent buffer.
pub fn join_judged(
    edition: Edition,
    stream: &[u8],
    element: usize,
    rows: &[u32],
    count: usize,
    out: &mut [u8],
) -> Copied
    requires accepts { Accepts stream.now (tree_of stream.now) }
    requires letter_rows { LetterRows edition stream.now rows.now count }
    ensures { JoinedOutcome edition stream.now element out.old result out.new }
{
    match fetch_judged(edition, stream, element, rows, count) {
        Some(Held::Part { first, past }) => copy_part(stream, first, past, out),
        Some(Held::Pieces { run }) => copy_pieces(stream, run, out),
        None => Copied {
            number: NO_UNIT,
            place: 0,
            length: 0,
        },
    }
}

// Copies a part of the stream to a lent buffer, unless that is too short.
fn copy_part(stream: &[u8], first: usize, past: usize, out: &mut [u8]) -> Copied
    requires { (first ≤ past) × (past ≤ length stream.now) × (past ≤ 1048576) }
    ensures { Copies (slice first past stream.now) out.old result out.new }
{
    if out.len() < past - first {
        return Copied {
            number: COPY_TOO_SHORT,
            place: 0,
            length: 0,
        };
    }
    let length = pieces::copy(&stream[first..past], out);
    Copied {
        number: 0,
        place: 0,
        length: length as u32,
    }
}

// Copies the pieces of a run, joined in order, to a lent buffer, unless that is too short: they are measured before any is written.
fn copy_pieces(stream: &[u8], run: Run, out: &mut [u8]) -> Copied
    requires { Fine stream.now run × (length (joined (tree_in stream.now run)) ≤ 1048576) }
    ensures { Copies (joined (tree_in stream.now run)) out.old result out.new }
{
    if out.len() < pieces::joined_length(stream, run) {
        return Copied {
            number: COPY_TOO_SHORT,
            place: 0,
            length: 0,
        };
    }
    let length = pieces::put_joined(stream, run, out);
    Copied {
        number: 0,
        place: 0,
        length: length as u32,
    }
}
