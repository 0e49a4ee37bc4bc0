// Rules 9 to 15 for one element, after those that are done.
#![tactic(auto)]

ghost use Rattle.std.specs.Prelude.{◌≡◌, true, List, ℕ, ◌*◌, ◌≤◌, length, take};
ghost use Rattle.octets.specs.Walk.{stream_limit, no_items};
ghost use Rattle.runs.specs.Runs.{items_of, Fine};
ghost use Rattle.names.specs.Hash.{hash};
ghost use Rattle.portions.specs.Portions.{most_portions};
ghost use Rattle.portions.specs.Bounds.{bounded, Inside};
ghost use Rattle.rows.specs.Columns.{Bounded};
ghost use Rattle.rows.specs.Index.{Filed, BothFiled};
ghost use Rattle.elements.specs.Judge.{Element};
ghost use Rattle.elements.specs.ElementRows.{bytes_in};
ghost use Rattle.elements.specs.Says.{Placed, RowPlaced};
ghost use Rattle.judging.specs.Done.{DoneRows};
ghost use Rattle.judging.specs.Judges.{early_refusal, Told, Taken, hashes_of, TellsTwice, MayBeBare, JudgesAfter};

use contents::Span;
use elements::{Edition, Row, Seen};
use names::Asked;
use runs::Run;

// An item of the stream that is to be judged: the code of its type field, where it stands, and the run inside it.
#[derive(Clone, Copy)]
pub struct PlacedItem {
    pub code: usize,
    pub first: usize,
    pub past: usize,
    pub inner: Run,
}

// What is kept of an element that no rule refuses: its row, and the hashes of its names.
#[derive(Clone, Copy)]
pub struct Judged {
    pub row: Row,
    pub hashes: Hashes,
}

// The hashes of a row's identifier and logical identifier: looked up by them, and then inserted.
#[derive(Clone, Copy)]
pub struct Hashes {
    pub identifier: usize,
    pub logical: usize,
}

pub const MOST_ELEMENTS: usize = 4096;

const PROFILE: usize = 0xA0;

// Rules 9 to 11 for element n: the number of the one that refuses. `known` is the octet of its shape.
pub fn early(n: usize, code: usize, known: usize) -> Result<(), usize>
    ensures { Told (early_refusal n code known) result }
{
    if MOST_ELEMENTS <= n {
        return Err(9);
    }
    if code != known {
        return Err(10);
    }
    if (n == 0) != (code == PROFILE) {
        return Err(11);
    }
    Ok(())
}

fn hashes_of(s: &[u8], row: Row) -> Hashes
    requires { Placed s.now row.identifier × Placed s.now row.logical }
    ensures { result ≡ hashes_of s.now row }
{
    let identifier = row.identifier;
    let logical = row.logical;
    Hashes {
        identifier: names::hash_over(&s[identifier.first..identifier.past], 0),
        logical: names::hash_over(&s[logical.first..logical.past], 0),
    }
}

// Whether one of the first n rows is of the name space and has the name at the column.
fn is_taken(
    s: &[u8],
    rows: &[u32],
    index: &[u16],
    n: usize,
    column: usize,
    space: u8,
    hashed: usize,
    name: Span,
) -> bool
    requires bounded { Bounded s.now rows.now column n }
    requires filed { Filed s.now rows.now column index.now n }
    requires placed { Placed s.now name × (hashed ≡ hash (bytes_in s.now name)) }
    ensures { Taken s.now rows.now column n space (bytes_in s.now name) result }
{
    let first = name.first;
    let past = name.past;
    if first == past {
        return false;
    }
    let asked = Asked {
        front: &s[first..past],
        back: None,
    };
    rows::find(s, rows, index, n, column, space, hashed, asked).is_some()
}

// Rule 15: whether an element has an identifier that one of the n before it has, or a portion twice. The numbers that bound its
// portions are those that were read with its row.
fn has_double(
    s: &[u8],
    rows: &[u32],
    index: &[u16],
    bounds: &[u32],
    n: usize,
    seen: Seen,
    hashes: Hashes,
) -> bool
    requires done_rows { (table : List Row) × (done : List Element) × DoneRows s.now rows.now n table done }
    requires both_filed { BothFiled s.now rows.now index.now n }
    requires row_placed { RowPlaced s.now seen.row × (hashes ≡ hashes_of s.now seen.row) }
    requires count_in_bounds { (2 * seen.count ≤ length bounds.now) × Inside s.now (take (2 * seen.count) bounds.now) }
    ensures { TellsTwice s.now rows.now n
        seen.row (bounded s.now (take (2 * seen.count) bounds.now)) result }
{
    let row = seen.row;
    let space = rows::space_of(row.kind);
    if is_taken(
        s,
        rows,
        rows::identifiers(index),
        n,
        rows::IDENTIFIER,
        space,
        hashes.identifier,
        row.identifier,
    ) {
        return true;
    }
    if is_taken(
        s,
        rows,
        rows::logicals(index),
        n,
        rows::LOGICAL,
        space,
        hashes.logical,
        row.logical,
    ) {
        return true;
    }
    portions::has_repeats(s, bounds, seen.count)
}

// Whether an element with the code may have no items: the profile, and an object, whichever the edition.
fn may_be_bare(code: usize) -> bool
    ensures { result ≡ true → (edition : Edition) → MayBeBare edition code }
{
    matches!(code, 0xA0 | 0xA2 | 0xA6)
}

// Rules 9 to 15 for element n, in which nothing stands and nothing has to: it has no name, so it shares none.
fn judge_bare(n: usize, item: PlacedItem) -> Result<Judged, usize>
    requires { ((edition : Edition) → MayBeBare edition item.code) × (item.first ≤ item.past) }
    ensures { (edition : Edition) (s scratch : List ℕ) → items_of s item.inner ≡ no_items → item.past ≤ length s
        → JudgesAfter edition s scratch n item result }
{
    early(n, item.code, item.code)?;
    Ok(Judged {
        row: Row {
            kind: item.code % 32,
            object: elements::NO_TYPE,
            whole: Span {
                first: item.first,
                past: item.past,
            },
            identifier: Span { first: 0, past: 0 },
            logical: Span { first: 0, past: 0 },
            portions: Span { first: 0, past: 0 },
            content: Span { first: 0, past: 0 },
        },
        hashes: Hashes {
            identifier: 0,
            logical: 0,
        },
    })
}

// Rules 9 to 15 for element n, whatever stands in it. The bounds lent are for its portions.
fn judge_any(
    edition: Edition,
    s: &[u8],
    rows: &[u32],
    index: &[u16],
    bounds: &mut [u32],
    n: usize,
    item: PlacedItem,
) -> Result<Judged, usize>
    requires done_rows { (table : List Row) × (done : List Element) × DoneRows s.now rows.now n table done }
    requires both_filed { BothFiled s.now rows.now index.now n }
    requires fine { Fine s.now item.inner × (length s.now ≤ stream_limit) × (item.first ≤ item.past) × (item.past ≤ length s.now)
        × (2 * most_portions ≤ length bounds.old) }
    ensures { JudgesAfter edition s.now rows.now n item result }
{
    let shape = elements::shape_of(edition, item.code);
    early(n, item.code, shape.octet)?;
    let seen = elements::see(s, shape, item.inner, item.first, item.past, bounds)?;
    let row = seen.row;
    let hashes = hashes_of(s, row);
    if has_double(s, rows, index, bounds, n, seen, hashes) {
        return Err(15);
    }
    Ok(Judged { row, hashes })
}

// Rules 9 to 15 for element n. One in which nothing stands is told at once; `judge_any` has the rest.
pub fn judge_element(
    edition: Edition,
    s: &[u8],
    rows: &[u32],
    index: &[u16],
    bounds: &mut [u32],
    n: usize,
    item: PlacedItem,
) -> Result<Judged, usize>
    requires done_rows { (table : List Row) × (done : List Element) × DoneRows s.now rows.now n table done }
    requires both_filed { BothFiled s.now rows.now index.now n }
    requires fine { Fine s.now item.inner × (length s.now ≤ stream_limit) × (item.first ≤ item.past) × (item.past ≤ length s.now)
        × (2 * most_portions ≤ length bounds.old) }
    ensures { JudgesAfter edition s.now rows.now n item result }
{
    if runs::is_over(s, item.inner) && may_be_bare(item.code) {
        return judge_bare(n, item);
    }
    judge_any(edition, s, rows, index, bounds, n, item)
}
