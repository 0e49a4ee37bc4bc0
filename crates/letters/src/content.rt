// An element of a stream that was judged, again by its row: as an item, and where its content stands.
ghost use Rattle.std.specs.Prelude.{◌≡◌, ℕ, ◌<◌};
ghost use Rattle.runs.specs.Runs.{whole_stream, Fine};
ghost use Rattle.letters.specs.Scratch.{LetterRows};
ghost use Rattle.letters.specs.Content.{ElementAt, held_by, HoldsElement};

use super::Held;
use elements::{Edition, Holder};
use judging::PlacedItem;
use runs::Run;

fn held_by(holder: Holder) -> Held
    ensures { result ≡ held_by holder }
{
    if holder.pieced {
        let run = holder.pieces;
        return Held::Pieces { run };
    }
    let value = holder.value;
    Held::Part {
        first: value.first,
        past: value.past,
    }
}

// The element in row j, as an item: it is met where its row begins. The rows are those of the stream. Whoever wants more of an element than its row
// tells asks this first.
pub fn element_at(edition: Edition, s: &[u8], rows: &[u32], j: usize) -> PlacedItem
    requires fine { Fine s.now (whole_stream s.now) }
    requires by_index { (count : ℕ) × LetterRows edition s.now rows.now count × (j < count) }
    ensures { ElementAt edition s.now j result }
{
    let at = rows[j * rows::SCRATCH_WIDTH + rows::WHOLE] as usize;
    let whole = runs::whole_stream(s);
    let from = Run {
        at,
        limit: whole.limit,
        marked: whole.marked,
        room: whole.room,
    };
    match runs::meet(s, from) {
        None => PlacedItem {
            code: 0,
            first: at,
            past: at,
            inner: from,
        },
        Some(item) => PlacedItem {
            code: item.code,
            first: at,
            past: item.rest.at,
            inner: item.inner,
        },
    }
}

// Where the content of element j stands: its shape tells which of its items holds the content.
pub fn content_of(edition: Edition, s: &[u8], rows: &[u32], j: usize) -> Held
    requires fine { Fine s.now (whole_stream s.now) }
    requires by_index { (count : ℕ) × LetterRows edition s.now rows.now count × (j < count) }
    ensures { HoldsElement edition s.now j result }
{
    let item = element_at(edition, s, rows, j);
    let inner = item.inner;
    held_by(elements::holder_in(s, elements::shape_of(edition, item.code), inner))
}
