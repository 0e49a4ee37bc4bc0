// Where each octet on the screen stands: the sources of a side of a letter. They are counted before any is put.
ghost use Rattle.std.specs.Prelude.{◌*◌, ◌≤◌, length};
ghost use Rattle.tree.specs.Tree.{tree_of};
ghost use Rattle.tree.specs.Accepts.{Accepts};
ghost use Rattle.letters.specs.Lent.{rows_needed};
ghost use Rattle.rows.specs.Index.{BothFiled};
ghost use Rattle.letters.specs.Scratch.{LetterRows};
ghost use Rattle.answers.specs.Sources.{SourcesOutcome};

use super::{SOURCES_TOO_SHORT, Sourced};
use elements::Edition;
use reading::Side;
use sources::SOURCE_WIDTH;

// The sources of a side of a letter: 31, before any is put. The numbers are scratch, for its matches.
pub fn sources_judged(
    edition: Edition,
    stream: &[u8],
    side: Side,
    rows: &[u32],
    index: &[u16],
    count: usize,
    list: &mut [u32],
    numbers: &mut [u32],
) -> Sourced
    requires accepts { Accepts stream.now (tree_of stream.now) }
    requires letter_rows { LetterRows edition stream.now rows.now count }
    requires both_filed { BothFiled stream.now rows.now index.now count }
    requires stream_in_bounds { 3 * rows_needed stream.now ≤ length numbers.old }
    ensures { SourcesOutcome edition side stream.now list.old result list.new }
{
    let lines = reading::list_matches(stream, rows, index, count, side, numbers);
    let total = sources::count_sources(edition, stream, rows, count, numbers, lines);
    if list.len() / SOURCE_WIDTH < total {
        return Sourced {
            number: SOURCES_TOO_SHORT,
            place: 0,
            lines: 0,
            sources: 0,
        };
    }
    sources::put_sources(edition, stream, rows, count, numbers, lines, list);
    Sourced {
        number: 0,
        place: 0,
        lines: lines as u32,
        sources: total as u32,
    }
}
