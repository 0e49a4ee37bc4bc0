// The whole reading of a side in one call, with one judging: the table, a line for each match, and all texts one after another.
ghost use Rattle.answers.specs.Text.{TextOutcome};

use super::{Edition, Side, TextRead};

// Puts the texts of the matches of a side to a lent output, one after another, with five numbers a line: element, portion place, unit, and where its text
// begins and ends. The viewer shows the letter by this. Nothing is written to an output or to lines that are too short.
pub fn text(
    edition: Edition,
    stream: &[u8],
    side: Side,
    table: &mut [u32],
    lines: &mut [u32],
    out: &mut [u8],
) -> TextRead
    ensures { TextOutcome edition side stream.now table.old lines.old out.old result table.new
        lines.new out.new }
{
    scratch::text_of_side(edition, stream, side, table, lines, out)
}
