// The whole reading of a side. Its lines are made as numbers, in scratch too, before it is known whether the lent lines and the output have room.
ghost use Rattle.std.specs.Prelude.{◌≤◌, ◌/◌};
ghost use Rattle.answers.specs.Asking.{Sized};
ghost use Rattle.answers.specs.Text.{TextOutcome};

use super::frames::ask_walked;
use super::{FEW, FEW_LINES, MANY_LINES, needs_few};
use answers::{Question, TextRead};
use elements::Edition;
use octets::{Ended, Refused};
use reading::Side;
use text_lines::LINE_WIDTH;

// The reading of a side of a stream. Numbers for few elements are soon cleared, so a stream that has few gets those.
pub fn text_of_side(
    edition: Edition,
    stream: &[u8],
    side: Side,
    table: &mut [u32],
    lines: &mut [u32],
    out: &mut [u8],
) -> TextRead
    ensures { TextOutcome edition side stream.now table.old lines.old out.old result table.new
        lines.new out.new }
{
    let walked = octets::walk(stream);
    if needs_few(stream, walked) {
        return text_by::<FEW_LINES>(edition, stream, walked, side, table, lines, out);
    }
    text_by::<MANY_LINES>(edition, stream, walked, side, table, lines, out)
}

// The same with so many numbers, which have room for four of each element, three of its match and the end of its text, and so tell which frame is enough.
// Their array must not become part of the caller's stack, or every stream would take that of the longer one.
#[inline(never)]
fn text_by<const NUMBERS: usize>(
    edition: Edition,
    stream: &[u8],
    walked: Result<Ended, Refused>,
    side: Side,
    table: &mut [u32],
    lines: &mut [u32],
    out: &mut [u8],
) -> TextRead
    requires sized { Sized stream.now walked (NUMBERS / 4) }
    requires size { NUMBERS ≤ 65536 }
    ensures { TextOutcome edition side stream.now table.old lines.old out.old result table.new
        lines.new out.new }
{
    let mut numbers = [0u32; NUMBERS];
    let few = NUMBERS / 4 <= FEW;
    let room = lines.len() / LINE_WIDTH;
    let question = Question::Text { side, room };
    let told = ask_walked(
        edition,
        stream,
        walked,
        few,
        question,
        table,
        &mut numbers,
        out,
    );
    let answer = TextRead::from(told);
    text_lines::fill_lines(&numbers, answer.lines as usize, lines);
    answer
}
