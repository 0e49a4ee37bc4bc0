// The reading list of a side. It is made as numbers, in scratch too, before it is known whether the lent list has room for it.
ghost use Rattle.std.specs.Prelude.{◌≤◌, ◌/◌};
ghost use Rattle.answers.specs.Answers.{ListOutcome};
ghost use Rattle.answers.specs.Asking.{Sized};

use super::frames::ask_walked;
use super::{FEW, FEW_MATCHES, MANY_MATCHES, needs_few};
use answers::{Listed, Question};
use elements::Edition;
use octets::{Ended, Refused};
use reading::{Match, Side};

// The list of a side of a stream. Numbers for few elements are soon cleared, so a stream that has few gets those.
pub fn list_side(
    edition: Edition,
    stream: &[u8],
    side: Side,
    table: &mut [u32],
    list: &mut [Match],
) -> Listed
    ensures { ListOutcome edition side stream.now table.old list.old result table.new list.new }
{
    let walked = octets::walk(stream);
    if needs_few(stream, walked) {
        return list_by::<FEW_MATCHES>(edition, stream, walked, side, table, list);
    }
    list_by::<MANY_MATCHES>(edition, stream, walked, side, table, list)
}

// The same with so many numbers, which have room for a record of each element and so tell which frame is enough. Their array must not become part of
// the caller's stack, or every stream would take that of the longer one.
#[inline(never)]
fn list_by<const NUMBERS: usize>(
    edition: Edition,
    stream: &[u8],
    walked: Result<Ended, Refused>,
    side: Side,
    table: &mut [u32],
    list: &mut [Match],
) -> Listed
    requires sized { Sized stream.now walked (NUMBERS / 3) }
    requires size { NUMBERS ≤ 65536 }
    ensures { ListOutcome edition side stream.now table.old list.old result table.new list.new }
{
    let mut flat = [0u32; NUMBERS];
    let few = NUMBERS / 3 <= FEW;
    let room = list.len();
    let question = Question::List { side, room };
    let told = ask_walked(
        edition,
        stream,
        walked,
        few,
        question,
        table,
        &mut flat,
        &mut [],
    );
    let answer = Listed::from(told);
    reading::fill(&flat, answer.matches as usize, list);
    answer
}
