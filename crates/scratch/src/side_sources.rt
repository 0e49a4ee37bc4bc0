// The sources of a side. Its matches are made as numbers, in scratch too, before it is known whether the lent list has room for their records.
ghost use Rattle.std.specs.Prelude.{◌≤◌, ◌/◌};
ghost use Rattle.answers.specs.Asking.{Sized};
ghost use Rattle.answers.specs.Sources.{SourcesOutcome};

use super::frames::ask_walked;
use super::{FEW, FEW_MATCHES, MANY_MATCHES, needs_few};
use answers::{Question, Sourced};
use elements::Edition;
use octets::{Ended, Refused};
use reading::Side;

// The sources of a side of a stream. Numbers for few elements are soon cleared, so a stream that has few gets those.
pub fn sources_of_side(edition: Edition, stream: &[u8], side: Side, list: &mut [u32]) -> Sourced
    ensures { SourcesOutcome edition side stream.now list.old result list.new }
{
    let walked = octets::walk(stream);
    if needs_few(stream, walked) {
        return sources_by::<FEW_MATCHES>(edition, stream, walked, side, list);
    }
    sources_by::<MANY_MATCHES>(edition, stream, walked, side, list)
}

// The same with so many numbers, which have room for a match of each element and so tell which frame is enough. Their array must not become part of
// the caller's stack, or every stream would take that of the longer one.
#[inline(never)]
fn sources_by<const NUMBERS: usize>(
    edition: Edition,
    stream: &[u8],
    walked: Result<Ended, Refused>,
    side: Side,
    list: &mut [u32],
) -> Sourced
    requires sized { Sized stream.now walked (NUMBERS / 3) }
    requires size { NUMBERS ≤ 65536 }
    ensures { SourcesOutcome edition side stream.now list.old result list.new }
{
    let mut numbers = [0u32; NUMBERS];
    let few = NUMBERS / 3 <= FEW;
    let question = Question::Sources { side };
    let told = ask_walked(
        edition,
        stream,
        walked,
        few,
        question,
        list,
        &mut numbers,
        &mut [],
    );
    Sourced::from(told)
}
