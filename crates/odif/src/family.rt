// Parents and children: the questions of the viewer's tree pane.
ghost use Rattle.answers.specs.Related.{ChildrenOutcome};

use super::{Edition, Question, Related};

// Lists the children of a row in stream order, as row numbers, and fills the element table. The viewer's tree pane asks this; nothing is written
// to a list that is too short.
pub fn children(
    edition: Edition,
    stream: &[u8],
    row: usize,
    table: &mut [u32],
    list: &mut [u32],
) -> Related
    ensures { ChildrenOutcome edition stream.now table.old row list.old result table.new
        list.new }
{
    let room = list.len();
    let told = scratch::ask(
        edition,
        stream,
        Question::Children { row, room },
        table,
        list,
        &mut [],
    );
    Related::from(told)
}
