// The children of a row.
ghost use Rattle.answers.specs.Related.{ChildrenOutcome};

use odif::{Edition, Related};

#[unsafe(no_mangle)]
pub extern "C" fn odif_children(
    stream: &[u8],
    row: u32,
    table: &mut [u32],
    list: &mut [u32],
) -> Related
    ensures { ChildrenOutcome Edition.Of1988 stream.now table.old row list.old result table.new
        list.new }
{
    odif::children(Edition::Of1988, stream, row as usize, table, list)
}

#[unsafe(no_mangle)]
pub extern "C" fn odif_children_1993(
    stream: &[u8],
    row: u32,
    table: &mut [u32],
    list: &mut [u32],
) -> Related
    ensures { ChildrenOutcome Edition.Of1993 stream.now table.old row list.old result table.new
        list.new }
{
    odif::children(Edition::Of1993, stream, row as usize, table, list)
}
