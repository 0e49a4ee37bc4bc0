// The names for C, as include/odif.h declares them, and nothing else: `rt staticlib` makes the archive of this crate. Each puts one question of
// crate `odif`, with its contract, of the edition of 1988, and its twin of that of 1993. A slice is a pointer and a length; a null pointer with
// length 0 is fine. The names of the base are here, those of questions that were asked for later each in a file, as in `odif`.
// The twins are the C interface: a name for each edition, so they are not one function.
#![tactic(auto)]

ghost use Rattle.answers.specs.Answers.{CheckOutcome, NormalOutcome, ListOutcome, LocatedOutcome, JoinedOutcome};

use odif::{Checked, Copied, Edition, Found, Listed, Match, Side, Written};

mod arriving; // arriving.rt: a letter that arrives in blocks
mod dating; // dating.rt: the date of the document
mod family; // family.rt: the children of a row
mod in_order; // in_order.rt: the order of a letter by an interchange class
mod made; // made.rt: a letter that is made
mod mailroom; // mailroom.rt: the normal form of a short stream
mod showing; // showing.rt: the characters of a text
mod side_sources; // side_sources.rt: where each octet of a side stands
mod side_text; // side_text.rt: the whole reading of a side

#[unsafe(no_mangle)]
pub extern "C" fn odif_check(stream: &[u8], table: &mut [u32]) -> Checked
    ensures { CheckOutcome Edition.Of1988 stream.now table.old result table.new }
{
    odif::check(Edition::Of1988, stream, table)
}

#[unsafe(no_mangle)]
pub extern "C" fn odif_check_1993(stream: &[u8], table: &mut [u32]) -> Checked
    ensures { CheckOutcome Edition.Of1993 stream.now table.old result table.new }
{
    odif::check(Edition::Of1993, stream, table)
}

#[unsafe(no_mangle)]
pub extern "C" fn odif_normal(stream: &[u8], out: &mut [u8]) -> Written
    ensures { NormalOutcome Edition.Of1988 stream.now out.old result out.new }
{
    odif::normal(Edition::Of1988, stream, out)
}

#[unsafe(no_mangle)]
pub extern "C" fn odif_normal_1993(stream: &[u8], out: &mut [u8]) -> Written
    ensures { NormalOutcome Edition.Of1993 stream.now out.old result out.new }
{
    odif::normal(Edition::Of1993, stream, out)
}

#[unsafe(no_mangle)]
pub extern "C" fn odif_layout(stream: &[u8], table: &mut [u32], list: &mut [Match]) -> Listed
    ensures { ListOutcome Edition.Of1988 Side.Layout stream.now table.old list.old result table.new
        list.new }
{
    odif::list(Edition::Of1988, stream, Side::Layout, table, list)
}

#[unsafe(no_mangle)]
pub extern "C" fn odif_layout_1993(stream: &[u8], table: &mut [u32], list: &mut [Match]) -> Listed
    ensures { ListOutcome Edition.Of1993 Side.Layout stream.now table.old list.old result table.new
        list.new }
{
    odif::list(Edition::Of1993, stream, Side::Layout, table, list)
}

#[unsafe(no_mangle)]
pub extern "C" fn odif_logical(stream: &[u8], table: &mut [u32], list: &mut [Match]) -> Listed
    ensures { ListOutcome Edition.Of1988 Side.Logical stream.now table.old list.old result table.new
        list.new }
{
    odif::list(Edition::Of1988, stream, Side::Logical, table, list)
}

#[unsafe(no_mangle)]
pub extern "C" fn odif_logical_1993(stream: &[u8], table: &mut [u32], list: &mut [Match]) -> Listed
    ensures { ListOutcome Edition.Of1993 Side.Logical stream.now table.old list.old result table.new
        list.new }
{
    odif::list(Edition::Of1993, stream, Side::Logical, table, list)
}

#[unsafe(no_mangle)]
pub extern "C" fn odif_content(stream: &[u8], element: u32) -> Found
    ensures { LocatedOutcome Edition.Of1988 stream.now element result }
{
    odif::bounds(Edition::Of1988, stream, element as usize)
}

#[unsafe(no_mangle)]
pub extern "C" fn odif_content_1993(stream: &[u8], element: u32) -> Found
    ensures { LocatedOutcome Edition.Of1993 stream.now element result }
{
    odif::bounds(Edition::Of1993, stream, element as usize)
}

#[unsafe(no_mangle)]
pub extern "C" fn odif_joined(stream: &[u8], element: u32, out: &mut [u8]) -> Copied
    ensures { JoinedOutcome Edition.Of1988 stream.now element out.old result out.new }
{
    odif::joined(Edition::Of1988, stream, element as usize, out)
}

#[unsafe(no_mangle)]
pub extern "C" fn odif_joined_1993(stream: &[u8], element: u32, out: &mut [u8]) -> Copied
    ensures { JoinedOutcome Edition.Of1993 stream.now element out.old result out.new }
{
    odif::joined(Edition::Of1993, stream, element as usize, out)
}
