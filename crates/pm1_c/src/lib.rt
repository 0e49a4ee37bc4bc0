// The names for C of the PM1 desk, and nothing else: the static library of this crate is `libpm1.a`. The header's `pm1_pages` and its twin of 1993
// hand their list to these as numbers. The two names are twins since they are the C interface. A slice is a pointer and a length; a null pointer with length 0 is fine.
#![tactic(auto)]

ghost use Rattle.pm1.specs.Answers.{PagesOutcome};

use pm1::{Edition, Paged};

#[unsafe(no_mangle)]
pub extern "C" fn pm1_pages_numbers(stream: &[u8], table: &mut [u32], list: &mut [u32]) -> Paged
    ensures { PagesOutcome Edition.Of1988 stream.now table.old list.old result table.new list.new }
{
    pm1::pages(Edition::Of1988, stream, table, list)
}

#[unsafe(no_mangle)]
pub extern "C" fn pm1_pages_numbers_1993(
    stream: &[u8],
    table: &mut [u32],
    list: &mut [u32],
) -> Paged
    ensures { PagesOutcome Edition.Of1993 stream.now table.old list.old result table.new list.new }
{
    pm1::pages(Edition::Of1993, stream, table, list)
}
