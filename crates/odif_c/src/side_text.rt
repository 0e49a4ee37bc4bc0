// The whole reading of a side: a name for each side.
ghost use Rattle.answers.specs.Text.{TextOutcome};

use odif::{Edition, Side, TextRead};

// The header's `odif_layout_text` and the like hand their lines to these as numbers.
#[unsafe(no_mangle)]
pub extern "C" fn odif_layout_text_numbers(
    stream: &[u8],
    table: &mut [u32],
    lines: &mut [u32],
    out: &mut [u8],
) -> TextRead
    ensures { TextOutcome Edition.Of1988 Side.Layout stream.now table.old lines.old out.old result
        table.new lines.new out.new }
{
    odif::text(Edition::Of1988, stream, Side::Layout, table, lines, out)
}

#[unsafe(no_mangle)]
pub extern "C" fn odif_logical_text_numbers(
    stream: &[u8],
    table: &mut [u32],
    lines: &mut [u32],
    out: &mut [u8],
) -> TextRead
    ensures { TextOutcome Edition.Of1988 Side.Logical stream.now table.old lines.old out.old result
        table.new lines.new out.new }
{
    odif::text(Edition::Of1988, stream, Side::Logical, table, lines, out)
}

#[unsafe(no_mangle)]
pub extern "C" fn odif_layout_text_numbers_1993(
    stream: &[u8],
    table: &mut [u32],
    lines: &mut [u32],
    out: &mut [u8],
) -> TextRead
    ensures { TextOutcome Edition.Of1993 Side.Layout stream.now table.old lines.old out.old result
        table.new lines.new out.new }
{
    odif::text(Edition::Of1993, stream, Side::Layout, table, lines, out)
}

#[unsafe(no_mangle)]
pub extern "C" fn odif_logical_text_numbers_1993(
    stream: &[u8],
    table: &mut [u32],
    lines: &mut [u32],
    out: &mut [u8],
) -> TextRead
    ensures { TextOutcome Edition.Of1993 Side.Logical stream.now table.old lines.old out.old result
        table.new lines.new out.new }
{
    odif::text(Edition::Of1993, stream, Side::Logical, table, lines, out)
}
