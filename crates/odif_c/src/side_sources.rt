// Where each octet on the screen stands: a name for each side.
ghost use Rattle.answers.specs.Sources.{SourcesOutcome};

use odif::{Edition, Side, Sourced};

// The header's `odif_layout_sources` and the like hand their records to these as numbers.
#[unsafe(no_mangle)]
pub extern "C" fn odif_layout_sources_numbers(stream: &[u8], list: &mut [u32]) -> Sourced
    ensures { SourcesOutcome Edition.Of1988 Side.Layout stream.now list.old result list.new }
{
    odif::sources(Edition::Of1988, stream, Side::Layout, list)
}

#[unsafe(no_mangle)]
pub extern "C" fn odif_logical_sources_numbers(stream: &[u8], list: &mut [u32]) -> Sourced
    ensures { SourcesOutcome Edition.Of1988 Side.Logical stream.now list.old result list.new }
{
    odif::sources(Edition::Of1988, stream, Side::Logical, list)
}

#[unsafe(no_mangle)]
pub extern "C" fn odif_layout_sources_numbers_1993(stream: &[u8], list: &mut [u32]) -> Sourced
    ensures { SourcesOutcome Edition.Of1993 Side.Layout stream.now list.old result list.new }
{
    odif::sources(Edition::Of1993, stream, Side::Layout, list)
}

#[unsafe(no_mangle)]
pub extern "C" fn odif_logical_sources_numbers_1993(stream: &[u8], list: &mut [u32]) -> Sourced
    ensures { SourcesOutcome Edition.Of1993 Side.Logical stream.now list.old result list.new }
{
    odif::sources(Edition::Of1993, stream, Side::Logical, list)
}
