// The date of the document, in numbers.
ghost use Rattle.answers.specs.Dates.{DateOutcome};
ghost use Rattle.answers.specs.FirstDates.{FirstDateOutcome};

use odif::{Dated, Edition, FirstDated};

#[unsafe(no_mangle)]
pub extern "C" fn odif_date(stream: &[u8]) -> Dated
    ensures { DateOutcome Edition.Of1988 stream.now result }
{
    odif::dated(Edition::Of1988, stream)
}

#[unsafe(no_mangle)]
pub extern "C" fn odif_date_1993(stream: &[u8]) -> Dated
    ensures { DateOutcome Edition.Of1993 stream.now result }
{
    odif::dated(Edition::Of1993, stream)
}

#[unsafe(no_mangle)]
pub extern "C" fn odif_first_date(stream: &[u8]) -> FirstDated
    ensures { FirstDateOutcome Edition.Of1988 stream.now result }
{
    odif::first_date(Edition::Of1988, stream)
}

#[unsafe(no_mangle)]
pub extern "C" fn odif_first_date_1993(stream: &[u8]) -> FirstDated
    ensures { FirstDateOutcome Edition.Of1993 stream.now result }
{
    odif::first_date(Edition::Of1993, stream)
}
