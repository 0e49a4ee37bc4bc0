// The mailroom's questions: the normal form of a short stream, in scratch of the library's own or in scratch that is lent.
ghost use Rattle.std.specs.Prelude.{length};
ghost use Rattle.answers.specs.Short.{ShortOutcome};
ghost use Rattle.lent.specs.Lent.{LentOutcome};

use odif::{Edition, Written};

#[unsafe(no_mangle)]
pub extern "C" fn odif_normal_short(stream: &[u8], out: &mut [u8]) -> Written
    ensures { ShortOutcome Edition.Of1988 stream.now out.old result out.new }
{
    odif::normal_short(Edition::Of1988, stream, out)
}

#[unsafe(no_mangle)]
pub extern "C" fn odif_normal_short_1993(stream: &[u8], out: &mut [u8]) -> Written
    ensures { ShortOutcome Edition.Of1993 stream.now out.old result out.new }
{
    odif::normal_short(Edition::Of1993, stream, out)
}

#[unsafe(no_mangle)]
pub extern "C" fn odif_normal_short_lent(
    stream: &[u8],
    out: &mut [u8],
    rows: &mut [u32],
    index: &mut [u16],
) -> Written
    ensures { LentOutcome Edition.Of1988 stream.now out.old (length rows.old) (length index.old) result
        out.new }
{
    odif::normal_short_lent(Edition::Of1988, stream, out, rows, index)
}

#[unsafe(no_mangle)]
pub extern "C" fn odif_normal_short_lent_1993(
    stream: &[u8],
    out: &mut [u8],
    rows: &mut [u32],
    index: &mut [u16],
) -> Written
    ensures { LentOutcome Edition.Of1993 stream.now out.old (length rows.old) (length index.old) result
        out.new }
{
    odif::normal_short_lent(Edition::Of1993, stream, out, rows, index)
}
