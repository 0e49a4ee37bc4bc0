// A letter that is made of entries.
ghost use Rattle.making.specs.Answers.{MakeOutcome};
ghost use Rattle.making.specs.Flat.{entries_of};

use odif::Written;

// The header's `odif_make` hands its entries to this one as numbers.
#[unsafe(no_mangle)]
pub extern "C" fn odif_make_numbers(buffer: &[u8], entries: &[u32], out: &mut [u8]) -> Written
    ensures { MakeOutcome buffer.now (entries_of entries.now) out.old result out.new }
{
    odif::make(buffer, entries, out)
}
