// A letter that is made of entries.
ghost use Rattle.making.specs.Answers.{MakeOutcome};
ghost use Rattle.making.specs.Flat.{entries_of};

use super::Written;

// Makes a letter of entries, of which each has an identifier, a portion and a text: six numbers an entry, a first and past in the buffer for
// each of these. A handler's answer is made of this; nothing is written to an output that is too short.
pub fn make(buffer: &[u8], entries: &[u32], out: &mut [u8]) -> Written
    ensures { MakeOutcome buffer.now (entries_of entries.now) out.old result out.new }
{
    making::make(buffer, entries, out)
}
