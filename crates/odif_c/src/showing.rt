// The characters of a text. This name has no twin: the octets of a text are the same in both editions.
ghost use Rattle.characters.specs.Answers.{ShownOutcome};

use odif::Shown;

#[unsafe(no_mangle)]
pub extern "C" fn odif_utf8(set: u32, octets: &[u8], out: &mut [u8]) -> Shown
    ensures { ShownOutcome set octets.now out.old result out.new }
{
    odif::utf8(set, octets, out)
}
