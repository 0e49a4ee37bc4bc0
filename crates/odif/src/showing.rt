// The characters of a text, for who shows it: octets of a set as UTF-8.
ghost use Rattle.characters.specs.Answers.{ShownOutcome};

use super::Shown;

// Shows the octets of a text as UTF-8: those of ISO 6937 (set 0, and any number from 3 on), T.61 (1) or ISO 8859-1 (2). The stream that they are from
// is not asked for, so this has no edition.
pub fn utf8(set: u32, octets: &[u8], out: &mut [u8]) -> Shown
    ensures { ShownOutcome set octets.now out.old result out.new }
{
    characters::show(set, octets, out)
}
