// The normal form of a short stream, for the mailroom box: a stream of at most 65,535 octets is never shorter than its normal form, so there
// is no 17 to give.
ghost use Rattle.std.specs.Prelude.{false, ◌≤◌, length};
ghost use Rattle.octets.specs.Walk.{deepest, run};
ghost use Rattle.tree.specs.Accepts.{Whole};
ghost use Rattle.normal.specs.Short.{short_limit};
ghost use Rattle.normal.specs.Writes.{ShortWrites};

use super::{measure, write_measured};
use headers::Refusal;

// Writes the normal form of a short stream whose walk ended: refusal 18 alone.
pub fn write_short(s: &[u8], out: &mut [u8]) -> Result<usize, Refusal>
    requires { (length s.now ≤ short_limit) × Whole (run deepest s.now 0 (length s.now) false).how }
    ensures { ShortWrites s.now out.old result out.new }
{
    write_measured(s, measure(s), out)
}
