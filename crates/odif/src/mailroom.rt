// The mailroom's questions: the normal form of a short stream, in scratch of the library's own or in scratch that is lent. They share with `normal` how a
// refusal and the writer's answer are told; what is left of each is who judges and who writes, so one function for all would only take these as flags.
ghost use Rattle.std.specs.Prelude.{length};
ghost use Rattle.answers.specs.Short.{ShortOutcome};
ghost use Rattle.lent.specs.Lent.{LentOutcome};

use super::{Edition, Reason, Written, refused_by, unwritten, written_as};

// The most octets of a stream that the mailroom box asks about.
const SHORT_LIMIT: usize = 65535;

const TOO_LONG: Reason = Reason {
    number: 1,
    place: 0,
};

// Writes the normal form of a stream of at most 65,535 octets, which is never longer than the stream. The mailroom box asks this: an output
// as long as the stream is always enough.
pub fn normal_short(edition: Edition, stream: &[u8], out: &mut [u8]) -> Written
    ensures { ShortOutcome edition stream.now out.old result out.new }
{
    if SHORT_LIMIT < stream.len() {
        return unwritten(TOO_LONG);
    }
    if let Err(why) = refused_by(edition, stream) {
        return unwritten(why);
    }
    written_as(normal::write_short(stream, out))
}

// The normal form of a short stream, in scratch that the caller lends: rows, and an index of names. A box with little stack asks this: it takes
// less than 8 KiB of any stream.
pub fn normal_short_lent(
    edition: Edition,
    stream: &[u8],
    out: &mut [u8],
    rows: &mut [u32],
    index: &mut [u16],
) -> Written
    ensures { LentOutcome edition stream.now out.old (length rows.old) (length index.old) result
        out.new }
{
    if SHORT_LIMIT < stream.len() {
        return unwritten(TOO_LONG);
    }
    let why = lent::refused_by(edition, stream, rows, index);
    if why.number != 0 {
        return unwritten(why);
    }
    written_as(normal::write_short(stream, out))
}
