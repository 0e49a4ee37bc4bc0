// Where each octet on the screen stands: the sources of the whole reading of a side.
ghost use Rattle.answers.specs.Sources.{SourcesOutcome};

use super::{Edition, Side, Sourced};

// Puts a record of three numbers to a lent list for each piece that has octets of each line of the whole reading of a side: the line, and where the octets
// stand in the stream, first and past. The viewer shows by this which octets of the file a line is. As many records as the check counts headers are
// always enough; a list that is too short is left as it was.
pub fn sources(edition: Edition, stream: &[u8], side: Side, list: &mut [u32]) -> Sourced
    ensures { SourcesOutcome edition side stream.now list.old result list.new }
{
    scratch::sources_of_side(edition, stream, side, list)
}
