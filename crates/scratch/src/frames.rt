// The frames: arrays in which a stream is judged, and then the work of any question done. A question that is added later has these arrays too.
ghost use Rattle.std.specs.Prelude.{◌≡◌, true, ◌≤◌, length};
ghost use Rattle.std.proofs.Math.ListN.{replicate};
ghost use Rattle.octets.specs.Told.{ended};
ghost use Rattle.octets.specs.Walk.{walk_of};
ghost use Rattle.letters.specs.Lent.{Lent};
ghost use Rattle.answers.specs.Asking.{rows_after, RoomyAfter};
ghost use Rattle.answers.specs.Questions.{Leaves, Roomy};

use answers::{Question, Told};
use elements::Edition;
use octets::{Ended, Refused};

// How many numbers the rows and their index have in a frame for few elements, which are soon cleared.
const FEW_ROWS: usize = 6144;

const FEW_INDEX: usize = 3074;

// And in one for as many as a letter may have.
const MANY_ROWS: usize = 49152;

const MANY_INDEX: usize = 24578;

// Puts a question to a stream that was walked, in a frame for few elements or in one for as many as a letter may have.
pub fn ask_walked(
    edition: Edition,
    stream: &[u8],
    walked: Result<Ended, Refused>,
    few: bool,
    question: Question,
    table: &mut [u32],
    flat: &mut [u32],
    out: &mut [u8],
) -> Told
    requires outcome { walk_of stream.now ≡ walked }
    requires enough { few ≡ true → rows_after walked stream.now ≤ 512 }
    requires roomy { RoomyAfter walked question stream.now (length flat.old) }
    ensures { Leaves edition question stream.now table.old flat.old out.old result table.new
        flat.new out.new }
{
    match walked {
        Ok(end) => {
            let headers = end.count as u32;
            if few {
                return ask_in::<FEW_ROWS, FEW_INDEX>(
                    edition, stream, headers, question, table, flat, out,
                );
            }
            ask_in::<MANY_ROWS, MANY_INDEX>(edition, stream, headers, question, table, flat, out)
        }
        Err(fault) => answers::tell_refused(
            question,
            fault.number as u32,
            fault.place as u32,
            fault.count as u32,
        ),
    }
}

// The same in a frame of so many numbers. It must not become part of its caller, or every stream would take the stack of the largest one.
#[inline(never)]
fn ask_in<const ROWS: usize, const INDEX: usize>(
    edition: Edition,
    stream: &[u8],
    headers: u32,
    question: Question,
    table: &mut [u32],
    flat: &mut [u32],
    out: &mut [u8],
) -> Told
    requires stream_value { walk_of stream.now ≡ ended (length stream.now) headers }
    requires sizes { (ROWS ≤ 65536) × (INDEX ≤ 65536) }
    requires lent { Lent stream.now (replicate ROWS 0) (replicate INDEX 0) (replicate 128 0) }
    requires roomy { Roomy question stream.now (length flat.old) }
    ensures { Leaves edition question stream.now table.old flat.old out.old result table.new
        flat.new out.new }
{
    let mut rows = [0u32; ROWS];
    let mut index = [0u16; INDEX];
    let mut bounds = [0u32; 128];
    match letters::judge_stream(edition, stream, &mut rows, &mut index, &mut bounds) {
        Ok(count) => answers::work(
            edition, stream, headers, question, &rows, &index, count, table, flat, out,
        ),
        Err(refusal) => answers::tell_refused(
            question,
            refusal.number as u32,
            refusal.place as u32,
            headers,
        ),
    }
}
