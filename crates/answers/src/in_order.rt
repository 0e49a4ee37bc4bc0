// The order of a letter by a class: what the pass of the class finds, as a number and a place in octets.
ghost use Rattle.std.specs.Prelude.{◌≡◌, ℕ, ◌*◌, ◌≤◌, length};
ghost use Rattle.octets.specs.Walk.{stream_limit, walk_of};
ghost use Rattle.octets.specs.Told.{ended};
ghost use Rattle.rows.specs.Rows.{scratch_width};
ghost use Rattle.order.specs.Fault.{FaultIn};
ghost use Rattle.letters.specs.Scratch.{LetterRows};
ghost use Rattle.rows.specs.Index.{Filed};
ghost use Rattle.rows.specs.Columns.{identifier_column};
ghost use Rattle.order.specs.Computed.{order_in};
ghost use Rattle.answers.specs.Orders.{fault_place};

use elements::Edition;
use order::{Class, Ordered};
use rows::{SCRATCH_WIDTH, WHOLE};

const OUT_OF_ORDER: u32 = 26;

// Where the elements leave the order of a class.
fn fault_in(s: &[u8], class: Class, rows: &[u32], index: &[u16], n: usize) -> Option<usize>
    requires letter_rows { (edition : Edition) × LetterRows edition s.now rows.now n }
    requires filed { Filed s.now rows.now identifier_column index.now n }
    ensures { FaultIn class s.now rows.now n result }
{
    match class {
        Class::A => order_a::fault_a(s, rows, index, n),
        Class::B => order_b::fault_b(s, rows, index, n),
    }
}

// 26 at an element: its first octet, or the stream's length past the last.
fn out_of_order(stream: &[u8], rows: &[u32], count: usize, element: usize) -> Ordered
    requires { (count * scratch_width ≤ length rows.now) × (length stream.now ≤ stream_limit) }
    ensures { result ≡ fault_place stream.now rows.now count element }
{
    if element < count {
        return Ordered {
            number: OUT_OF_ORDER,
            place: rows[element * SCRATCH_WIDTH + WHOLE],
        };
    }
    Ordered {
        number: OUT_OF_ORDER,
        place: stream.len() as u32,
    }
}

// The order of a letter, by its rows.
pub fn order_judged(
    edition: Edition,
    stream: &[u8],
    class: Class,
    rows: &[u32],
    index: &[u16],
    count: usize,
) -> Ordered
    requires by_index { (headers : ℕ) × (walk_of stream.now ≡ ended (length stream.now) headers) }
    requires letter_rows { LetterRows edition stream.now rows.now count }
    requires filed { Filed stream.now rows.now identifier_column index.now count }
    ensures { result ≡ order_in edition class stream.now }
{
    match fault_in(stream, class, rows, index, count) {
        None => Ordered {
            number: 0,
            place: 0,
        },
        Some(element) => out_of_order(stream, rows, count, element),
    }
}
