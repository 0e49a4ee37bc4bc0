// The normal form of a stream: each item in the same order, definite, with the fewest length octets.
#![tactic(auto)]

ghost use Rattle.std.specs.Prelude.{◌≡◌, true, false, ◌++◌, ◌+◌, ◌-◌, ◌<◌, ◌≤◌, length};
ghost use Rattle.std.proofs.Math.Seq.{slice};
ghost use Rattle.std.proofs.lemmas.List.Edits.{sets};
ghost use Rattle.headers.specs.Head.{type_field};
ghost use Rattle.octets.specs.Walk.{stream_limit, deepest, run};
ghost use Rattle.tree.specs.Accepts.{Whole};
ghost use Rattle.normal.specs.Normal.{further_octets, number_octets, length_octets, Octets, normal_form};
ghost use Rattle.normal.specs.Passes.{RunEnds, ValueEnds, normal_from, normal_in, ahead_at, header_size, RunMeasures, ValueMeasures, StreamMeasures, PutsOctets};
ghost use Rattle.normal.specs.Writes.{answer_of, GivesAnswer, ShortWrites};

use headers::{Head, Header, Refusal};
use octets::{DEEPEST, STREAM_LIMIT};

mod mailroom; // mailroom.rt: the writer of the mailroom box

pub use mailroom::write_short;

// The refusals of a writer: its form passes the stream limit, or the output.
pub const TOO_LONG: usize = 17;

pub const OUTPUT_TOO_SHORT: usize = 18;

// What is measured of a run, or of the value of an item: where it ends, how many octets its normal form has, and whether it is known that
// its own octets are that.
#[derive(Clone, Copy)]
struct Measured {
    next: usize,
    size: usize,
    shortest: bool,
}

// How many length octets follow the first: told by the leading zeros of the length.
pub fn further_octets(len: u32) -> usize
    ensures { result ≡ further_octets len }
{
    let zeros = u32::leading_zeros(len);
    if 25 <= zeros {
        return 0;
    }
    if 24 <= zeros {
        return 1;
    }
    if 16 <= zeros {
        return 2;
    }
    if 8 <= zeros {
        return 3;
    }
    4
}

// Writes n as k octets, most significant first.
fn put_digits(out: &mut [u8], at: usize, k: usize, n: u32)
    requires { at + k ≤ length out.old }
    ensures { out.new ≡ sets out.old at (number_octets k n) }
{
    let mut left = n;
    for i in (0..k).rev() {
        out[at + i] = (left % 256) as u8;
        left /= 256;
    }
}

// Writes the length octets of a value of `len` octets, and says the place past them.
pub fn put_length(out: &mut [u8], at: usize, len: u32) -> usize
    requires { at + 1 + further_octets len ≤ length out.old }
    ensures { PutsOctets out.old at (length_octets len) result out.new }
{
    let further = further_octets(len);
    if further == 0 {
        out[at] = (len % 256) as u8;
        at + 1
    } else {
        out[at] = 0x80 + (further as u8);
        put_digits(out, at + 1, further, len);
        at + 1 + further
    }
}

// How many octets come before a value of `size` octets.
fn header_size(code: usize, size: usize) -> usize
    requires { size < 4294967296 }
    ensures { result ≡ header_size code size }
{
    headers::field_size(code) + 1 + further_octets(size as u32)
}

// The item at `at` in a run that was walked to its end; none where the run ends.
fn meet(s: &[u8], at: usize, limit: usize, marked: bool, room: usize) -> Option<Header>
    requires { RunEnds room s.now at limit marked }
    ensures { result ≡ ahead_at room s.now at limit marked }
{
    if limit <= at {
        return None;
    }
    match headers::passed_head(s, at, limit, marked, room) {
        Head::Item(h) => Some(h),
        _ => None,
    }
}

// Whether the items so far and the one at `at` stand as in the normal form: its value does, and its header, which is definite, is as long
// as `head`, the shortest.
fn stays_shortest(shortest: bool, at: usize, h: Header, m: Measured, head: usize) -> bool
    requires { at ≤ h.start }
    ensures { result ≡ true → (shortest ≡ true) × (h.marked ≡ false) × (m.shortest ≡ true) × (h.start ≡ at + head) }
{
    shortest && !h.marked && m.shortest && h.start - at == head
}

// Measures the value of the item with the header h.
#[cycle(measure_item_measure_run)]
fn measure_item(s: &[u8], h: Header, room: usize) -> Measured
    requires { ValueEnds room s.now h }
    ensures { ValueMeasures room s.now h result }
{
    if h.code / 32 % 2 == 1 {
        measure_run(s, h.start, h.bound, h.marked, room - 1)
    } else {
        Measured {
            next: h.bound,
            size: h.bound - h.start,
            shortest: true,
        }
    }
}

// Measures a run of items that was walked to its end.
#[cycle(measure_item_measure_run)]
fn measure_run(s: &[u8], from: usize, limit: usize, marked: bool, room: usize) -> Measured
    requires { RunEnds room s.now from limit marked }
    ensures { RunMeasures room s.now from limit marked result }
{
    let mut at = from;
    let mut size: usize = 0;
    let mut shortest = true;
    while let Some(h) = meet(s, at, limit, marked, room) {
        let m = measure_item(s, h, room);
        let head = header_size(h.code, m.size);
        shortest = stays_shortest(shortest, at, h, m, head);
        size = size + head + m.size;
        at = m.next;
    }
    Measured {
        next: if marked { at + 2 } else { at },
        size,
        shortest,
    }
}

// Copies the octets of s from start to bound, and says the place past them.
pub fn put_value(s: &[u8], start: usize, bound: usize, out: &mut [u8], begin: usize) -> usize
    requires { (start ≤ bound) × (bound ≤ length s.now) × (begin + (bound - start) ≤ length out.old) }
    ensures { PutsOctets out.old begin (slice start bound s.now) result out.new }
{
    let past = begin + (bound - start);
    out[begin..past].copy_from_slice(&s[start..bound]);
    past
}

// Writes a type field as it was read, and says the place past it.
fn put_field(out: &mut [u8], at: usize, code: usize) -> usize
    requires { Octets (type_field code) × (at + length (type_field code) ≤ length out.old) }
    ensures { PutsOctets out.old at (type_field code) result out.new }
{
    out[at] = (code % 256) as u8;
    if code % 32 != 31 {
        return at + 1;
    }
    let rest = code / 256;
    out[at + 1] = (rest % 256) as u8;
    if rest < 0x80 {
        return at + 2;
    }
    out[at + 2] = (rest / 256 % 256) as u8;
    at + 3
}

// Writes a type field and the length octets of a value of `size` octets, and says the place past them.
fn put_header(out: &mut [u8], begin: usize, code: usize, size: usize) -> usize
    requires { (size < 4294967296) × Octets (type_field code) × (begin + header_size code size ≤ length out.old) }
    ensures { PutsOctets out.old begin (type_field code ++ length_octets size) result out.new }
{
    let past = put_field(out, begin, code);
    put_length(out, past, size as u32)
}

// Writes the normal form of the value of the item with the header h, which was measured as m.
#[cycle(put_item_put_run)]
fn put_item(s: &[u8], h: Header, m: Measured, room: usize, out: &mut [u8], begin: usize) -> usize
    requires { ValueEnds room s.now h × ValueMeasures room s.now h m × (begin + length (normal_in room s.now h) ≤ length out.old) }
    ensures { PutsOctets out.old begin (normal_in room s.now h) result out.new }
{
    if m.shortest {
        put_value(s, h.start, h.start + m.size, out, begin)
    } else {
        put_run(s, h.start, h.bound, h.marked, room - 1, out, begin)
    }
}

// Writes the normal form of a run of items that was walked to its end.
#[cycle(put_item_put_run)]
fn put_run(
    s: &[u8],
    from: usize,
    limit: usize,
    marked: bool,
    room: usize,
    out: &mut [u8],
    begin: usize,
) -> usize
    requires { RunEnds room s.now from limit marked × (begin + length (normal_from room s.now from limit marked) ≤ length out.old) }
    ensures { PutsOctets out.old begin (normal_from room s.now from limit marked) result out.new }
{
    let mut at = from;
    let mut pos = begin;
    while let Some(h) = meet(s, at, limit, marked, room) {
        let m = measure_item(s, h, room);
        let past = put_header(out, pos, h.code, m.size);
        pos = put_item(s, h, m, room, out, past);
        at = m.next;
    }
    pos
}

// Measures a stream whose walk ended.
fn measure(s: &[u8]) -> Measured
    requires { (length s.now ≤ stream_limit) × Whole (run deepest s.now 0 (length s.now) false).how }
    ensures { StreamMeasures s.now result }
{
    measure_run(s, 0, s.len(), false, DEEPEST)
}

// Writes the normal form of a stream that was measured as m: refusal 18 alone.
fn write_measured(s: &[u8], m: Measured, out: &mut [u8]) -> Result<usize, Refusal>
    requires { StreamMeasures s.now m }
    ensures { ShortWrites s.now out.old result out.new }
{
    let length = m.size;
    if out.len() < length {
        return Err(Refusal {
            number: OUTPUT_TOO_SHORT,
            place: 0,
        });
    }
    if m.shortest {
        put_value(s, 0, length, out, 0);
    } else {
        put_run(s, 0, s.len(), false, DEEPEST, out, 0);
    }
    Ok(length)
}

// Writes the normal form of a stream whose walk ended: refusals 17 and 18 alone. A caller that has other refusals to give has given them.
pub fn write(s: &[u8], out: &mut [u8]) -> Result<usize, Refusal>
    requires { (length s.now ≤ stream_limit) × Whole (run deepest s.now 0 (length s.now) false).how }
    ensures { GivesAnswer (answer_of (normal_form s.now) out.old) (normal_form s.now) out.old result
        out.new }
{
    let m = measure(s);
    if STREAM_LIMIT < m.size {
        return Err(Refusal {
            number: TOO_LONG,
            place: 0,
        });
    }
    write_measured(s, m, out)
}
