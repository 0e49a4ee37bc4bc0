// X.209 at one position: what reading there yields, a header, a closing mark or a refusal by one of 2 to 8.
#![tactic(auto)]

ghost use Rattle.std.specs.Prelude.{◌≡◌, true, false, ◌+◌, ◌<◌, ◌≤◌, ◌^◌, min, length, take, drop};
ghost use Rattle.headers.specs.Head.{number_bits, form_allowed, type_field, misfits, big_endian, definite_at, indefinite_at, long_at, length_at, closing_at};
ghost use Rattle.headers.specs.Head.{head_at};
ghost use Rattle.headers.specs.Passed.{Passed};

mod types; // types.rt: the type field

// A header that passed. `code` is that of its type field: its first octet, and 256 times the octets after it; `number` is the number
// that the field says. The value starts at `start`. A definite value ends at `bound`; an indefinite one (`marked`) ends at its
// closing mark, before `bound`, which is then the limit. (The code is as wide as the rest: a narrow field of an enum goes through
// memory where two paths meet.)
#[derive(Clone, Copy)]
pub struct Header {
    pub code: usize,
    pub number: usize,
    pub start: usize,
    pub bound: usize,
    pub marked: bool,
}

// What reading at a position yields: one of three, so this is neither an Option nor a Result.
#[derive(Clone, Copy)]
pub enum Head {
    Item(Header),
    ClosingMark,
    Refusal { number: usize, place: usize },
}

// A refusal, by its number, and the place that is refused.
#[derive(Clone, Copy)]
pub struct Refusal {
    pub number: usize,
    pub place: usize,
}

// The type field at a place: what an item holds of it, and the place past it.
#[derive(Clone, Copy)]
pub struct Field {
    pub code: usize,
    pub past: usize,
}

// How many octets a type field has.
pub fn field_size(code: usize) -> usize
    ensures { result ≡ length (type_field code) }
{
    types::size_of(code)
}

// The number that the k octets from `from` are, most significant first. They are gathered with shifts and sums, as not every machine
// that runs this multiplies.
pub fn big_endian(s: &[u8], from: usize, k: usize) -> usize
    requires { (from + k ≤ length s.now) × (k ≤ 4) }
    ensures { (result ≡ big_endian (take k (drop from s.now))) × (result < 256 ^ k) }
{
    let mut n: usize = 0;
    for &octet in &s[from..from + k] {
        n = (n << 8) + octet as usize;
    }
    n
}

fn is_misfit(code: usize, len: usize) -> bool
    ensures { result ≡ misfits code len }
{
    match code {
        1 => len != 1,
        5 => len != 0,
        2 | 10 => len == 0,
        _ => false,
    }
}

fn definite_at(code: usize, at: usize, start: usize, len: usize, limit: usize) -> Head
    requires { start ≤ limit }
    ensures { result ≡ definite_at code at start len limit }
{
    if limit - start < len {
        return Head::Refusal {
            number: 7,
            place: at,
        };
    }
    if is_misfit(code, len) {
        return Head::Refusal {
            number: 8,
            place: at,
        };
    }
    Head::Item(Header {
        code,
        number: types::number_of(code),
        start,
        bound: start + len,
        marked: false,
    })
}

fn indefinite_at(code: usize, at: usize, from: usize, limit: usize) -> Head
    requires { from < limit }
    ensures { result ≡ indefinite_at code at from limit }
{
    if code / 32 % 2 != 1 {
        return Head::Refusal {
            number: 6,
            place: at,
        };
    }
    Head::Item(Header {
        code,
        number: types::number_of(code),
        start: from + 1,
        bound: limit,
        marked: true,
    })
}

fn long_at(s: &[u8], code: usize, at: usize, from: usize, k: usize, limit: usize) -> Head
    requires { (from < limit) × (min limit (from + 5) ≤ length s.now) × (k ≤ 4) }
    ensures { result ≡ long_at s.now code at from k limit }
{
    let first = from + 1;
    if limit - first < k {
        return Head::Refusal {
            number: 7,
            place: at,
        };
    }
    definite_at(code, at, first + k, big_endian(s, first, k), limit)
}

// The length octets of the item at `at`, from `from` on, which is the place past its type field.
fn length_at(s: &[u8], code: usize, at: usize, from: usize, limit: usize) -> Head
    requires { min limit (from + 5) ≤ length s.now }
    ensures { result ≡ length_at s.now code at from limit }
{
    if limit <= from {
        return Head::Refusal {
            number: 7,
            place: at,
        };
    }
    let first = s[from];
    match first {
        0x00..=0x7F => definite_at(code, at, from + 1, first as usize, limit),
        0x80 => indefinite_at(code, at, from, limit),
        0x81..=0x84 => long_at(s, code, at, from, (first - 0x80) as usize, limit),
        0x85..=0xFF => Head::Refusal {
            number: 6,
            place: at,
        },
    }
}

// A 00 at `at`.
fn closing_at(s: &[u8], at: usize, limit: usize, marked: bool) -> Head
    requires { (at < length s.now) × (min limit (at + 8) ≤ length s.now) }
    ensures { result ≡ closing_at s.now at limit marked }
{
    if marked {
        let next = at + 1;
        if next < limit {
            if s[next] == 0 {
                return Head::ClosingMark;
            }
            return Head::Refusal {
                number: 2,
                place: at,
            };
        }
        return Head::Refusal {
            number: 7,
            place: at,
        };
    }
    Head::Refusal {
        number: 2,
        place: at,
    }
}

// What stands at `at`, rule by rule. It is a function of its own in every program, for callers that read one header: the walk of one item,
// and the block engine where a header is cut.
pub fn read_head(s: &[u8], at: usize, limit: usize, marked: bool, room: usize) -> Head
    requires { (at < length s.now) × (min limit (at + 8) ≤ length s.now) }
    ensures { result ≡ head_at s.now at limit marked room }
{
    let octet = s[at];
    if octet == 0 {
        return closing_at(s, at, limit, marked);
    }
    if room == 0 {
        return Head::Refusal {
            number: 3,
            place: at,
        };
    }
    match types::field_at(s, octet, at, limit) {
        Ok(field) => length_at(s, field.code, at, field.past, limit),
        Err(number) => Head::Refusal { number, place: at },
    }
}

// Whether an item passes 2 to 8 for sure: one of the octets that letters are made of, with one length octet and room for its value
// among the octets that are left from there.
fn is_usual(octet: u8, len: u8, left: usize, room: usize) -> bool
    ensures { result ≡ true → (0 < room) × (len < left) × (len < 128)
        × ((octet ≡ 0 → ⊥) × (number_bits octet ≡ 31 → ⊥) × (form_allowed octet ≡ true) × (misfits octet len ≡ false)) }
{
    if room == 0 {
        return false;
    }
    if left <= len as usize {
        return false;
    }
    if 0x7F < len {
        return false;
    }
    match octet {
        0x02 => len != 0,
        0x05 => len == 0,
        0x04 | 0x12 | 0x30 | 0x31 => true,
        0x40..=0xFF => octet % 32 != 31,
        _ => false,
    }
}

// What stands at `at`, before `limit`, with `room` levels left. A usual item is told at once; `read_head` has the rest. A header has eight
// octets at most, so a slice that has these may end before the limit: a block of a letter, or a header's octets alone. It is part of the walk's
// loop and of the block engine's: as a function of its own it would give each item's header through memory.
#[inline(always)]
pub fn head_at(s: &[u8], at: usize, limit: usize, marked: bool, room: usize) -> Head
    requires { (at < length s.now) × (min limit (at + 8) ≤ length s.now) }
    ensures { result ≡ head_at s.now at limit marked room }
{
    let next = at + 1;
    if next < limit {
        let octet = s[at];
        let len = s[next];
        if is_usual(octet, len, limit - next, room) {
            return Head::Item(Header {
                code: octet as usize,
                number: (octet % 32) as usize,
                start: next + 1,
                bound: next + 1 + (len as usize),
                marked: false,
            });
        }
    }
    read_head(s, at, limit, marked, room)
}

// What stands at `at` in a run whose walk ended: `head_at` again, for later passes. An item with one type octet and one length octet is told
// with nothing left to judge; `read_head` has the rest. It is kept short, so that the compiler makes it part of every pass over a run: as a
// call of its own it costs each item more than it does.
pub fn passed_head(s: &[u8], at: usize, limit: usize, marked: bool, room: usize) -> Head
    requires { (at < limit) × (limit ≤ length s.now) × Passed (head_at s.now at limit marked room) }
    ensures { result ≡ head_at s.now at limit marked room }
{
    let octet = s[at];
    if octet == 0 {
        return Head::ClosingMark;
    }
    if octet % 32 != 31 {
        let next = at + 1;
        let len = s[next];
        let start = next + 1;
        if len < 0x80 {
            return Head::Item(Header {
                code: octet as usize,
                number: (octet % 32) as usize,
                start,
                bound: start + (len as usize),
                marked: false,
            });
        }
        if len == 0x80 {
            return Head::Item(Header {
                code: octet as usize,
                number: (octet % 32) as usize,
                start,
                bound: limit,
                marked: true,
            });
        }
    }
    read_head(s, at, limit, marked, room)
}
