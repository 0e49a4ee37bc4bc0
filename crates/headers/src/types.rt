// The type field of an item: one octet, or up to three for a number above 30.
ghost use Rattle.std.specs.Prelude.{◌≡◌, cond, [], ◌∷◌, ◌+◌, ◌<◌, ◌≤◌, min, ltb, length, Err};
ghost use Rattle.headers.specs.Head.{number_bits, permits, form_allowed, code_of, type_field, type_number, numbered_field, by_third, long_field, field_at};
ghost use Rattle.headers.specs.Head.{octet_at};

use super::Field;

// The forms that each universal number may have: 0 never, 1 primitive, 2 constructed, 3 either.
const FORMS: [u8; 31] = [
    0, // 0
    1, // 1
    1, // 2
    3, // 3
    3, // 4
    1, // 5
    1, // 6
    3, // 7
    2, // 8
    1, // 9
    1, // 10
    3, // 11
    0, // 12
    0, // 13
    0, // 14
    0, // 15
    2, // 16
    2, // 17
    3, // 18
    3, // 19
    3, // 20
    3, // 21
    3, // 22
    3, // 23
    3, // 24
    3, // 25
    3, // 26
    3, // 27
    0, // 28
    0, // 29
    0, // 30
];

fn permitted(number: usize, constructed: bool) -> bool
    requires { number < 31 }
    ensures { result ≡ permits number constructed }
{
    let form = FORMS[number];
    if constructed {
        form / 2 == 1
    } else {
        form % 2 == 1
    }
}

fn form_allowed(octet: u8) -> bool
    requires { number_bits octet ≡ 31 → ⊥ }
    ensures { result ≡ form_allowed octet }
{
    if octet < 64 {
        return permitted((octet % 32) as usize, octet / 32 % 2 == 1);
    }
    true
}

// The number that a type field says.
pub fn number_of(code: usize) -> usize
    ensures { result ≡ type_number code }
{
    if code % 32 != 31 {
        return code % 32;
    }
    let rest = code / 256;
    if rest < 0x80 {
        return rest;
    }
    (rest % 128 << 7) + rest / 256
}

// How many octets a type field has.
pub fn size_of(code: usize) -> usize
    ensures { result ≡ length (type_field code) }
{
    if code % 32 != 31 {
        return 1;
    }
    if code / 256 < 0x80 {
        return 2;
    }
    3
}

// What an item holds of a type field of up to three octets; one that is not there is 0.
pub fn code_of(first: u8, second: u8, third: u8) -> usize
    ensures { result ≡ code_of (first ∷ second ∷ third ∷ []) }
{
    (first as usize) + ((second as usize) << 8) + ((third as usize) << 16)
}

// A type field above number 30, of which all octets were read.
fn numbered_field(first: u8, code: usize, past: usize) -> Result<Field, usize>
    ensures { result ≡ numbered_field first code past }
{
    match first {
        0x5F | 0x7F | 0x9F | 0xBF | 0xDF | 0xFF => Ok(Field { code, past }),
        _ => Err(5),
    }
}

// A type field whose second octet says that a third follows.
fn third_field(s: &[u8], first: u8, second: u8, at: usize, limit: usize) -> Result<Field, usize>
    requires { (at + 1 < limit) × (min limit (at + 3) ≤ length s.now) }
    ensures { result ≡ cond (ltb (at + 2) limit) (by_third first second (octet_at s.now (at + 2)) at) (Err 7) }
{
    let last = at + 2;
    if limit <= last {
        return Err(7);
    }
    let third = s[last];
    if third < 0x80 {
        return numbered_field(first, code_of(first, second, third), at + 3);
    }
    Err(4)
}

// A type field with number bits 11111.
fn long_field(s: &[u8], first: u8, at: usize, limit: usize) -> Result<Field, usize>
    requires { (at < length s.now) × (min limit (at + 3) ≤ length s.now) }
    ensures { result ≡ long_field s.now first at limit }
{
    let next = at + 1;
    if limit <= next {
        return Err(7);
    }
    let second = s[next];
    match second {
        0x00..=0x1E => Err(4),
        0x1F..=0x7F => numbered_field(first, code_of(first, second, 0), at + 2),
        0x80 => Err(4),
        0x81..=0xFF => third_field(s, first, second, at, limit),
    }
}

// The type field at `at`, which begins with this octet.
pub fn field_at(s: &[u8], octet: u8, at: usize, limit: usize) -> Result<Field, usize>
    requires { (at < length s.now) × (min limit (at + 3) ≤ length s.now) }
    ensures { result ≡ field_at s.now octet at limit }
{
    if octet % 32 == 31 {
        return long_field(s, octet, at, limit);
    }
    if form_allowed(octet) {
        return Ok(Field {
            code: octet as usize,
            past: at + 1,
        });
    }
    Err(5)
}
