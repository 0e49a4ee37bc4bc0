// How many octets a sign takes in UTF-8, and how it is written.
ghost use Rattle.std.specs.Prelude.{◌≡◌, ◌++◌, ◌+◌, ◌≤◌, ◌<◌, length};
ghost use Rattle.std.proofs.lemmas.List.Edits.{sets};
ghost use Rattle.characters.specs.Utf8.{utf8};
ghost use Rattle.characters.specs.Signs.{hex_digit, number_octets, octets_of, is_number};

use super::Points;

// How many octets a code point takes.
fn point_width(p: u16) -> usize
    ensures { (result ≡ length (utf8 p)) × (result ≤ 3) }
{
    if p < 0x80 {
        return 1;
    }
    if p < 0x800 {
        return 2;
    }
    3
}

// How many octets an octet's number takes.
fn number_width(octet: u8) -> usize
    ensures { result ≡ length (number_octets octet) }
{
    8
}

// How many octets a sign takes.
pub fn width(points: Points) -> usize
    ensures { result ≡ length (octets_of points) }
{
    match points {
        Points::One(p) => point_width(p),
        Points::Two(p, q) => point_width(p) + point_width(q),
        Points::Number(o) => number_width(o),
    }
}

// One where an octet is shown by its number.
pub fn number(points: Points) -> usize
    ensures { (result ≡ is_number points) × (result ≤ 1) }
{
    match points {
        Points::One(_) => 0,
        Points::Two(_, _) => 0,
        Points::Number(_) => 1,
    }
}

// Writes a code point from a place on, and tells the place past it.
fn put_point(out: &mut [u8], at: usize, p: u16) -> usize
    requires { at + length (utf8 p) ≤ length out.old }
    ensures value { result ≡ at + length (utf8 p) }
    ensures out_after { out.new ≡ sets out.old at (utf8 p) }
{
    if p < 0x80 {
        out[at] = p as u8;
        return at + 1;
    }
    if p < 0x800 {
        out[at] = (0xC0 + p / 64) as u8;
        out[at + 1] = (0x80 + p % 64) as u8;
        return at + 2;
    }
    out[at] = (0xE0 + p / 4096) as u8;
    out[at + 1] = (0x80 + p / 64 % 64) as u8;
    out[at + 2] = (0x80 + p % 64) as u8;
    at + 3
}

// The code point of a hexadecimal digit.
fn hex(v: u8) -> u16
    requires { v < 16 }
    ensures { result ≡ hex_digit v }
{
    if v < 10 {
        return 48 + v as u16;
    }
    55 + (v as u16)
}

// Writes an octet by its number.
fn put_number(out: &mut [u8], at: usize, octet: u8) -> usize
    requires { at + length (number_octets octet) ≤ length out.old }
    ensures value { result ≡ at + length (number_octets octet) }
    ensures out_after { out.new ≡ sets out.old at (number_octets octet) }
{
    let a = put_point(out, at, 0x27E6);
    let b = put_point(out, a, hex(octet / 16));
    let c = put_point(out, b, hex(octet % 16));
    put_point(out, c, 0x27E7)
}

// Writes two code points.
fn put_two(out: &mut [u8], at: usize, p: u16, q: u16) -> usize
    requires { at + length (utf8 p ++ utf8 q) ≤ length out.old }
    ensures value { result ≡ at + length (utf8 p ++ utf8 q) }
    ensures out_after { out.new ≡ sets out.old at (utf8 p ++ utf8 q) }
{
    let n = put_point(out, at, p);
    put_point(out, n, q)
}

// Writes a sign.
pub fn put(out: &mut [u8], at: usize, points: Points) -> usize
    requires { at + length (octets_of points) ≤ length out.old }
    ensures value { result ≡ at + length (octets_of points) }
    ensures out_after { out.new ≡ sets out.old at (octets_of points) }
{
    match points {
        Points::One(p) => put_point(out, at, p),
        Points::Two(p, q) => put_two(out, at, p, q),
        Points::Number(o) => put_number(out, at, o),
    }
}
