// The tables of the sets, and what is looked up in them.
ghost use Rattle.std.specs.Prelude.{◌≡◌, ◌≤◌, ◌<◌};
ghost use Rattle.characters.specs.Sets.{number_of, point_in, is_own, is_plain, is_currency, left_point, right_point, point_of};
ghost use Rattle.characters.specs.Pairs.{composed, combining, pair_of, PairTable};
ghost use Rattle.characters.specs.Signs.{pair_in};

use super::{Points, Set};

// The code points of the octets A0 to FF of ISO 6937 and T.61; 0 where there is none.
const SUPPLEMENT: [u16; 96] = [
    160, 161, 162, 163, 36, 165, 35, 167, 164, 8216, 8220, 171, 8592, 8593, 8594, 8595, 176, 177,
    178, 179, 215, 181, 182, 183, 247, 8217, 8221, 187, 188, 189, 190, 191, 0, 0, 0, 0, 0, 0, 0, 0,
    0, 0, 0, 0, 0, 0, 0, 0, 8213, 185, 174, 169, 8482, 9834, 172, 166, 0, 0, 0, 0, 8539, 8540,
    8541, 8542, 937, 198, 272, 170, 294, 0, 306, 319, 321, 216, 338, 186, 222, 358, 330, 329, 312,
    230, 273, 240, 295, 305, 307, 320, 322, 248, 339, 223, 254, 359, 331, 173,
];

// The combining accents of C0 to CF; C0 is none.
const ACCENTS: [u16; 16] = [
    0, 768, 769, 770, 771, 772, 774, 775, 776, 776, 778, 807, 818, 779, 808, 780,
];

// Whether an octet is its own character in ISO 6937 and ISO 8859-1: printing ASCII, tab, line feed, form feed.
fn is_own(octet: u8) -> bool
    ensures { result ≡ is_own octet }
{
    if 0x20 <= octet {
        return octet <= 0x7E;
    }
    if octet == 0x0A {
        return true;
    }
    if octet == 0x09 {
        return true;
    }
    octet == 0x0C
}

// Whether an octet is its own character in all sets: T.61 has another sign in the place of the dollar.
pub fn is_plain(octet: u8) -> bool
    ensures { result ≡ is_plain octet }
{
    if octet == 0x24 {
        return false;
    }
    is_own(octet)
}

// Whether an octet is T.61's currency sign in the place of the dollar.
fn is_currency(set: Set, octet: u8) -> bool
    ensures { result ≡ is_currency (number_of set) octet }
{
    match set {
        Set::T61 => octet == 0x24,
        Set::Latin1 => false,
        Set::Iso6937 => false,
    }
}

// The code point of an octet up to 9F.
fn left_point(set: Set, octet: u8) -> u16
    ensures { result ≡ left_point (number_of set) octet }
{
    if is_currency(set, octet) {
        return 0xA4;
    }
    if is_own(octet) {
        return octet as u16;
    }
    0
}

// The code point of an octet from A0 on.
fn right_point(set: Set, octet: u8) -> u16
    requires { 0xA0 ≤ octet }
    ensures { result ≡ right_point (number_of set) octet }
{
    match set {
        Set::Latin1 => octet as u16,
        _ => SUPPLEMENT[(octet - 0xA0) as usize],
    }
}

// The code point of an octet alone, as the tables tell it: 0 where the set has none.
fn told_point(set: Set, octet: u8) -> u16
    ensures { result ≡ point_of (number_of set) octet }
{
    if 0xA0 <= octet {
        return right_point(set, octet);
    }
    left_point(set, octet)
}

// The code point of an octet alone, if the set has one.
pub fn point_of(set: Set, octet: u8) -> Option<u16>
    ensures { result ≡ point_in (point_of (number_of set) octet) }
{
    let p = told_point(set, octet);
    if p == 0 {
        return None;
    }
    Some(p)
}

// What an accent and the octet after it are, by the lent table: its number stays as the table has it.
fn composed_of(pairs: &[u16], a: u8, b: u8) -> u16
    requires { PairTable pairs.now }
    ensures { result ≡ composed a b }
{
    if a < 0xC0 {
        return 0;
    }
    if 0xCF < a {
        return 0;
    }
    if b == 0x20 {
        return pairs[((a - 0xC0) as usize) * 64];
    }
    if b <= 0x40 {
        return 0;
    }
    if 0x7F < b {
        return 0;
    }
    pairs[((a - 0xC0) as usize) * 64 + ((b - 0x40) as usize)]
}

// What an accent and the octet after it are in a set, if they are a pair: ISO 8859-1 has no accents.
pub fn pair_of(set: Set, pairs: &[u16], a: u8, b: u8) -> Option<Points>
    requires { PairTable pairs.now }
    ensures { result ≡ pair_in (pair_of (number_of set) a b) a b }
{
    match set {
        Set::Latin1 => None,
        _ => match composed_of(pairs, a, b) {
            0 => None,
            1 => Some(Points::Two(b as u16, combining_of(a))),
            c => Some(Points::One(c)),
        },
    }
}

// The combining accent of an accent.
fn combining_of(a: u8) -> u16
    requires { (0xC0 ≤ a) × (a ≤ 0xCF) }
    ensures { result ≡ combining a }
{
    ACCENTS[(a - 0xC0) as usize]
}
