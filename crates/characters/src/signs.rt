// Octets as signs: one octet, or two that are one sign.
ghost use Rattle.std.specs.Prelude.{◌≡◌, ◌<◌, length};
ghost use Rattle.characters.specs.Sets.{number_of};
ghost use Rattle.characters.specs.Pairs.{PairTable};
ghost use Rattle.characters.specs.Signs.{alone, is_line_end, first_sign, sign_at};

use super::tables::{pair_of, point_of};
use super::{Points, Set, Sign};

// An octet alone.
fn alone_of(set: Set, octet: u8) -> Points
    ensures { result ≡ alone (number_of set) octet }
{
    match point_of(set, octet) {
        Some(p) => Points::One(p),
        None => Points::Number(octet),
    }
}

fn is_line_end(a: u8, b: u8) -> bool
    ensures { result ≡ is_line_end a b }
{
    if a == 0x0D {
        return b == 0x0A;
    }
    false
}

// The first sign of an octet and the one after it.
fn first_of(set: Set, pairs: &[u16], a: u8, b: u8) -> Sign
    requires { PairTable pairs.now }
    ensures { result ≡ first_sign (number_of set) a b }
{
    if is_line_end(a, b) {
        return Sign {
            points: Points::Two(a as u16, b as u16),
            wide: 2,
        };
    }
    match pair_of(set, pairs, a, b) {
        Some(points) => Sign { points, wide: 2 },
        None => Sign {
            points: alone_of(set, a),
            wide: 1,
        },
    }
}

// The sign at a place.
pub fn sign_at(set: Set, pairs: &[u16], octets: &[u8], at: usize) -> Sign
    requires { PairTable pairs.now × (at < length octets.now) }
    ensures { result ≡ sign_at (number_of set) octets.now at }
{
    if at < octets.len() - 1 {
        return first_of(set, pairs, octets[at], octets[at + 1]);
    }
    Sign {
        points: alone_of(set, octets[at]),
        wide: 1,
    }
}
