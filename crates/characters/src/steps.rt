// Steps through the octets: a run of plain octets, which are copied, or a sign.
ghost use Rattle.std.specs.Prelude.{◌≡◌, ◌+◌, ◌≤◌, ◌<◌, length, drop};
ghost use Rattle.std.proofs.lemmas.List.Edits.{sets};
ghost use Rattle.characters.specs.Sets.{number_of};
ghost use Rattle.characters.specs.Pairs.{PairTable};
ghost use Rattle.characters.specs.Steps.{plain_front, step_at, step_text};

use super::putting::{number, put, width};
use super::signs::sign_at;
use super::tables::is_plain;
use super::{Set, Step};

// Where a run of plain octets ends.
fn plain_end(octets: &[u8], at: usize) -> usize
    requires { at ≤ length octets.now }
    ensures { result ≡ at + length (plain_front (drop at octets.now)) }
{
    for end in at..octets.len() {
        if !is_plain(octets[end]) {
            return end;
        }
    }
    octets.len()
}

// Copies a run of plain octets, and tells where it ends.
fn put_plain(octets: &[u8], at: usize, out: &mut [u8], here: usize) -> usize
    requires { (at ≤ length octets.now) × (here + length (plain_front (drop at octets.now)) ≤ length out.old) }
    ensures value { result ≡ at + length (plain_front (drop at octets.now)) }
    ensures out_after { out.new ≡ sets out.old here (plain_front (drop at octets.now)) }
{
    let end = plain_end(octets, at);
    out[here..here + (end - at)].copy_from_slice(&octets[at..end]);
    end
}

// The step at a place.
pub fn step_at(set: Set, pairs: &[u16], octets: &[u8], at: usize) -> Step
    requires { PairTable pairs.now × (at < length octets.now) }
    ensures { result ≡ step_at (number_of set) octets.now at }
{
    let end = plain_end(octets, at);
    if at < end {
        return Step {
            wide: end - at,
            length: end - at,
            numbers: 0,
        };
    }
    let sign = sign_at(set, pairs, octets, at);
    let points = sign.points;
    Step {
        wide: sign.wide,
        length: width(points),
        numbers: number(points),
    }
}

// Writes the step at a place.
pub fn put_step(
    set: Set,
    pairs: &[u16],
    octets: &[u8],
    at: usize,
    out: &mut [u8],
    here: usize,
) -> Step
    requires { PairTable pairs.now × (at < length octets.now) × (here + length (step_text (number_of set) octets.now at) ≤ length out.old) }
    ensures value { result ≡ step_at (number_of set) octets.now at }
    ensures out_after { out.new ≡ sets out.old here (step_text (number_of set) octets.now at) }
{
    let end = put_plain(octets, at, out, here);
    if at < end {
        return Step {
            wide: end - at,
            length: end - at,
            numbers: 0,
        };
    }
    let sign = sign_at(set, pairs, octets, at);
    let points = sign.points;
    let past = put(out, here, points);
    Step {
        wide: sign.wide,
        length: past - here,
        numbers: number(points),
    }
}
