// The octets of a letter's text, in one of three sets of characters, as UTF-8. Every octet is shown: as its character, as a part of a character of two
// octets, or by its number.
#![tactic(auto)]

ghost use Rattle.std.specs.Prelude.{◌≡◌, ◌≤◌, length};
ghost use Rattle.std.proofs.lemmas.List.Edits.{sets};
ghost use Rattle.characters.specs.Sets.{number_of, set_of};
ghost use Rattle.characters.specs.Pairs.{PairTable};
ghost use Rattle.characters.specs.Signs.{signs, utf8_of};
ghost use Rattle.characters.specs.Answers.{room_of, measured, ShownOutcome};

mod pairing; // pairing.rt: the table of pairs
mod putting; // putting.rt: how a sign is written
mod signs; // signs.rt: octets as signs
mod steps; // steps.rt: a run of plain octets, or a sign
mod tables; // tables.rt: the tables of the sets

const OUTPUT_TOO_SHORT: u32 = 18;

// The most octets that the answer's length can count.
const MOST: usize = 0xFFFFFFFF;

// A set of characters. The ghosts speak of it by its number.
#[derive(Clone, Copy)]
enum Set {
    Iso6937,
    T61,
    Latin1,
}

// Any other number than those of the sets is taken as ISO 6937.
impl From<u32> for Set {
    ghost from_gives = { λ number set. number_of set ≡ set_of number };

    fn from(number: u32) -> Set {
        match number {
            1 => Set::T61,
            2 => Set::Latin1,
            _ => Set::Iso6937,
        }
    }
}

// The code points of a sign.
#[derive(Clone, Copy)]
pub enum Points {
    // A character.
    One(u16),
    // A letter and a combining accent, or a carriage return and a line feed.
    Two(u16, u16),
    // An octet that is shown by its number.
    Number(u8),
}

// A sign, and how many octets it has.
#[derive(Clone, Copy)]
pub struct Sign {
    pub points: Points,
    pub wide: usize,
}

// A step: how many octets it has, how many it takes in UTF-8, and how many are shown by their number.
#[derive(Clone, Copy)]
pub struct Step {
    pub wide: usize,
    pub length: usize,
    pub numbers: usize,
}

// What all octets take: how many octets, and how many are shown by their number.
#[derive(Clone, Copy)]
pub struct Size {
    pub length: usize,
    pub numbers: usize,
}

// What the question answers: how many octets were written, and how many of those asked about were shown by their number.
#[repr(C)]
#[derive(Clone, Copy)]
pub struct Shown {
    pub number: u32,
    pub place: u32,
    pub length: u32,
    pub numbers: u32,
}

// The room of an output.
fn room_of(out: usize) -> usize
    ensures { result ≡ room_of out }
{
    out.min(MOST)
}

// Measures what octets take, if there is room for it, and adds nothing past the room. A step has one octet or more and tells the next place, so
// the loop goes over no range.
fn measure(set: Set, pairs: &[u16], octets: &[u8], room: usize) -> Option<Size>
    requires { PairTable pairs.now }
    ensures { result ≡ measured (signs (number_of set) octets.now) room }
{
    let mut at: usize = 0;
    let mut here: usize = 0;
    let mut numbers: usize = 0;
    while at < octets.len() {
        let step = steps::step_at(set, pairs, octets, at);
        if room - here < step.length {
            return None;
        }
        here += step.length;
        numbers += step.numbers;
        at += step.wide;
    }
    Some(Size {
        length: here,
        numbers,
    })
}

// Writes what is known to fit, step by step as it was measured.
fn write(set: Set, pairs: &[u16], octets: &[u8], out: &mut [u8])
    requires { PairTable pairs.now × (length (utf8_of (signs (number_of set) octets.now)) ≤ length out.old) }
    ensures { out.new ≡ sets out.old 0 (utf8_of (signs (number_of set) octets.now)) }
{
    let mut at: usize = 0;
    let mut here: usize = 0;
    while at < octets.len() {
        let step = steps::put_step(set, pairs, octets, at, out, here);
        here += step.length;
        at += step.wide;
    }
}

// Shows octets of a set as UTF-8, at the front of the output. 18 where the output is shorter, which leaves it as it was.
pub fn show(set: u32, octets: &[u8], out: &mut [u8]) -> Shown
    ensures { ShownOutcome set octets.now out.old result out.new }
{
    let s = Set::from(set);
    let pairs = pairing::PAIRS;
    let Some(size) = measure(s, &pairs, octets, room_of(out.len())) else {
        return Shown {
            number: OUTPUT_TOO_SHORT,
            place: 0,
            length: 0,
            numbers: 0,
        };
    };
    write(s, &pairs, octets, out);
    Shown {
        number: 0,
        place: 0,
        length: size.length as u32,
        numbers: size.numbers as u32,
    }
}
