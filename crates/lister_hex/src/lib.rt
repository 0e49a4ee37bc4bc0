// Hex lines to a stream: what the hex lister reads.
//
// A text can be longer than any buffer, so it comes in blocks: `start`, then `feed` for each block, then `finish`.
// No function here requires anything of its caller, whatever the state and the bytes are.
#![tactic(auto)]

ghost use Rattle.std.specs.Prelude.{◌≡◌, take};
ghost use Rattle.lister_hex.specs.Lines.{value_of};
ghost use Rattle.lister_hex.specs.Blocks.{standing, started, first, second, fed, finished};
ghost use Rattle.lister_hex.specs.Blocks.{on_byte as stepped};

// What ends a line.
const NEWLINE: u8 = b'\n';

// The most bytes that a stream has.
pub const INPUT_LIMIT: usize = 32768;

// Where reading stands, one of three: the stream's length so far, and the number of the line, from 1.
#[derive(Clone, Copy)]
pub enum State {
    // After whole pairs.
    Pairs { length: usize, line: u64 },
    // After the first byte of a pair, which is judged with the second.
    Half { length: usize, line: u64, first: u8 },
    // Past a line that cannot be read.
    Stopped { line: u64 },
}

// Where reading stands before the first byte.
pub fn start() -> State
    ensures { result ≡ started }
{
    State::Pairs { length: 0, line: 1 }
}

// Reads a block more. The octets so far stand at the front of `out`, and the bytes past them stay.
pub fn feed(state: State, block: &[u8], out: &mut [u8; INPUT_LIMIT]) -> State
    ensures { standing result out.new ≡ fed (standing state out.old) block.now }
{
    let mut here = state;
    for &byte in block {
        here = step(here, byte, out);
    }
    here
}

// The answer, where the text ends here: the length of the stream that stands at the front of the lent array, or the first line that cannot be read.
pub fn finish(state: State) -> Result<usize, u64>
    ensures { result ≡ finished state }
{
    match state {
        State::Pairs { length, line: _ } => Ok(length),
        State::Half {
            length: _,
            line,
            first: _,
        } => Err(line),
        State::Stopped { line } => Err(line),
    }
}

// A stream of a length, as a part of the array that it stands at the front of.
pub fn part<'a>(out: &'a [u8; INPUT_LIMIT], length: usize) -> &'a [u8]
    ensures { result.now ≡ take length out.now }
{
    front(out, length)
}

// The first bytes of a slice, or all of them where there are fewer.
fn front<'a>(s: &'a [u8], length: usize) -> &'a [u8]
    ensures { result.now ≡ take length s.now }
{
    &s[..length.min(s.len())]
}

// Reads one byte more.
fn step(state: State, byte: u8, out: &mut [u8; INPUT_LIMIT]) -> State
    ensures { standing result out.new ≡ stepped state out.old byte }
{
    match state {
        State::Pairs { length, line } => read_first(length, line, byte),
        State::Half {
            length,
            line,
            first,
        } => read_second(length, line, first, byte, out),
        State::Stopped { line } => State::Stopped { line },
    }
}

// Reads a byte after whole pairs.
fn read_first(length: usize, line: u64, byte: u8) -> State
    ensures { result ≡ first length line byte }
{
    if byte == NEWLINE {
        return State::Pairs {
            length,
            line: line.saturating_add(1),
        };
    }
    State::Half {
        length,
        line,
        first: byte,
    }
}

// Reads the second byte of a pair.
fn read_second(length: usize, line: u64, first: u8, byte: u8, out: &mut [u8; INPUT_LIMIT]) -> State
    ensures { standing result out.new ≡ second length line first out.old byte }
{
    let Some(high) = value(first) else {
        return State::Stopped { line };
    };
    let Some(low) = value(byte) else {
        return State::Stopped { line };
    };
    if INPUT_LIMIT <= length {
        return State::Stopped { line };
    }
    out[length] = high * 16 + low;
    State::Pairs {
        length: length + 1,
        line,
    }
}

// The value of a digit.
fn value(byte: u8) -> Option<u8>
    ensures { result ≡ value_of byte }
{
    match byte {
        b'0'..=b'9' => Some(byte - b'0'),
        b'A'..=b'F' => Some(10 + (byte - b'A')),
        _ => None,
    }
}
