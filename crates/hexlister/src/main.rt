// The hex lister: reads standard input, lines of hexadecimal pairs, to its end, and prints what the stream is, one element a line.
//
// What the system puts into a block no contract says. `take_in` has all that is made of an answer of `read` and of the block; the loop that calls
// the two adds nothing, and hands on where reading stands after some bytes. `page::put_output` makes of that the whole output, which is written at
// once. Of a reader and a writer whose bytes are known, `list` says the whole: what is written is the output of all that was there to read.
#![tactic(auto)]

mod page;

ghost use Rattle.std.specs.Prelude.{◌≡◌, IfOk};
ghost use Rattle.hexlister.specs.Inputs.{is_stopped, over, TakesIn, HeardIn, PrintsKnown, Writes};

use lister_hex::{INPUT_LIMIT, State};
use page::PAGE_ROOM;
use std::io;
use std::io::{Read, Write};

// How many bytes a read is asked for.
const BLOCK: usize = 4096;

// What one answer of `read` leads to: reading goes on, or it is over, or it failed. Three ways, which an Option in an Option would hide.
#[derive(Clone, Copy)]
enum Turn {
    More(State),
    Over(State),
    Broken,
}

// Whether a line could not be read, so that what follows is not looked at.
fn is_stopped(state: State) -> bool
    ensures { result ≡ is_stopped state }
{
    match state {
        State::Stopped { line: _ } => true,
        State::Pairs { length: _, line: _ } => false,
        State::Half {
            length: _,
            line: _,
            first: _,
        } => false,
    }
}

// Whether reading is over after a block of n bytes: none came, or a line could not be read.
fn is_over(n: usize, state: State) -> bool
    ensures { result ≡ over n state }
{
    if n == 0 {
        return true;
    }
    is_stopped(state)
}

// What is made of an answer of `read` and of the block that it was lent: as many bytes as it gave, the block's first, are read on from where
// reading stood.
fn take_in(
    state: State,
    got: io::Result<usize>,
    block: &[u8],
    octets: &mut [u8; INPUT_LIMIT],
) -> Turn
    ensures { TakesIn state octets.old got block.now result octets.new }
{
    let Ok(count) = got else {
        return Turn::Broken;
    };
    let n = count.min(block.len());
    let next = lister_hex::feed(state, &block[..n], octets);
    if is_over(n, next) {
        return Turn::Over(next);
    }
    Turn::More(next)
}

// Reads until the input ends or a line cannot be read. A proved loop has to end, and nothing says that the input does: so it counts its
// turns down, from a number that no run uses up. Tells where reading ended, unless it failed.
fn read_input<R: Read>(input: &mut R, octets: &mut [u8; INPUT_LIMIT]) -> Option<State>
    ensures heard { HeardIn octets.old result octets.new }
    ensures printed { PrintsKnown (R.remaining input.old) result octets.new }
{
    let mut block = [0u8; BLOCK];
    let mut state = lister_hex::start();
    let mut turns = u64::MAX;
    while 0 < turns {
        turns -= 1;
        let got = input.read(&mut block);
        match take_in(state, got, &block, octets) {
            Turn::More(next) => {
                state = next;
            }
            Turn::Over(last) => return Some(last),
            Turn::Broken => return None,
        }
    }
    None
}

// Lists what a reader has left: reads it, and writes the whole output at once. False where it cannot be read, and then nothing is written.
fn list<R: Read, W: Write>(input: &mut R, out: &mut W) -> io::Result<bool>
    ensures { IfOk result (λ heard. Writes heard (R.remaining input.old) (W.contents out.old) (W.contents out.new)) }
{
    let mut octets = [0u8; INPUT_LIMIT];
    match read_input(input, &mut octets) {
        Some(state) => {
            let mut page = [0u8; PAGE_ROOM];
            let n = page::put_output(&mut page, state, &octets);
            out.write_all(&page[..n])?;
            Ok(true)
        }
        None => Ok(false),
    }
}

fn main(rt: HostRuntime) -> io::Result<()> {
    if !list(&mut rt.stdin(), &mut io::writer(&rt))? {
        eprintln!(rt; "the input cannot be read")?;
    }
    Ok(())
}
