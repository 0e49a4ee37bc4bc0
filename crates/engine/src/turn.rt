// What the skimming leaves: octets after a finding, the rest of a value, a header that is cut.
ghost use Rattle.std.specs.Prelude.{◌≡◌, ◌+◌, ◌-◌, ◌<◌, ◌≤◌, length};
ghost use Rattle.blocks.specs.Engine.{arrive, step};
ghost use Rattle.engine.specs.Stored.{standing_of, state_of};
ghost use Rattle.engine.specs.Skimming.{opens, Fine, FineIfReading, Turns};

use super::{Blocks, Moved, header};

// After a finding the octets are counted.
fn counted(mut b: Blocks, n: usize, i: usize) -> Blocks
    requires { (i < n) × (b.taken + (n - i) ≤ b.total) }
    ensures { (state_of result ≡ record { total = b.total; taken = b.taken + (n - i); standing = standing_of b }) × (result.number ≡ b.number) }
{
    b.taken = b.taken + (n - i);
    b
}

// The octets of a value that lie in the block.
fn passed(mut b: Blocks, n: usize, i: usize) -> Moved
    requires { Fine b × (b.number ≡ 0) × (i < n) × (b.taken + (n - i) ≤ b.total) × (b.taken < b.at) }
    ensures { (i < result.to) × (result.to ≤ n) × (b.taken + (result.to - i) ≤ b.at) × FineIfReading result.state
        × (state_of result.state ≡ record {
          total = b.total;
          taken = b.taken + (result.to - i);
          standing = arrive (b.taken + (result.to - i)) b.headers (opens b) b.at;
        }) }
{
    let k = (b.at - b.taken).min(n - i);
    b.taken = b.taken + k;
    Moved {
        state: header::arrived(b),
        to: i + k,
    }
}

// One octet of a header.
fn header_turn(mut b: Blocks, octet: u8) -> Blocks
    requires { Fine b × (b.number ≡ 0) × (b.taken < b.total) × (b.at ≤ b.taken) }
    ensures { FineIfReading result × (state_of result ≡ step (state_of b) octet) }
{
    b.taken = b.taken + 1;
    header::header_octet(b, octet)
}

// What stands in the block at i: octets after a finding, of a value, or one of a header.
pub fn turn(b: Blocks, block: &[u8], i: usize) -> Moved
    requires { FineIfReading b × (i < length block.now) × (b.taken + (length block.now - i) ≤ b.total) }
    ensures { (i < result.to) × Turns b block.now i result.state result.to }
{
    let n = block.len();
    if b.number != 0 {
        return Moved {
            state: counted(b, n, i),
            to: n,
        };
    }
    if b.taken < b.at {
        return passed(b, n, i);
    }
    let octet = block[i];
    Moved {
        state: header_turn(b, octet),
        to: i + 1,
    }
}
