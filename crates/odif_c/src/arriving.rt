// A letter that arrives in blocks, for callers that can't hold it: the block engine's three questions, with rules 1 to 8.
ghost use Rattle.std.specs.Prelude.{◌≡◌};
ghost use Rattle.engine.specs.Stored.{Starts, Takes, closed_of};

use engine::{Blocks, Taken, Walked};

// Starts a letter of so many octets: 1 if they are too many.
#[unsafe(no_mangle)]
pub extern "C" fn odif_blocks_start(total: usize) -> Taken
    ensures { Starts total result }
{
    engine::start(total)
}

// Takes a block of any length: 28 if it is past the total, and then the state is as it was.
#[unsafe(no_mangle)]
pub extern "C" fn odif_blocks_take(state: Blocks, block: &[u8]) -> Taken
    ensures { Takes state block.now result }
{
    engine::take(state, block)
}

// What the walk of the letter tells: 29 if not all octets have come. The state stays with the caller.
#[unsafe(no_mangle)]
pub extern "C" fn odif_blocks_close(state: Blocks) -> Walked
    ensures { record { number = result.number; place = result.place; headers = result.headers } ≡ closed_of state }
{
    engine::close(state)
}
