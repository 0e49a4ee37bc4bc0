// The first item of a stream, walked alone: no octet after it is read.
#![tactic(auto)]

ghost use Rattle.std.specs.Prelude.{◌≡◌, ◌<◌, length};
ghost use Rattle.octets.specs.Walk.{ends};
ghost use Rattle.fronts.specs.First.{walk_first};
ghost use Rattle.fronts.specs.FirstItem.{FirstItem, BeginsWith};

use headers::Refusal;
use octets::DEEPEST;
use runs::Run;

// The first item of a stream, which is whole: the code of its type field, and the run inside it.
#[derive(Clone, Copy)]
pub struct First {
    pub code: usize,
    pub inner: Run,
}

// The first item of a stream that is not empty, walked alone, or its refusal by 2 to 8: no octet after it is read. The date of its run is
// `date_in`'s.
pub fn first_item(s: &[u8]) -> Result<First, Refusal>
    requires { 0 < length s.now }
    ensures { BeginsWith s.now result }
{
    match octets::walk_one(s, 0, s.len(), DEEPEST) {
        Ok(ended) => Ok(inside_first(s, ended.at)),
        Err(refused) => Err(Refusal {
            number: refused.number,
            place: refused.place,
        }),
    }
}

// The first item, which is whole and ends at `next`. Its run alone has it, so it is met.
fn inside_first(s: &[u8], next: usize) -> First
    requires { (0 < length s.now) × ((walk_first s.now).how ≡ ends next) }
    ensures { FirstItem s.now result.code result.inner }
{
    let alone = Run {
        at: 0,
        limit: next,
        marked: false,
        room: DEEPEST,
    };
    let Some(item) = runs::meet(s, alone) else {
        unreachable!()
    };
    First {
        code: item.code,
        inner: item.inner,
    }
}
