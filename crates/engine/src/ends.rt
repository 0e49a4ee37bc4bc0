// The open items, by their ends: each is stored twice, and one more if the item waits for its closing mark.
ghost use Rattle.std.specs.Prelude.{◌≡◌, ◌≤◌};
ghost use Rattle.blocks.specs.Engine.{limit_of, marked_of};
ghost use Rattle.engine.specs.Stored.{open_of, opens_of};
ghost use Rattle.engine.specs.Skimming.{Closes};

// An item that waits for its closing mark where it ends: the innermost of so many open items, and its end.
#[derive(Clone, Copy)]
pub struct Unclosed {
    pub level: usize,
    pub place: u32,
}

// Closes every item that ends at `at`, and tells how many are left open; or finds the one that waits for its mark there.
pub fn close_ended(ends: &[u32; 16], level: usize, at: usize) -> Result<usize, Unclosed>
    requires { level ≤ 16 }
    ensures { Closes level ends.now at result }
{
    for i in (0..level).rev() {
        let e = ends[i];
        if at < (e / 2) as usize {
            return Ok(i + 1);
        }
        if e % 2 == 1 {
            return Err(Unclosed {
                level: i + 1,
                place: e / 2,
            });
        }
    }
    Ok(0)
}

// The limit of the run that is read.
pub fn limit_at(ends: &[u32; 16], level: usize, total: usize) -> usize
    requires { (level ≤ 16) × (total ≤ 1048576) }
    ensures { (result ≡ limit_of total (opens_of level ends.now)) × (result ≤ 2147483647) }
{
    if level == 0 {
        return total;
    }
    (ends[level - 1] / 2) as usize
}

// Whether the innermost open item waits for its closing mark.
pub fn marked_at(ends: &[u32; 16], level: usize) -> bool
    requires { level ≤ 16 }
    ensures { result ≡ marked_of (opens_of level ends.now) }
{
    if level == 0 {
        return false;
    }
    ends[level - 1] % 2 == 1
}

// The end of an open item, as it is stored.
pub fn end_of(bound: usize, marked: bool) -> u32
    requires { bound ≤ 2147483647 }
    ensures { open_of result ≡ record { bound = bound; marked = marked } }
{
    if marked {
        return (bound * 2 + 1) as u32;
    }
    (bound * 2) as u32
}
