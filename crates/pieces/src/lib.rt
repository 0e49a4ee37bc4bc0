// A string in pieces: an octet string that is constructed, 24, holding 04 and 24 items down to the level limit; or a bit string, 23, holding 03
// and 23 items. Whether a run holds nothing else, how many octets its pieces have in all, and the pieces joined in order. Each function
// calls itself for the run inside a constructed piece, a level deeper.
#![tactic(auto)]

ghost use Rattle.std.specs.Prelude.{◌≡◌, true, false, ◌++◌, ◌≤◌, length, drop};
ghost use Rattle.headers.specs.Head.{constructed};
ghost use Rattle.runs.specs.Runs.{tree_in, Fine};
ghost use Rattle.pieces.specs.Pieces.{only_pieces, joined};

use runs::Run;

// Whether a run holds items with the octet of a piece, and constructed ones that hold such items, and nothing else, at every level.
// Another item among the pieces is refused by 12.
pub fn are_pieces(s: &[u8], r: Run, piece: usize, pieces: usize) -> bool
    requires { Fine s.now r × (constructed piece ≡ false) × (constructed pieces ≡ true) }
    ensures { result ≡ only_pieces piece pieces (tree_in s.now r) }
{
    let mut cur = r;
    while let Some(item) = runs::meet(s, cur) {
        cur = item.rest;
        if item.code == pieces {
            if !are_pieces(s, item.inner, piece, pieces) {
                return false;
            }
        } else if item.code != piece {
            return false;
        }
    }
    true
}

// How many octets the pieces of a run have in all. To count is not to put into an output that is thrown away: it needs none, and no room can lack.
pub fn joined_length(s: &[u8], r: Run) -> usize
    requires { Fine s.now r }
    ensures { result ≡ length (joined (tree_in s.now r)) }
{
    let mut cur = r;
    let mut n: usize = 0;
    while let Some(item) = runs::meet(s, cur) {
        cur = item.rest;
        if item.code / 32 % 2 == 1 {
            n += joined_length(s, item.inner);
        } else {
            n += item.past - item.first;
        }
    }
    n
}

// Copies `from` to the start of `to`, and says how many octets that are. What `to` has past them stays.
pub fn copy(from: &[u8], to: &mut [u8]) -> usize
    requires { length from.now ≤ length to.old }
    ensures count { result ≡ length from.now }
    ensures out_after { to.new ≡ from.now ++ drop (length from.now) to.old }
{
    let count = from.len();
    to[..count].copy_from_slice(from);
    count
}

// Writes the pieces of a run, joined in order, to the start of the output, and says how many octets they are. Output past them stays.
pub fn put_joined(s: &[u8], r: Run, out: &mut [u8]) -> usize
    requires { Fine s.now r × (length (joined (tree_in s.now r)) ≤ length out.old) }
    ensures value { result ≡ length (joined (tree_in s.now r)) }
    ensures out_after { out.new ≡ joined (tree_in s.now r) ++ drop result out.old }
{
    let mut cur = r;
    let mut done: usize = 0;
    while let Some(item) = runs::meet(s, cur) {
        cur = item.rest;
        if item.code / 32 % 2 == 1 {
            done += put_joined(s, item.inner, &mut out[done..]);
        } else {
            done += copy(&s[item.first..item.past], &mut out[done..]);
        }
    }
    done
}
