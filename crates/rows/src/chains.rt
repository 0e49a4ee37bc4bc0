// Look-up by hash: a chain of rows for each bucket of their hashes, each next one an earlier row.
ghost use Rattle.std.specs.Prelude.{◌≡◌, ◌+◌, ◌<◌, length};
ghost use Rattle.names.specs.Asked.{spelling};
ghost use Rattle.names.specs.Hash.{hash, bucket};
ghost use Rattle.rows.specs.Columns.{value_at, Bounded};
ghost use Rattle.rows.specs.Chains.{Indexed, Links, FindsRow};
ghost use Rattle.rows.specs.Index.{links_begin, heads_of, links_of};

use super::{SCRATCH_WIDTH, links_begin, order};
use names::Asked;

// The last of the first n rows that is of the name space and has the name asked for, whose hash is `hashed`.
pub fn find(
    s: &[u8],
    rows: &[u32],
    head: &[u16],
    next: &[u16],
    n: usize,
    column: usize,
    space: u8,
    hashed: usize,
    asked: Asked,
) -> Option<usize>
    requires bounded { Bounded s.now rows.now column n }
    requires indexed { Indexed s.now rows.now column head.now next.now n }
    requires hashed_value { hashed ≡ hash (spelling asked) }
    ensures { FindsRow s.now rows.now column n space (spelling asked.entry) result }
{
    let mut link = head[names::bucket_of(head.len(), hashed)] as usize;
    // A chain is walked by its links, as each row's number stands in the one before: an iterator for it is no plainer.
    while 0 < link {
        let j = link - 1;
        if order::has(s, rows, column, j, space, asked) {
            return Some(j);
        }
        link = next[j] as usize;
    }
    None
}

// Adds row n, if it has a value there. `hashed` is that value's hash, by which the caller has looked it up before.
pub fn insert(s: &[u8], rows: &[u32], index: &mut [u16], n: usize, column: usize, hashed: usize)
    requires bounded { Bounded s.now rows.now column (n + 1) }
    requires indexed { Indexed s.now rows.now column (heads_of index.old) (links_of index.old) n }
    requires n_in_bounds { n < length (links_of index.old) }
    requires n_bound { n + 1 < 65536 }
    requires hashed_value { hashed ≡ hash (value_at s.now rows.now column n) }
    ensures indexed_2 { Indexed s.now rows.now column (heads_of index.new) (links_of index.new) (n + 1) }
    ensures index_len_unchanged { length index.new ≡ length index.old }
    ensures links { Links (heads_of index.old) (links_of index.old) (heads_of index.new) (links_of index.new)
        (bucket (links_begin (length index.old)) hashed) n }
{
    let at = n * SCRATCH_WIDTH + column;
    if rows[at] < rows[at + 1] {
        let links = links_begin(index.len());
        let b = names::bucket_of(links, hashed);
        index[links + n] = index[b];
        index[b] = (n + 1) as u16;
    }
}
