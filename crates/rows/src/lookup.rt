// Look-up of a table's rows by name, whoever chose the names: by hash in chains of few rows, and, from the first row on for which a chain
// has no room, in order of the names, searched by halves.
ghost use Rattle.std.specs.Prelude.{◌≡◌, true, ◌+◌, ◌<◌, length, get_or};
ghost use Rattle.names.specs.Asked.{spelling};
ghost use Rattle.names.specs.Hash.{hash};
ghost use Rattle.rows.specs.Columns.{value_at, Bounded};
ghost use Rattle.rows.specs.Chains.{FindsRow};
ghost use Rattle.rows.specs.Lookup.{chained, AtMost, Linked};
ghost use Rattle.rows.specs.Index.{links_begin, heads_of, links_of, Filed};

use super::{SCRATCH_WIDTH, chains, links_begin, places};
use names::Asked;

// Most rows of a chain. Names that nobody chose for it come nowhere near.
const LONGEST_CHAIN: usize = 8;

// How many of the first n rows are in chains.
fn chained_of(next: &[u16], n: usize) -> usize
    requires { 0 < length next.now }
    ensures { result ≡ chained next.now n }
{
    let mark = next[next.len() - 1] as usize;
    if mark == 0 {
        return n;
    }
    mark - 1
}

// Whether the chain of a bucket has room for a row more.
fn is_short(head: &[u16], next: &[u16], n: usize, bucket: usize) -> bool
    requires { Linked head.now next.now n × (bucket < length head.now) }
    ensures { result ≡ true → AtMost next.now 7 (get_or head.now bucket 0) }
{
    let mut link = head[bucket] as usize;
    for _ in 1..LONGEST_CHAIN {
        if link == 0 {
            return true;
        }
        link = next[link - 1] as usize;
    }
    link == 0
}

// Whether the chain of a bucket of an index has room for a row more.
fn has_room(index: &[u16], n: usize, bucket: usize) -> bool
    requires { Linked (heads_of index.now) (links_of index.now) n × (bucket < links_begin (length index.now)) }
    ensures { result ≡ true → AtMost (links_of index.now) 7 (get_or (heads_of index.now) bucket 0) }
{
    let links = links_begin(index.len());
    is_short(&index[..links], &index[links..], n, bucket)
}

// The last of the first n rows that is of the name space and has the name asked for, whose hash is `hashed`.
fn find_any(
    s: &[u8],
    rows: &[u32],
    index: &[u16],
    n: usize,
    column: usize,
    space: u8,
    hashed: usize,
    asked: Asked,
) -> Option<usize>
    requires bounded { Bounded s.now rows.now column n }
    requires filed { Filed s.now rows.now column index.now n }
    requires hashed_value { hashed ≡ hash (spelling asked) }
    ensures { FindsRow s.now rows.now column n space (spelling asked.entry) result }
{
    let links = links_begin(index.len());
    let head = &index[..links];
    let next = &index[links..];
    let from = chained_of(next, n);
    match places::find_later(s, rows, next, from, n, column, space, asked) {
        Some(j) => Some(j),
        None => chains::find(s, rows, head, next, from, column, space, hashed, asked),
    }
}

// Finds that row in an index. Mostly no row is in order and the bucket has none: that much is small enough to stand in the caller.
pub fn find(
    s: &[u8],
    rows: &[u32],
    index: &[u16],
    n: usize,
    column: usize,
    space: u8,
    hashed: usize,
    asked: Asked,
) -> Option<usize>
    requires bounded { Bounded s.now rows.now column n }
    requires filed { Filed s.now rows.now column index.now n }
    requires hashed_value { hashed ≡ hash (spelling asked) }
    ensures { FindsRow s.now rows.now column n space (spelling asked.entry) result }
{
    if index[index.len() - 1] != 0 {
        return find_any(s, rows, index, n, column, space, hashed, asked);
    }
    if index[names::bucket_of(links_begin(index.len()), hashed)] == 0 {
        return None;
    }
    find_any(s, rows, index, n, column, space, hashed, asked)
}

// Adds row n, which has a value, or is to be put in order.
fn insert_any(s: &[u8], rows: &[u32], index: &mut [u16], n: usize, column: usize, hashed: usize)
    requires bounded { Bounded s.now rows.now column (n + 1) }
    requires filed { Filed s.now rows.now column index.old n }
    requires n_in_bounds { n + 1 < length (links_of index.old) }
    requires n_bound { n + 1 < 65536 }
    requires hashed_value { hashed ≡ hash (value_at s.now rows.now column n) }
    ensures filed_2 { Filed s.now rows.now column index.new (n + 1) }
    ensures index_len_unchanged { length index.new ≡ length index.old }
{
    let last = index.len() - 1;
    let links = links_begin(index.len());
    let mark = index[last] as usize;
    if mark != 0 {
        places::put_in_order(s, rows, &mut index[links..], mark - 1, n, column);
        return;
    }
    if has_room(index, n, names::bucket_of(links, hashed)) {
        chains::insert(s, rows, index, n, column, hashed);
        return;
    }
    index[links + n] = n as u16;
    index[last] = (n + 1) as u16;
}

// Adds row n. `hashed` is the hash of its value, by which the caller has looked it up before. Mostly a row has no value, or
// is the first of its bucket: that much is small enough to stand in the caller. What the rest is lent is lent anew, or the caller would
// keep it in memory for all rows.
pub fn insert(s: &[u8], rows: &[u32], index: &mut [u16], n: usize, column: usize, hashed: usize)
    requires bounded { Bounded s.now rows.now column (n + 1) }
    requires filed { Filed s.now rows.now column index.old n }
    requires n_in_bounds { n + 1 < length (links_of index.old) }
    requires n_bound { n + 1 < 65536 }
    requires hashed_value { hashed ≡ hash (value_at s.now rows.now column n) }
    ensures filed_2 { Filed s.now rows.now column index.new (n + 1) }
    ensures index_len_unchanged { length index.new ≡ length index.old }
{
    let last = index.len() - 1;
    if index[last] != 0 {
        insert_any(&*s, &*rows, index, n, column, hashed);
        return;
    }
    let at = n * SCRATCH_WIDTH + column;
    if rows[at + 1] <= rows[at] {
        return;
    }
    if index[names::bucket_of(links_begin(index.len()), hashed)] == 0 {
        chains::insert(s, rows, index, n, column, hashed);
        return;
    }
    insert_any(&*s, &*rows, index, n, column, hashed);
}
