// The reading list of a side.
#![tactic(auto)]

ghost use Rattle.std.specs.Prelude.{◌≡◌, true, [], ◌∷◌, ◌++◌, ◌+◌, ◌*◌, ◌<◌, ◌≤◌, length, drop};
ghost use Rattle.headers.specs.Head.{is_in};
ghost use Rattle.names.specs.Names.{space_byte};
ghost use Rattle.names.specs.Hash.{hash, hash_from, hashes};
ghost use Rattle.rows.specs.Rows.{scratch_width};
ghost use Rattle.rows.specs.Columns.{Bounded};
ghost use Rattle.rows.specs.Chains.{FindsRow};
ghost use Rattle.rows.specs.Index.{Filed, BothFiled};
ghost use Rattle.elements.specs.declared.Edition.{Edition};
ghost use Rattle.letters.specs.Scratch.{LetterRows};
ghost use Rattle.reading.specs.Match.{kinds_of};
ghost use Rattle.reading.specs.Records.{record_at, records, PutsRecords};
ghost use Rattle.reading.specs.Ready.{column_of, unit_space, is_listed, Room, PutsElement, PutsAll, ListsLetter};
ghost use Rattle.reading.specs.Ready.{found_matches, FoundBelow};

use names::Asked;
use rows::{
    IDENTIFIER, LAYOUT_CLASS, LAYOUT_OBJECT, LOGICAL, LOGICAL_CLASS, LOGICAL_OBJECT, PORTIONS,
    UNITS,
};

// Which objects and classes are read, and by which identifier of a text unit.
#[derive(Clone, Copy)]
pub enum Side {
    Layout,
    Logical,
}

// One record of the reading list, as C is lent it: an element, a place in its portions and a text unit, all from 0.
#[repr(C)]
#[derive(Clone, Copy)]
pub struct Match {
    pub element: u32,
    pub portion: u32,
    pub unit: u32,
}

// The record k of a list of numbers, three a record.
fn record_at(flat: &[u32], k: usize) -> Match
    requires { 3 * k + 2 < length flat.now }
    ensures { result ≡ record_at flat.now k }
{
    let at = 3 * k;
    Match {
        element: flat[at],
        portion: flat[at + 1],
        unit: flat[at + 2],
    }
}

// Fills the list that is lent with the first records; those past them keep theirs.
pub fn fill(flat: &[u32], count: usize, list: &mut [Match])
    requires { (3 * count ≤ length flat.now) × (count ≤ length list.old) }
    ensures { list.new ≡ records flat.now count ++ drop count list.old }
{
    for k in 0..count {
        list[k] = record_at(flat, k);
    }
}

pub fn column_of(side: Side) -> usize
    ensures { result ≡ column_of side }
{
    match side {
        Side::Layout => IDENTIFIER,
        Side::Logical => LOGICAL,
    }
}

// Whether elements of a kind are read on a side.
pub fn is_read(side: Side, kind: usize) -> bool
    ensures { result ≡ is_in kind (kinds_of side) }
{
    match side {
        Side::Layout => rows::is_either(kind, LAYOUT_CLASS, LAYOUT_OBJECT),
        Side::Logical => rows::is_either(kind, LOGICAL_CLASS, LOGICAL_OBJECT),
    }
}

// Whether element j is read on the side and has an identifier and portions.
#[tactic(auto, unfolding(crate::specs::Ready::is_listed))]
fn is_listed(rows: &[u32], side: Side, j: usize) -> bool
    requires { j * scratch_width + scratch_width ≤ length rows.now }
    ensures { result ≡ is_listed side rows.now j }
{
    is_read(side, rows::kind_at(rows, j))
        && rows::is_named(rows, j)
        && rows::is_there(rows::bounds_at(rows, j, PORTIONS))
}

// The text unit whose identifier is a name, one space and a portion; `hashed` is the hash up to the space.
fn unit_of(
    s: &[u8],
    rows: &[u32],
    index: &[u16],
    n: usize,
    column: usize,
    hashed: usize,
    name: &[u8],
    portion: &[u8],
) -> Option<usize>
    requires bounded { Bounded s.now rows.now column n }
    requires filed { Filed s.now rows.now column index.now n }
    requires hashed_value { (hashed ≡ hash_from (hash name.now) (space_byte ∷ [])) × (hashed < hashes) }
    ensures { FindsRow s.now rows.now column n unit_space (name.now ++ space_byte ∷ portion.now) result }
{
    let whole = names::hash_over(portion, hashed);
    let asked = Asked {
        front: name,
        back: Some(portion),
    };
    rows::find(s, rows, index, n, column, UNITS, whole, asked)
}

// Puts one record in its place.
fn put_record(flat: &mut [u32], k: usize, element: usize, portion: usize, unit: usize)
    requires k_in_bounds { 3 * k + 3 ≤ length flat.old }
    requires element_bound { (element < 4294967296) × (portion < 4294967296) × (unit < 4294967296) }
    ensures { PutsRecords flat.old k (found_matches element portion (Some unit)) flat.new (k + 1) }
{
    let record = [element as u32, portion as u32, unit as u32];
    flat[3 * k..3 * k + 3].copy_from_slice(&record);
}

// Puts the record of a portion whose unit was found.
fn put_found(
    flat: &mut [u32],
    count: usize,
    element: usize,
    portion: usize,
    found: Option<usize>,
) -> usize
    requires found_in_bounds { 3 * (count + length (found_matches element portion found)) ≤ length flat.old }
    requires element_bound { (element < 4294967296) × (portion < 4294967296) × FoundBelow 4294967296 found }
    ensures { PutsRecords flat.old count (found_matches element portion found) flat.new result }
{
    match found {
        Some(unit) => {
            put_record(flat, count, element, portion, unit);
            count + 1
        }
        None => count,
    }
}

// Puts the matches of an element that is listed. The identifier is hashed once, and no joined name is written out.
fn list_portions(
    s: &[u8],
    rows: &[u32],
    index: &[u16],
    n: usize,
    side: Side,
    element: usize,
    flat: &mut [u32],
    count: usize,
) -> usize
    requires letter_rows { (edition : Edition) × LetterRows edition s.now rows.now n }
    requires filed { Filed s.now rows.now (column_of side) index.now n }
    requires element_lt_n { (element < n) × (is_listed side rows.now element ≡ true) }
    requires room { Room side s.now rows.now n element flat.old count }
    ensures { PutsElement side s.now rows.now n element flat.old count flat.new result }
{
    let name = rows::value_at(s, rows, IDENTIFIER, element);
    let hashed = names::hash_space(names::hash_over(name, 0));
    let column = column_of(side);
    let mut left = rows::portions_at(rows, element);
    let mut place: usize = 0; // counted by hand, as a run is no slice
    let mut total = count;
    while let Some(item) = runs::meet(s, left) {
        let portion = &s[item.first..item.past];
        let found = unit_of(s, rows, index, n, column, hashed, name, portion);
        total = put_found(flat, total, element, place, found);
        place += 1;
        left = item.rest;
    }
    total
}

// Puts the matches of one element.
fn list_element(
    s: &[u8],
    rows: &[u32],
    index: &[u16],
    n: usize,
    side: Side,
    element: usize,
    flat: &mut [u32],
    count: usize,
) -> usize
    requires letter_rows { (edition : Edition) × LetterRows edition s.now rows.now n }
    requires filed { Filed s.now rows.now (column_of side) index.now n }
    requires element_lt_n { element < n }
    requires room { Room side s.now rows.now n element flat.old count }
    ensures { PutsElement side s.now rows.now n element flat.old count flat.new result }
{
    if is_listed(rows, side, element) {
        list_portions(s, rows, index, n, side, element, flat, count)
    } else {
        count
    }
}

// Puts all matches of a side, by the index of its identifiers.
fn list_side(s: &[u8], rows: &[u32], index: &[u16], n: usize, side: Side, flat: &mut [u32]) -> usize
    requires letter_rows { (edition : Edition) × LetterRows edition s.now rows.now n }
    requires filed { Filed s.now rows.now (column_of side) index.now n }
    requires n_in_bounds { 3 * n ≤ length flat.old }
    ensures { PutsAll side s.now rows.now n flat.old flat.new result }
{
    let mut count: usize = 0;
    for element in 0..n {
        count = list_element(s, rows, index, n, side, element, flat, count);
    }
    count
}

// Lists the matches of a side of an accepted letter, by its rows: three numbers a record, and how many.
pub fn list_matches(
    s: &[u8],
    rows: &[u32],
    index: &[u16],
    n: usize,
    side: Side,
    flat: &mut [u32],
) -> usize
    requires letter_rows { (edition : Edition) × LetterRows edition s.now rows.now n }
    requires both_filed { BothFiled s.now rows.now index.now n }
    requires n_in_bounds { 3 * n ≤ length flat.old }
    ensures { ListsLetter side s.now rows.now n flat.old flat.new result }
{
    match side {
        Side::Layout => list_side(s, rows, rows::identifiers(index), n, Side::Layout, flat),
        Side::Logical => list_side(s, rows, rows::logicals(index), n, Side::Logical, flat),
    }
}
