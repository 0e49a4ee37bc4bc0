// The rows of a letter: which numbers a row has and where, the kinds of elements and who shares a name space; and look-up of rows by their names.
#![tactic(auto)]

ghost use Rattle.std.specs.Prelude.{◌≡◌, ◌+◌, ◌≤◌};
ghost use Rattle.rows.specs.Rows.{name_space_of};
ghost use Rattle.rows.specs.Index.{links_begin, half_of, identifier_index, logical_index};

mod chains; // chains.rt: look-up by hash, in chains of rows
mod lookup; // lookup.rt: look-up whoever chose the names
mod order; // order.rt: which of two names comes first, and whether a row has a name
mod places; // places.rt: rows in order, searched and added to
mod readers; // readers.rt: what a row has at a column

pub use lookup::{find, insert};
pub use readers::{bounds_at, is_either, is_named, is_there, kind_at, portions_at, value_at};

// Numbers a row, and where a row has the first of its element, of its identifier, of its logical identifier and of its portions.
pub const SCRATCH_WIDTH: usize = 12;

pub const WHOLE: usize = 2;

pub const IDENTIFIER: usize = 4;

pub const LOGICAL: usize = 6;

pub const PORTIONS: usize = 8;

// The kinds of elements that the code tells apart: numbers, as the rows lie in lent memory, which C reads as well.
pub const PROFILE: usize = 0;

pub const LAYOUT_CLASS: usize = 1;

pub const LAYOUT_OBJECT: usize = 2;

pub const TEXT_UNIT: usize = 3;

pub const LOGICAL_CLASS: usize = 5;

pub const LOGICAL_OBJECT: usize = 6;

// The name spaces of classes and objects, and of text units.
pub const OBJECTS: u8 = 1;

pub const UNITS: u8 = 2;

const SPACES: [u8; 9] = [0, 1, 1, 2, 0, 1, 1, 3, 3];

// Where the links of an index begin, after its heads. The mailroom's box divides by a call, so there is no quotient.
fn links_begin(size: usize) -> usize
    requires { 2 ≤ size }
    ensures { (result ≡ links_begin size) × (result + 2 ≤ size) }
{
    (size - 1) & (size - 2)
}

// The index of the identifiers in what is lent for a letter, and after it that of the logical identifiers.
pub fn identifiers(index: &[u16]) -> &[u16]
    ensures { result.now ≡ identifier_index index.now }
{
    let half = half_of(index.len());
    &index[..half]
}

pub fn logicals(index: &[u16]) -> &[u16]
    ensures { result.now ≡ logical_index index.now }
{
    let half = half_of(index.len());
    &index[half..]
}

// Where the second begins.
pub fn half_of(size: usize) -> usize
    ensures { result ≡ half_of size }
{
    size / 2
}

// The name space of a kind, 0 if it has none.
pub fn space_of(kind: usize) -> u8
    ensures { result ≡ name_space_of kind }
{
    match SPACES.get(kind) {
        Some(space) => *space,
        None => 0,
    }
}
