// The shapes of elements; and of one element rules 12 to 14, and its row.
#![tactic(auto)]

ghost use Rattle.std.specs.Prelude.{◌≡◌, true, ◌≤◌, length};
ghost use Rattle.octets.specs.Walk.{no_items, stream_limit};
ghost use Rattle.runs.specs.Runs.{items_of, tree_in, Fine};
ghost use Rattle.contents.specs.Search.{first_run};
ghost use Rattle.pieces.specs.Pieces.{bit_pieces};
ghost use Rattle.portions.specs.Lists.{ReadsPortions};
ghost use Rattle.elements.specs.Judge.{pieces_alone};
ghost use Rattle.elements.specs.Slots.{slot_content};
ghost use Rattle.elements.specs.WellMade.{WellMade};
ghost use Rattle.elements.specs.Frames.{Framed};
ghost use Rattle.elements.specs.Sees.{sought_of, row_by, Lookable, SeesSlots};

use contents::{Gathered, Slot, Sought, Span};
use portions::PortionList;
use runs::Run;

mod frames; // frames.rt: the top of an element
mod rules; // rules.rt: rules 12 to 14, by what was found
mod shapes; // shapes.rt: the shapes of an edition

pub use frames::holder_in;
pub use shapes::shape_of;

// Which edition of the Recommendation a letter is read by. It travels by value from a question to the look-up of a shape, and decides
// nothing else.
#[derive(Clone, Copy)]
pub enum Edition {
    Of1988,
    Of1993,
}

// The object type of an element that has none: the number that the lent table has for it.
pub const NO_TYPE: usize = 255;

// A shape as the code looks for it: the definitions have a case for each kind of element, and here one record has the slots of them all, so
// that one function serves every element. Most slots are empty: an octet 0 stands for none, since no item has it (crate elements'
// proofs/Zero), so what is looked for is found by its octet alone, without asking first whether there is one.
#[derive(Clone, Copy)]
pub struct Slots {
    pub octet: usize,
    // whether its items are looked at, and whether they are free or stand in order
    pub looked: bool,
    pub free: bool,
    pub one: Slot,
    pub two: Slot,
    // what may stand in the place of the second: another item, or one with tiles
    pub instead: Slot,
    pub tiles: Slot,
    // the item in which it is named; 0: the element itself
    pub within: usize,
    // there: its identifier, a logical one, portions, each at most once; and two that may not stand there
    pub identifier: Slot,
    pub logical: usize,
    pub portions: usize,
    pub never: usize,
    pub neither: usize,
    // the item with the object type, which is below `types`; the item with the content, and the one with content in pieces
    pub object: usize,
    pub types: usize,
    pub content: usize,
    pub pieces: usize,
    // the item with a seal in pieces, which is no content
    pub seal: usize,
}

// A row of the scratch: the element's kind and object type, and the bounds of the element, of its identifier (a unit's layout one), of a unit's
// logical identifier, of the portions' value and of the content. What is absent is bounded by 0 and 0, as in the lent table, whose row has
// the parent's row besides (`answers::table`).
#[derive(Clone, Copy)]
pub struct Row {
    pub kind: usize,
    pub object: usize,
    pub whole: Span,
    pub identifier: Span,
    pub logical: Span,
    pub portions: Span,
    pub content: Span,
}

// What holds the content of an element: the bounds of its value, and whether that is a run of pieces. The flag stays beside the run: the
// run is fine either way (`Holding`), so a reader of pieces need not ask, and an Option would be asked at each use.
#[derive(Clone, Copy)]
pub struct Holder {
    pub value: Span,
    pub pieced: bool,
    pub pieces: Run,
}

// The top of an element whose items stand as they have to: the run that names it, its object type and its content.
#[derive(Clone, Copy)]
pub struct Frame {
    pub body: Run,
    pub object: Span,
    pub content: Holder,
}

// What is seen of an element that rules 12 to 14 do not refuse: its row, and how many portions it has.
#[derive(Clone, Copy)]
pub struct Seen {
    pub row: Row,
    pub count: usize,
}

fn sought_of(shape: Slots) -> Sought
    ensures { result ≡ sought_of shape }
{
    let identifier = shape.identifier;
    Sought {
        identifier: identifier.octet,
        logical: shape.logical,
        portions: shape.portions,
        never: shape.never,
        neither: shape.neither,
    }
}

// The portions of an element, read if there are any.
fn listed_of(s: &[u8], g: Gathered, bounds: &mut [u32]) -> Option<PortionList>
    requires { Fine s.now g.list × (length s.now ≤ stream_limit) × (128 ≤ length bounds.old) }
    ensures { (g.lists ≡ 0 → items_of s.now g.list ≡ no_items)
        → ReadsPortions s.now g.list result bounds.new }
{
    if g.lists == 0 {
        return Some(PortionList {
            count: 0,
            misspelt: false,
        });
    }
    portions::read_portions(s, g.list, bounds)
}

// The row of an element.
fn row_of(shape: Slots, frame: Frame, object: usize, g: Gathered, whole: Span) -> Row
    ensures { result ≡ row_by shape frame object g whole }
{
    let identifier = g.identifier;
    let logical = g.logical;
    let portions = g.portions;
    let holder = frame.content;
    let content = holder.value;
    Row {
        kind: shape.octet % 32,
        object,
        whole,
        identifier,
        logical,
        portions,
        content,
    }
}

// What is seen of an element whose items stand as tabled. What names it is gathered once, and its portions are read once.
fn see_body(
    s: &[u8],
    shape: Slots,
    frame: Frame,
    whole: Span,
    bounds: &mut [u32],
) -> Result<Seen, usize>
    requires { Lookable s.now shape frame whole × (128 ≤ length bounds.old) }
    ensures { (r : Run) → Framed s.now shape r frame → pieces_alone (slot_content shape (tree_in s.now r)) ≡ true
        → bit_pieces (first_run shape.seal (tree_in s.now r)) ≡ true
        → SeesSlots s.now shape r whole.first whole.past bounds.new result }
{
    let g = contents::gather(s, frame.body, sought_of(shape));
    let Some(listed) = listed_of(s, g, bounds) else {
        return Err(12);
    };
    if !rules::is_tabled(shape.identifier.needed, g) {
        return Err(12);
    }
    let Some(object) = rules::object_type(s, frame.object, shape.types) else {
        return Err(13);
    };
    if !rules::are_spelt(s, g.identifier, g.logical, listed) {
        return Err(14);
    }
    Ok(Seen {
        row: row_of(shape, frame, object, g, whole),
        count: listed.count,
    })
}

// What rules 12 to 14 say of an element that stands from `first` to `past` and has the run r: its row, or the number of the first that
// refuses. The judge of a letter calls it once for each element, and lends the numbers that its portions are then compared by.
pub fn see(
    s: &[u8],
    shape: Slots,
    r: Run,
    first: usize,
    past: usize,
    bounds: &mut [u32],
) -> Result<Seen, usize>
    requires { Fine s.now r × WellMade shape × (length s.now ≤ stream_limit) × (first ≤ past) × (past ≤ length s.now) × (128 ≤ length bounds.old) }
    ensures { SeesSlots s.now shape r first past bounds.new result }
{
    let Some(frame) = frames::frame_of(s, shape, r) else {
        return Err(12);
    };
    if !frames::pieces_alone(s, frame.content) {
        return Err(12);
    }
    if !frames::seal_alone(s, shape, r) {
        return Err(12);
    }
    see_body(s, shape, frame, Span { first, past }, bounds)
}
