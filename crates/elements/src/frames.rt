// The top of an element: which of its items stand where, by its shape.
ghost use Rattle.std.specs.Prelude.{◌≡◌, true, false, List, ℕ, ◌≤◌};
ghost use Rattle.headers.specs.Head.{constructed};
ghost use Rattle.runs.specs.Runs.{tree_in, definite_run, Fine};
ghost use Rattle.contents.specs.First.{Lacks};
ghost use Rattle.contents.specs.Search.{first_run};
ghost use Rattle.contents.specs.Opening.{Opens, FoundIn};
ghost use Rattle.pieces.specs.Pieces.{bit_pieces};
ghost use Rattle.elements.specs.Judge.{Content, pieces_alone};
ghost use Rattle.elements.specs.Slots.{slot_ordered};
ghost use Rattle.elements.specs.WellMade.{WellMade};
ghost use Rattle.elements.specs.Frames.{Bounding, Inner, NamedIn, HoldsContent, HoldingSlots, PiecesFirst, no_holder, Frames};

use super::{Frame, Holder, Slots};
use contents::{Opening, Part, Span};
use runs::Run;

fn no_run() -> Run
    ensures { result ≡ definite_run 0 0 0 }
{
    Run {
        at: 0,
        limit: 0,
        marked: false,
        room: 0,
    }
}

// The bounds of the value of an item that was looked for.
fn bounds_of(found: Option<Part>) -> Span
    ensures { (s : List ℕ) (r : Run) (octet : ℕ) → FoundIn s r octet found → Bounding s r octet result }
{
    match found {
        Some(p) => contents::span_of(p),
        None => Span { first: 0, past: 0 },
    }
}

// The run inside an opening's item with the octet.
fn run_with(o: Opening, octet: usize) -> Run
    ensures { (s : List ℕ) (r : Run) → Opens s r o → o.count ≤ 2 → constructed octet ≡ true → Inner s r octet result }
{
    match contents::part_with(o, octet) {
        Some(p) => p.inner,
        None => no_run(),
    }
}

// Nothing holds a content.
fn no_holder() -> Holder
    ensures { result ≡ no_holder }
{
    Holder {
        value: Span { first: 0, past: 0 },
        pieced: false,
        pieces: no_run(),
    }
}

// A content in pieces is held by their item, or by that of the tiles where there are no other pieces.
fn held_in_pieces(p: Part) -> Holder
    ensures { (s : List ℕ) (shape : Slots) (r : Run) → WellMade shape → PiecesFirst s shape r p → HoldingSlots s shape r result }
{
    let run = p.inner;
    let value = contents::span_of(p);
    Holder {
        value,
        pieced: true,
        pieces: run,
    }
}

// Where there are neither pieces nor tiles, it is held by the item with the content, if that is there.
fn held_whole(found: Option<Part>) -> Holder
    ensures { (s : List ℕ) (shape : Slots) (r : Run) → WellMade shape → Lacks s r shape.pieces → Lacks s r shape.tiles.octet
        → FoundIn s r shape.content found → HoldingSlots s shape r result }
{
    Holder {
        value: bounds_of(found),
        pieced: false,
        pieces: no_run(),
    }
}

// What of an opening's items holds the content of an element, if none of them has pieces.
fn unpieced_with(o: Opening, shape: Slots) -> Holder
    requires { WellMade shape }
    ensures { (s : List ℕ) (r : Run) → Opens s r o → o.count ≤ 2 → Lacks s r shape.pieces → HoldingSlots s shape r result }
{
    let tiles = shape.tiles;
    match contents::part_with(o, tiles.octet) {
        Some(p) => held_in_pieces(p),
        None => held_whole(contents::part_with(o, shape.content)),
    }
}

// What of an opening's items holds the content of an element.
fn holder_with(o: Opening, shape: Slots) -> Holder
    requires { WellMade shape }
    ensures { (s : List ℕ) (r : Run) → Opens s r o → o.count ≤ 2 → HoldingSlots s shape r result }
{
    match contents::part_with(o, shape.pieces) {
        Some(p) => held_in_pieces(p),
        None => unpieced_with(o, shape),
    }
}

// Whether an opening's items stand in order, the second as tabled or one of those that may stand instead of it.
fn stands(o: Opening, shape: Slots) -> bool
    requires { shape.free ≡ false }
    ensures { (s : List ℕ) (r : Run) → Opens s r o → result ≡ slot_ordered shape (tree_in s r) }
{
    let one = shape.one;
    let two = shape.two;
    if contents::fills(o, one, two) {
        return true;
    }
    let instead = shape.instead;
    if contents::fills(o, one, instead) {
        return true;
    }
    let tiles = shape.tiles;
    contents::fills(o, one, tiles)
}

// The run that names an element whose items stand in order: none, if nothing names it.
fn body_with(o: Opening, shape: Slots) -> Run
    requires { WellMade shape × (shape.free ≡ false) }
    ensures { (s : List ℕ) (r : Run) → Opens s r o → o.count ≤ 2 → NamedIn s shape r result }
{
    if !shape.looked {
        return no_run();
    }
    run_with(o, shape.within)
}

// The top of an element whose items have to stand in order, if they do.
fn frame_in_order(s: &[u8], shape: Slots, r: Run) -> Option<Frame>
    requires { Fine s.now r × WellMade shape × (shape.free ≡ false) }
    ensures { Frames s.now shape r result }
{
    let o = contents::opening_of(s, r);
    if !stands(o, shape) {
        return None;
    }
    Some(Frame {
        body: body_with(o, shape),
        object: bounds_of(contents::part_with(o, shape.object)),
        content: holder_with(o, shape),
    })
}

// The run that names an element whose items are free: its own, or none, if nothing names it.
fn free_body(shape: Slots, r: Run) -> Run
    requires { WellMade shape × (shape.free ≡ true) }
    ensures { (s : List ℕ) → Fine s r → NamedIn s shape r result }
{
    if !shape.looked {
        return no_run();
    }
    r
}

// The top of an element, if its items stand as they have to: at most three items of it are met.
pub fn frame_of(s: &[u8], shape: Slots, r: Run) -> Option<Frame>
    requires { Fine s.now r × WellMade shape }
    ensures { Frames s.now shape r result }
{
    if !shape.free {
        return frame_in_order(s, shape, r);
    }
    Some(Frame {
        body: free_body(shape, r),
        object: Span { first: 0, past: 0 },
        content: no_holder(),
    })
}

// What holds the content of an element of a stream that was judged, if no item of it has pieces. It is `unpieced_with` with another
// look-up: one function of both would take the look-up as a closure, whose contract is no plainer than two short functions.
fn unpieced_in(s: &[u8], shape: Slots, r: Run) -> Holder
    requires { Fine s.now r × WellMade shape × Lacks s.now r shape.pieces }
    ensures { HoldingSlots s.now shape r result }
{
    let tiles = shape.tiles;
    match contents::first_with(s, r, tiles.octet) {
        Some(p) => held_in_pieces(p),
        None => held_whole(contents::first_with(s, r, shape.content)),
    }
}

// What holds the content of an element of a stream that was judged. It looks for one item, where `frame_of` tells all of the top.
pub fn holder_in(s: &[u8], shape: Slots, r: Run) -> Holder
    requires { Fine s.now r × WellMade shape }
    ensures { HoldingSlots s.now shape r result }
{
    match contents::first_with(s, r, shape.pieces) {
        Some(p) => held_in_pieces(p),
        None => unpieced_in(s, shape, r),
    }
}

// Whether nothing else stands among the pieces of a content. Most contents are in one, and nothing more is read.
pub fn pieces_alone(s: &[u8], holder: Holder) -> bool
    requires { Fine s.now holder.pieces }
    ensures { (content : Content) → HoldsContent s.now holder content → result ≡ pieces_alone content }
{
    if !holder.pieced {
        return true;
    }
    let run = holder.pieces;
    pieces::are_pieces(s, run, 0x04, 0x24)
}

// Whether nothing else stands among the pieces of a seal. Few shapes have one, and of the others nothing more is read.
pub fn seal_alone(s: &[u8], shape: Slots, r: Run) -> bool
    requires { Fine s.now r × WellMade shape }
    ensures { result ≡ bit_pieces (first_run shape.seal (tree_in s.now r)) }
{
    if shape.seal == 0 {
        return true;
    }
    match contents::first_with(s, r, shape.seal) {
        Some(p) => pieces::are_pieces(s, p.inner, 0x03, 0x23),
        None => true,
    }
}
