// The slots of each shape, and which octet has which. Made anew at each use: a table would be copied for it.
ghost use Rattle.std.specs.Prelude.{◌≡◌};
ghost use Rattle.headers.specs.Head.{type_field};
ghost use Rattle.elements.specs.Shape.{shapes1988, shapes1993, shape_in, shape_of};
ghost use Rattle.elements.specs.Slots.{profile_slots, described_slots, unit_slots, style_slots, protected_slots, enciphered_slots, sealed_slots, slots_of};

use super::{Edition, Slots};
use contents::Slot;

const NO_ITEM: Slot = Slot {
    octet: 0,
    needed: false,
};

// An item that is needed and that no element has.
const NEVER: Slot = Slot {
    octet: 0,
    needed: true,
};

// Content in tiles, which is not needed.
const TILES: Slot = Slot {
    octet: 0x30,
    needed: false,
};

const LAYOUT_TYPES: usize = 5;

const LOGICAL_TYPES: usize = 3;

// A shape of which nothing is looked for: its items are free.
const NO_SLOTS: Slots = Slots {
    octet: 0,
    looked: false,
    free: true,
    one: NO_ITEM,
    two: NO_ITEM,
    instead: NO_ITEM,
    tiles: NO_ITEM,
    within: 0,
    identifier: NO_ITEM,
    logical: 0,
    portions: 0,
    never: 0,
    neither: 0,
    object: 0,
    types: 0,
    content: 0,
    pieces: 0,
    seal: 0,
};

fn profile_slots(octet: usize) -> Slots
    ensures { result ≡ profile_slots octet }
{
    Slots { octet, ..NO_SLOTS }
}

// A class, of which the items are needed, or an object.
fn described_slots(octet: usize, needed: bool, types: usize) -> Slots
    ensures { result ≡ described_slots octet needed types }
{
    Slots {
        octet,
        looked: true,
        free: false,
        one: Slot {
            octet: 0x02,
            needed,
        },
        two: Slot {
            octet: 0x31,
            needed,
        },
        instead: Slot {
            octet: 0x31,
            needed,
        },
        tiles: NEVER,
        within: 0x31,
        identifier: Slot {
            octet: 0x41,
            needed,
        },
        portions: 0xA1,
        never: 0x61,
        neither: 0x81,
        object: 0x02,
        types,
        ..NO_SLOTS
    }
}

// A text unit, of which content is needed or not, and may stand in an item with tiles.
fn unit_slots(octet: usize, needed: bool, tiles: Slot) -> Slots
    ensures { result ≡ unit_slots octet needed tiles }
{
    Slots {
        octet,
        looked: true,
        free: false,
        one: Slot {
            octet: 0x31,
            needed: false,
        },
        two: Slot {
            octet: 0x04,
            needed,
        },
        instead: Slot {
            octet: 0x24,
            needed,
        },
        tiles,
        within: 0x31,
        identifier: Slot {
            octet: 0x40,
            needed: false,
        },
        logical: 0x84,
        never: 0x60,
        neither: 0xA4,
        content: 0x04,
        pieces: 0x24,
        ..NO_SLOTS
    }
}

fn style_slots(octet: usize) -> Slots
    ensures { result ≡ style_slots octet }
{
    Slots {
        octet,
        looked: true,
        identifier: Slot {
            octet: 0x45,
            needed: true,
        },
        never: 0x65,
        ..NO_SLOTS
    }
}

// A protected part: 47, then what is sealed or enciphered, whole or in pieces. Nothing names it.
fn protected_slots(octet: usize, whole: usize, pieces: usize) -> Slots
    ensures { result ≡ protected_slots octet whole pieces 0 0 0 }
{
    Slots {
        octet,
        free: false,
        one: Slot {
            octet: 0x47,
            needed: true,
        },
        two: Slot {
            octet: whole,
            needed: true,
        },
        instead: Slot {
            octet: pieces,
            needed: true,
        },
        tiles: NEVER,
        ..NO_SLOTS
    }
}

// A part that is enciphered: an octet string, which is its content.
fn enciphered_slots(octet: usize) -> Slots
    ensures { result ≡ enciphered_slots octet }
{
    Slots {
        content: 0x04, // enciphered information
        pieces: 0x24, // enciphered information in pieces
        ..protected_slots(octet, 0x04, 0x24)
    }
}

// A part that is sealed: a bit string, which is no content.
fn sealed_slots(octet: usize) -> Slots
    ensures { result ≡ sealed_slots octet }
{
    Slots {
        seal: 0x23,
        ..protected_slots(octet, 0x03, 0x23)
    }
}

fn shape_1988(code: usize) -> Slots
    ensures { result ≡ slots_of (shape_in shapes1988 (type_field code)) }
{
    match code {
        0xA0 => profile_slots(0xA0),
        0xA1 => described_slots(0xA1, true, LAYOUT_TYPES),
        0xA2 => described_slots(0xA2, false, LAYOUT_TYPES),
        0xA3 => unit_slots(0xA3, true, NEVER),
        0xA5 => described_slots(0xA5, true, LOGICAL_TYPES),
        0xA6 => described_slots(0xA6, false, LOGICAL_TYPES),
        0xA7 => style_slots(0xA7),
        0xA8 => style_slots(0xA8),
        _ => profile_slots(0),
    }
}

// What 1993 has of its own, and else what 1988 has.
fn shape_1993(code: usize) -> Slots
    ensures { result ≡ slots_of (shape_in shapes1993 (type_field code)) }
{
    match code {
        0xA3 => unit_slots(0xA3, false, TILES),
        0xA9 => sealed_slots(0xA9),
        0xAA => enciphered_slots(0xAA),
        0xAB => enciphered_slots(0xAB),
        0xAC => enciphered_slots(0xAC),
        _ => shape_1988(code),
    }
}

// The shape of an element by the code of its type field, in an edition.
pub fn shape_of(edition: Edition, code: usize) -> Slots
    ensures { result ≡ slots_of (shape_of edition (type_field code)) }
{
    match edition {
        Edition::Of1988 => shape_1988(code),
        Edition::Of1993 => shape_1993(code),
    }
}
