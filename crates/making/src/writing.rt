// How long a letter is, and its octets, from front to back.
ghost use Rattle.std.specs.Prelude.{◌≡◌, [], ◌∷◌, ◌++◌, ◌+◌, ◌-◌, ◌<◌, ◌≤◌, length};
ghost use Rattle.names.specs.Names.{space_byte};
ghost use Rattle.octets.specs.Walk.{stream_limit};
ghost use Rattle.normal.specs.Passes.{PutsOctets};
ghost use Rattle.normal.specs.Normal.{further_octets};
ghost use Rattle.elements.specs.ElementRows.{bytes_in};
ghost use Rattle.making.specs.Entries.{said_by};
ghost use Rattle.making.specs.Octets.{item_size, unit_size_by, entry_size_by, capped, header, block_front, unit_front, block_octets, unit_octets, entry_octets, entries_octets, stream_octets};
ghost use Rattle.making.specs.Flat.{said_in};
ghost use Rattle.making.specs.Lent.{PartLies, names_of, text_of, EntryLies, Ordered, AllLie, AllOrdered, size_for};

use crate::{ENTRY_WIDTH, Entry};
use contents::Span;
use octets::STREAM_LIMIT;

// A size, or one more than the limit of a stream if it is over that.
fn cap(size: usize) -> usize
    ensures { result ≡ capped size }
{
    size.min(STREAM_LIMIT + 1)
}

// How long the value of a text unit is, by the octets of its names and its text.
fn unit_size(names: usize, text: usize) -> usize
    requires { (names ≤ 63) × (text ≤ stream_limit) }
    ensures { result ≡ unit_size_by names text }
{
    names + 5 + (2 + normal::further_octets(text as u32) + text)
}

// How long a block and its text unit are, up to one more than the limit.
fn size_by(names: usize, text: usize) -> usize
    requires { names ≤ 63 }
    ensures { result ≡ capped (entry_size_by names text) }
{
    if STREAM_LIMIT < text {
        return STREAM_LIMIT + 1;
    }
    let unit = unit_size(names, text);
    cap(names + 13 + (2 + normal::further_octets(unit as u32) + unit))
}

// How many octets a part of the buffer has.
fn size_of(part: Span) -> usize
    requires { part.first ≤ part.past }
    ensures { result ≡ part.past - part.first }
{
    part.past - part.first
}

// Writes four octets, and says the place past them.
fn put_four(out: &mut [u8], at: usize, a: u8, b: u8, c: u8, d: u8) -> usize
    requires { at + 4 ≤ length out.old }
    ensures { PutsOctets out.old at (a ∷ b ∷ c ∷ d ∷ []) result out.new }
{
    out[at..at + 4].copy_from_slice(&[a, b, c, d]);
    at + 4
}

// Writes a type field of one octet and the length octets of a value of so many.
fn put_header(out: &mut [u8], at: usize, octet: u8, size: usize) -> usize
    requires { (size < 4294967296) × (at + 2 + further_octets size ≤ length out.old) }
    ensures { PutsOctets out.old at (header octet size) result out.new }
{
    out[at] = octet;
    normal::put_length(out, at + 1, size as u32)
}

// Copies a part of the buffer.
fn put_part(buffer: &[u8], part: Span, out: &mut [u8], at: usize) -> usize
    requires { PartLies buffer.now part × (at + (part.past - part.first) ≤ length out.old) }
    ensures { PutsOctets out.old at (bytes_in buffer.now part) result out.new }
{
    normal::put_value(buffer, part.first, part.past, out, at)
}

// Writes what comes before the identifier of a block.
fn put_front(out: &mut [u8], at: usize, names: usize, identifier: usize) -> usize
    requires { (names ≤ 63) × (identifier ≤ names) × (at + 9 ≤ length out.old) }
    ensures { PutsOctets out.old at (block_front names identifier) result out.new }
{
    let first = put_four(out, at, 0xA2, (names + 11) as u8, 0x02, 0x01);
    let second = put_four(out, first, 0x04, 0x31, (names + 6) as u8, 0x41);
    out[second] = identifier as u8;
    second + 1
}

// Writes the block of an entry.
fn put_block(buffer: &[u8], entry: Entry, out: &mut [u8], at: usize) -> usize
    requires { EntryLies buffer.now entry × (at + (names_of entry + 13) ≤ length out.old) }
    ensures { PutsOctets out.old at (block_octets (said_by buffer.now entry) []) result out.new }
{
    let identifier = size_of(entry.identifier);
    let portion = size_of(entry.portion);
    let fronted = put_front(out, at, identifier + portion, identifier);
    let named = put_part(buffer, entry.identifier, out, fronted);
    let listed = put_four(out, named, 0xA1, (portion + 2) as u8, 0x12, portion as u8);
    put_part(buffer, entry.portion, out, listed)
}

// Writes the 31 of a text unit, with its layout identifier.
fn put_name(buffer: &[u8], entry: Entry, out: &mut [u8], at: usize, names: usize) -> usize
    requires { EntryLies buffer.now entry × (names ≡ names_of entry) × (at + (names + 5) ≤ length out.old) }
    ensures { PutsOctets out.old at
        (unit_front names ++ (bytes_in buffer.now entry.identifier ++ ((space_byte ∷ []) ++ bytes_in buffer.now entry.portion)))
        result out.new }
{
    let fronted = put_four(out, at, 0x31, (names + 3) as u8, 0x40, (names + 1) as u8);
    let named = put_part(buffer, entry.identifier, out, fronted);
    out[named] = 0x20;
    put_part(buffer, entry.portion, out, named + 1)
}

// Writes the text unit of an entry.
fn put_unit(buffer: &[u8], entry: Entry, out: &mut [u8], at: usize) -> usize
    requires { EntryLies buffer.now entry × (text_of entry ≤ stream_limit)
        × (at + item_size (unit_size_by (names_of entry) (text_of entry)) ≤ length out.old) }
    ensures { PutsOctets out.old at (unit_octets (said_by buffer.now entry) []) result out.new }
{
    let names = size_of(entry.identifier) + size_of(entry.portion);
    let text = size_of(entry.text);
    let headed = put_header(out, at, 0xA3, unit_size(names, text));
    let named = put_name(buffer, entry, out, headed, names);
    let held = put_header(out, named, 0x04, text);
    put_part(buffer, entry.text, out, held)
}

// Writes the block and the text unit of an entry.
fn put_entry(buffer: &[u8], entry: Entry, out: &mut [u8], at: usize) -> usize
    requires { EntryLies buffer.now entry × (text_of entry ≤ stream_limit)
        × (at + entry_size_by (names_of entry) (text_of entry) ≤ length out.old) }
    ensures { PutsOctets out.old at (entry_octets (said_by buffer.now entry)) result out.new }
{
    let past = put_block(buffer, entry, out, at);
    put_unit(buffer, entry, out, past)
}

// How long an entry is, up to one more than the limit.
fn entry_size(entry: Entry) -> usize
    requires { Ordered entry }
    ensures { result ≡ capped (entry_size_by (names_of entry) (text_of entry)) }
{
    size_by(
        size_of(entry.identifier) + size_of(entry.portion),
        size_of(entry.text),
    )
}

// How long the letter is that is made of the entries, up to one more than the limit.
pub fn measure(numbers: &[u32]) -> usize
    requires { AllOrdered numbers.now }
    ensures { result ≡ capped (size_for numbers.now) }
{
    let mut size: usize = 2;
    for k in 0..numbers.len() / ENTRY_WIDTH {
        size = cap(size + entry_size(crate::entry_at(numbers, k)));
    }
    size
}

// Writes the entries in order.
fn put_entries(buffer: &[u8], numbers: &[u32], out: &mut [u8], begin: usize) -> usize
    requires { AllLie buffer.now numbers.now × (size_for numbers.now ≤ stream_limit)
        × (begin ≡ 2) × (size_for numbers.now ≤ length out.old) }
    ensures { PutsOctets out.old begin (entries_octets (said_in buffer.now numbers.now)) result out.new }
{
    let mut at = begin;
    for k in 0..numbers.len() / ENTRY_WIDTH {
        at = put_entry(buffer, crate::entry_at(numbers, k), out, at);
    }
    at
}

// Writes the letter, an empty profile and the entries, and says how long it is.
pub fn put_letter(buffer: &[u8], numbers: &[u32], out: &mut [u8]) -> usize
    requires { AllLie buffer.now numbers.now × (size_for numbers.now ≤ stream_limit) × (size_for numbers.now ≤ length out.old) }
    ensures { PutsOctets out.old 0 (stream_octets (said_in buffer.now numbers.now)) result out.new }
{
    out[0] = 0xA0;
    out[1] = 0x00;
    put_entries(buffer, numbers, out, 2)
}
