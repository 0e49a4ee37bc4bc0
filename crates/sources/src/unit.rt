// The content of one element of a letter: its places are counted, and put as records.
ghost use Rattle.std.specs.Prelude.{◌≡◌, ◌++◌, ◌*◌, ◌≤◌, length, drop};
ghost use Rattle.octets.specs.Walk.{stream_limit};
ghost use Rattle.runs.specs.Runs.{whole_stream, Fine};
ghost use Rattle.letters.specs.Scratch.{LetterRows};
ghost use Rattle.sources.specs.Places.{piece_at};
ghost use Rattle.sources.specs.Sources.{source_width, place_numbers};
ghost use Rattle.sources.specs.Units.{places_in};
ghost use Rattle.sources.specs.Steps.{held_places, HeldHere};

use super::{SOURCE_WIDTH, count_places, put_places, put_source};
use elements::Edition;
use letters::Held;

// How many places one piece has: none if it has no octets.
fn count_piece(first: usize, past: usize) -> usize
    ensures { result ≡ length (piece_at first past) }
{
    if first < past {
        return 1;
    }
    0
}

// Puts the record of one piece to the start of the list, if it has octets, and says how many numbers that are. What is past them stays.
fn put_piece(first: usize, past: usize, line: u32, list: &mut [u32]) -> usize
    requires { (past ≤ stream_limit) × (source_width * length (piece_at first past) ≤ length list.old) }
    ensures value { result ≡ source_width * length (piece_at first past) }
    ensures list_after { list.new ≡ place_numbers line (piece_at first past) ++ drop result list.old }
{
    if first < past {
        put_source(list, 0, line, first as u32, past as u32);
        return SOURCE_WIDTH;
    }
    0
}

// How many places what holds a content has.
fn count_held(s: &[u8], held: Held) -> usize
    requires { HeldHere s.now held }
    ensures { result ≡ length (held_places s.now held) }
{
    match held {
        Held::Part { first, past } => count_piece(first, past),
        Held::Pieces { run } => count_places(s, run),
    }
}

// Puts their records to the start of the list, and says how many numbers that are. What is past them stays.
fn put_held(s: &[u8], held: Held, line: u32, list: &mut [u32]) -> usize
    requires held_here { HeldHere s.now held × (length s.now ≤ stream_limit) }
    requires held_in_bounds { source_width * length (held_places s.now held) ≤ length list.old }
    ensures value { result ≡ source_width * length (held_places s.now held) }
    ensures list_after { list.new ≡ place_numbers line (held_places s.now held) ++ drop result list.old }
{
    match held {
        Held::Part { first, past } => put_piece(first, past, line, list),
        Held::Pieces { run } => put_places(s, run, line, list),
    }
}

// How many places the content of an element has: none if it isn't there.
pub fn count_unit(edition: Edition, s: &[u8], rows: &[u32], count: usize, unit: usize) -> usize
    requires { Fine s.now (whole_stream s.now) × LetterRows edition s.now rows.now count }
    ensures { result ≡ length (places_in edition s.now unit) }
{
    if unit < count {
        return count_held(s, letters::content_of(edition, s, rows, unit));
    }
    0
}

// Puts their records to the start of the list, and says how many numbers that are. What is past them stays.
pub fn put_unit(
    edition: Edition,
    s: &[u8],
    rows: &[u32],
    count: usize,
    unit: usize,
    line: u32,
    list: &mut [u32],
) -> usize
    requires fine { Fine s.now (whole_stream s.now) × LetterRows edition s.now rows.now count × (length s.now ≤ stream_limit) }
    requires unit_in_bounds { source_width * length (places_in edition s.now unit) ≤ length list.old }
    ensures value { result ≡ source_width * length (places_in edition s.now unit) }
    ensures list_after { list.new ≡ place_numbers line (places_in edition s.now unit) ++ drop result list.old }
{
    if unit < count {
        return put_held(s, letters::content_of(edition, s, rows, unit), line, list);
    }
    0
}
