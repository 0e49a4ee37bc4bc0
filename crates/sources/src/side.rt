// The sources of all lines of a side: counted, and put as records. A match is three numbers, of which the last is its unit.
ghost use Rattle.std.specs.Prelude.{◌≡◌, ◌++◌, ◌*◌, ◌≤◌, length, drop};
ghost use Rattle.octets.specs.Walk.{stream_limit};
ghost use Rattle.runs.specs.Runs.{whole_stream, Fine};
ghost use Rattle.letters.specs.Scratch.{LetterRows};
ghost use Rattle.text_lines.specs.Flat.{records_from};
ghost use Rattle.sources.specs.Sources.{source_width, sources_from, source_numbers};
ghost use Rattle.sources.specs.Units.{places_in};
ghost use Rattle.sources.specs.Steps.{LinesListed};

use super::unit::{count_unit, put_unit};
use elements::Edition;

// How many sources the lines of the first matches have in all.
pub fn count_sources(
    edition: Edition,
    s: &[u8],
    rows: &[u32],
    count: usize,
    numbers: &[u32],
    lines: usize,
) -> usize
    requires fine { Fine s.now (whole_stream s.now) × LetterRows edition s.now rows.now count }
    requires lines_listed { LinesListed edition s.now numbers.now lines }
    ensures { result ≡ length (sources_from (places_in edition s.now) 0 (records_from numbers.now 0 lines)) }
{
    let mut total: usize = 0;
    for k in 0..lines {
        let unit = numbers[3 * k + 2] as usize;
        total += count_unit(edition, s, rows, count, unit);
    }
    total
}

// Puts the sources of the lines of the first matches to the start of the list. What is past them stays.
pub fn put_sources(
    edition: Edition,
    s: &[u8],
    rows: &[u32],
    count: usize,
    numbers: &[u32],
    lines: usize,
    list: &mut [u32],
)
    requires fine { Fine s.now (whole_stream s.now) × LetterRows edition s.now rows.now count × (length s.now ≤ stream_limit) }
    requires lines_listed { LinesListed edition s.now numbers.now lines }
    requires lines_in_bounds { source_width * length (sources_from (places_in edition s.now) 0 (records_from numbers.now 0 lines)) ≤ length list.old }
    ensures { let all = source_numbers (sources_from (places_in edition s.now) 0 (records_from numbers.now 0 lines)) in
        list.new ≡ all ++ drop (length all) list.old }
{
    let mut done: usize = 0;
    for k in 0..lines {
        let unit = numbers[3 * k + 2] as usize;
        done += put_unit(edition, s, rows, count, unit, k as u32, &mut list[done..]);
    }
}
