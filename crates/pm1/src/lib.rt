// The PM1 desk: a question over the reader, which pages of a letter are within PM1. It asks `odif::check`, and goes through the elements by
// `runs::meet`.
#![tactic(auto)]

ghost use Rattle.std.specs.Prelude.{◌≡◌, [], ◌∷◌, ◌+◌, ◌*◌, ◌<◌, ◌≤◌, length};
ghost use Rattle.std.proofs.lemmas.List.Edits.{sets};
ghost use Rattle.runs.specs.Runs.{tree_in, Fine};
ghost use Rattle.answers.specs.Table.{table_width};
ghost use Rattle.measures.specs.Verdicts.{number_of};
ghost use Rattle.pm1.specs.Pages.{is_page, page_width, page_numbers};
ghost use Rattle.pm1.specs.Answers.{PagesOutcome};
ghost use Rattle.pm1.specs.ByTable.{kind_at, object_at, page_at, pages_by, pages_among, Puts, Ready};

use answers::TABLE_WIDTH;
use measures::Verdict;
pub use odif::Edition;
use runs::Run;

const LIST_TOO_SHORT: u32 = 30;

// The object type of a page.
const PAGE: u32 = 2;

// Which kinds may be one: a layout class and a layout object.
const LAYOUT_CLASS: u32 = rows::LAYOUT_CLASS as u32;

const LAYOUT_OBJECT: u32 = rows::LAYOUT_OBJECT as u32;

// The numbers of a record of the list: a row of the table, and the verdict on it.
const PAGE_WIDTH: usize = 2;

// What the question answers. Number 0 is answered.
#[repr(C)]
#[derive(Clone, Copy)]
pub struct Paged {
    pub number: u32,
    pub place: u32,
    pub elements: u32,
    pub pages: u32,
}

// Whether row j of a finished table is a page or a page class.
fn is_page(table: &[u32], j: usize) -> bool
    requires { (j < 4096) × (j * table_width + table_width ≤ length table.now) }
    ensures { result ≡ is_page (kind_at table.now j) (object_at table.now j) }
{
    let at = j * TABLE_WIDTH;
    let kind = table[at];
    table[at + 1] == PAGE && (kind == LAYOUT_CLASS || kind == LAYOUT_OBJECT)
}

// How many of the first rows of a finished table are pages and page classes.
fn count_pages(table: &[u32], elements: usize) -> usize
    requires { (elements ≤ 4096) × (elements * table_width ≤ length table.now) }
    ensures { (result ≡ pages_among table.now 0 elements) × (result ≤ elements) }
{
    let mut count: usize = 0;
    for j in 0..elements {
        if is_page(table, j) {
            count += 1;
        }
    }
    count
}

// Puts the two numbers of record k in their place.
fn put_page(list: &mut [u32], k: usize, element: usize, verdict: Verdict)
    requires { (page_width * k + page_width ≤ length list.old) × (element < 4096) }
    ensures { list.new ≡ sets list.old (page_width * k) (element ∷ number_of verdict ∷ []) }
{
    let at = PAGE_WIDTH * k;
    list[at] = element as u32;
    list[at + 1] = verdict.into();
}

// Puts the record of an element after so many, if it is a page, and says how many there are then.
fn put_element(
    stream: &[u8],
    inner: Run,
    table: &[u32],
    element: usize,
    list: &mut [u32],
    count: usize,
) -> usize
    requires fine { Fine stream.now inner × (element < 4096) × (element * table_width + table_width ≤ length table.now) }
    requires inner_in_bounds { page_width * (count + length (page_at table.now element (tree_in stream.now inner))) ≤ length list.old }
    ensures { Puts list.old count (page_at table.now element (tree_in stream.now inner)) list.new result }
{
    if !is_page(table, element) {
        return count;
    }
    let verdict = dimensions::verdict_of(stream, inner);
    put_page(list, count, element, verdict);
    count + 1
}

// Puts the records of all pages, by the finished table of a stream that was walked, to a list that has room for them.
fn put_pages(stream: &[u8], table: &[u32], list: &mut [u32])
    requires { Ready stream.now table.now list.old }
    ensures { list.new ≡ sets list.old 0 (page_numbers (pages_by stream.now table.now)) }
{
    let mut left = runs::whole_stream(stream);
    let mut element: usize = 0;
    let mut count: usize = 0;
    while let Some(item) = runs::meet(stream, left) {
        count = put_element(stream, item.inner, table, element, list, count);
        element += 1;
        left = item.rest;
    }
}

// What is answered where there is nothing in the list.
fn refuse(number: u32, place: u32, elements: u32) -> Paged
    ensures { result ≡ record { number = number; place = place; elements = elements; pages = 0 } }
{
    Paged {
        number,
        place,
        elements,
        pages: 0,
    }
}

// Lists the pages of a letter with the verdict on each, two numbers a page, and fills the element table as the check does. A partner who accepts
// only PM1 asks this. The pages are counted by the table before any is put: nothing is written to a list that is too short.
pub fn pages(edition: Edition, stream: &[u8], table: &mut [u32], list: &mut [u32]) -> Paged
    ensures { PagesOutcome edition stream.now table.old list.old result table.new list.new }
{
    let checked = odif::check(edition, stream, table);
    if checked.number != 0 {
        return refuse(checked.number, checked.place, 0);
    }
    let count = count_pages(table, checked.elements as usize);
    if list.len() / PAGE_WIDTH < count {
        return refuse(LIST_TOO_SHORT, 0, checked.elements);
    }
    put_pages(stream, table, list);
    Paged {
        number: 0,
        place: 0,
        elements: checked.elements,
        pages: count as u32,
    }
}
