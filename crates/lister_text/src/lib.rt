// Answers to text: the lines that the hex lister writes.
//
// Each public function writes one line, with its newline, at the front of a lent array and tells its length.
// None requires anything of its caller: every line fits.
#![tactic(auto)]

ghost use Rattle.std.specs.Prelude.{◌≡◌, ◌+◌, ◌*◌, ◌≤◌, ◌<◌, [], ◌∷◌, length};
ghost use Rattle.std.proofs.lemmas.List.Edits.{sets};
ghost use Rattle.lister_text.specs.Decimal.{decimal};
ghost use Rattle.lister_text.specs.Lines.{rest, line, accepted, element, layout, logical, refused, unreadable, WritesLine};

// Room for any line: a word of at most 10 bytes or a number, and three numbers of at most 20 digits.
pub const LINE_ROOM: usize = 128;

// A stream was accepted: how many elements, and how many headers.
pub fn put_accepted(out: &mut [u8; LINE_ROOM], elements: u32, headers: u32) -> usize
    ensures { WritesLine (accepted elements headers) out.old result out.new }
{
    put_line(out, b"accepted", &[elements as u64, headers as u64])
}

// An element's number, bounds and kind.
pub fn put_element(
    out: &mut [u8; LINE_ROOM],
    number: u32,
    first: u32,
    past: u32,
    kind: u32,
) -> usize
    ensures { WritesLine (element number first past kind) out.old result out.new }
{
    let at = put_number(out, 0, number as u64);
    put_rest(out, at, &[first as u64, past as u64, kind as u64])
}

// A match of the layout side.
pub fn put_layout(out: &mut [u8; LINE_ROOM], element: u32, portion: u32, unit: u32) -> usize
    ensures { WritesLine (layout element portion unit) out.old result out.new }
{
    put_match(out, b"layout", element, portion, unit)
}

// A match of the logical side.
pub fn put_logical(out: &mut [u8; LINE_ROOM], element: u32, portion: u32, unit: u32) -> usize
    ensures { WritesLine (logical element portion unit) out.old result out.new }
{
    put_match(out, b"logical", element, portion, unit)
}

// A stream was refused: the number, and the place.
pub fn put_refused(out: &mut [u8; LINE_ROOM], number: u32, place: u32) -> usize
    ensures { WritesLine (refused number place) out.old result out.new }
{
    put_line(out, b"refused", &[number as u64, place as u64])
}

// The input was no lines of hexadecimal pairs: the first line that is none.
pub fn put_unreadable(out: &mut [u8; LINE_ROOM], number: u64) -> usize
    ensures { WritesLine (unreadable number) out.old result out.new }
{
    put_line(out, b"unreadable", &[number])
}

// A match of either side: the side's word, and three numbers.
fn put_match(out: &mut [u8], side: &[u8], element: u32, portion: u32, unit: u32) -> usize
    requires { length side.now + 63 < length out.old }
    ensures { WritesLine (line side.now (element ∷ portion ∷ unit ∷ [])) out.old result out.new }
{
    put_line(out, side, &[element as u64, portion as u64, unit as u64])
}

// A word and some numbers, each of which takes a space and at most 20 digits.
fn put_line(out: &mut [u8], word: &[u8], numbers: &[u64]) -> usize
    requires { length word.now + 21 * length numbers.now < length out.old }
    ensures { WritesLine (line word.now numbers.now) out.old result out.new }
{
    let at = put_word(out, word);
    put_rest(out, at, numbers)
}

// The numbers of a line, each after a space, and its newline, from a place on. Tells the place past them.
fn put_rest(out: &mut [u8], at: usize, numbers: &[u64]) -> usize
    requires { at + 21 * length numbers.now < length out.old }
    ensures value { (result ≡ at + length (rest numbers.now)) × (result ≤ length out.old) }
    ensures out_after { out.new ≡ sets out.old at (rest numbers.now) }
{
    let mut here = at;
    for &n in numbers {
        out[here] = b' ';
        here = put_number(out, here + 1, n);
    }
    out[here] = b'\n';
    here + 1
}

// A word, at the front. Tells the place past it.
fn put_word(out: &mut [u8], word: &[u8]) -> usize
    requires { length word.now ≤ length out.old }
    ensures value { result ≡ length word.now }
    ensures out_after { out.new ≡ sets out.old 0 word.now }
{
    let end = word.len();
    out[..end].copy_from_slice(word);
    end
}

// A number, from a place on. Tells the place past it.
fn put_number(out: &mut [u8], at: usize, n: u64) -> usize
    requires { at + 20 ≤ length out.old }
    ensures value { result ≡ at + length (decimal n) }
    ensures out_after { out.new ≡ sets out.old at (decimal n) }
{
    if n < 10 {
        out[at] = b'0' + n as u8;
        return at + 1;
    }
    let last = put_number(out, at, n / 10);
    out[last] = b'0' + (n % 10) as u8;
    last + 1
}
