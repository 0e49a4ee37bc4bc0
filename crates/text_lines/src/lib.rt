// The lines of a whole reading, from numbers in scratch: which match a line is, and where its text begins and ends.
#![tactic(auto)]

ghost use Rattle.std.specs.Prelude.{◌≡◌, [], ◌∷◌, ◌+◌, ◌*◌, ◌≤◌, length};
ghost use Rattle.std.proofs.lemmas.List.Edits.{sets};
ghost use Rattle.text_lines.specs.Text.{line_width};
ghost use Rattle.text_lines.specs.Flat.{lines_left};

pub const LINE_WIDTH: usize = 5;

// Puts the five numbers of line k in their place.
fn put_line(
    lines: &mut [u32],
    k: usize,
    element: u32,
    portion: u32,
    unit: u32,
    first: u32,
    past: u32,
)
    requires { line_width * k + line_width ≤ length lines.old }
    ensures { lines.new ≡ sets lines.old (line_width * k) (element ∷ portion ∷ unit ∷ first ∷ past ∷ []) }
{
    let at = LINE_WIDTH * k;
    lines[at..at + LINE_WIDTH].copy_from_slice(&[element, portion, unit, first, past]);
}

// Fills the lent lines: three numbers a match, and after all of these where each text ends. A text begins where the one before it ends, and the
// lines past them keep theirs.
pub fn fill_lines(numbers: &[u32], count: usize, lines: &mut [u32])
    requires { (4 * count ≤ length numbers.now) × (line_width * count ≤ length lines.old) }
    ensures { lines.new ≡ sets lines.old 0 (lines_left numbers.now count 0 count 0) }
{
    let mut first: u32 = 0;
    for k in 0..count {
        let past = numbers[3 * count + k];
        put_line(
            lines,
            k,
            numbers[3 * k],
            numbers[3 * k + 1],
            numbers[3 * k + 2],
            first,
            past,
        );
        first = past;
    }
}
