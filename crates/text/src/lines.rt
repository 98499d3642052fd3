// Lines, as the programs print them: of what is refused (document 01, The page program), and a number alone.
ghost use Rattle.std.specs.Prelude.{◌≡◌, [], ◌∷◌, ◌++◌, ◌+◌, ◌*◌, ◌≤◌, length};
ghost use Rattle.arrayvec.specs.ArrayString.{array_string_len};
ghost use Rattle.text.specs.Lines.{decimal, spaced, refused_line, number_line};

use arrayvec::ArrayString;
use itoa::Buffer;

// The room of a line: `refused`, two numbers of at most 20 digits, each behind a space, and newline.
pub const LINE: usize = 50;

pub type Line = ArrayString<LINE>;

// Appends a number in decimal. `write!` would do it too, but its caller must reckon with an error.
#[tactic(auto, using(crate::proofs::lines::Laws::as_printed))]
pub(crate) fn push_decimal<const N: usize>(text: &mut ArrayString<N>, n: u64)
    requires { array_string_len text.old + 20 ≤ N }
    ensures digits { text.new.bytes ≡ text.old.bytes ++ decimal n }
    ensures len { array_string_len text.new ≤ array_string_len text.old + 20 }
{
    text.push_str(Buffer::new().format(n));
}

// Appends a space and a number.
fn push_number<const N: usize>(text: &mut ArrayString<N>, n: u64)
    requires { array_string_len text.old + 21 ≤ N }
    ensures number { text.new.bytes ≡ text.old.bytes ++ 32 ∷ decimal n }
    ensures len { array_string_len text.new ≤ array_string_len text.old + 21 }
{
    text.push(' ');
    push_decimal(text, n);
}

// Appends each number behind a space.
#[tactic(auto, using(crate::proofs::lines::Laws::numbers_steps))]
pub(crate) fn push_numbers<const N: usize>(text: &mut ArrayString<N>, numbers: &[u64])
    requires { array_string_len text.old + 21 * length numbers.now ≤ N }
    ensures numbers { text.new.bytes ≡ text.old.bytes ++ spaced numbers.now }
    ensures len { array_string_len text.new ≤ array_string_len text.old + 21 * length numbers.now }
{
    for n in numbers {
        push_number(text, *n);
    }
}

// The refused line with these numbers.
#[tactic(auto, unfolding(crate::specs::Lines::refused_line, crate::specs::Lines::refused_word))]
pub(crate) fn refused<const N: usize>(numbers: &[u64]) -> ArrayString<N>
    requires { 8 + 21 * length numbers.now ≤ N }
    ensures { result.bytes ≡ refused_line numbers.now }
{
    let mut line = ArrayString::new();
    line.push_str("refused");
    push_numbers(&mut line, numbers);
    line.push('\n');
    line
}

// The refused line of a record: its number, and the refusal, of which any number has a line.
pub fn refused_record(index: u64, refusal: u64) -> Line
    ensures { result.bytes ≡ refused_line (index ∷ refusal ∷ []) }
{
    refused(&[index, refusal])
}

// The refused line of an input: the refusal alone.
pub fn refused_line(refusal: u64) -> Line
    ensures { result.bytes ≡ refused_line (refusal ∷ []) }
{
    refused(&[refusal])
}

// A number alone on a line.
#[tactic(auto, unfolding(crate::specs::Lines::number_line))]
pub fn number_line(n: u64) -> Line
    ensures { result.bytes ≡ number_line n }
{
    let mut line = Line::new();
    push_decimal(&mut line, n);
    line.push('\n');
    line
}

// No line at all.
pub fn no_line() -> Line
    ensures { result.bytes ≡ [] }
{
    Line::new()
}
