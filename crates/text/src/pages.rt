// The text of the page: page bytes 0 to 479, 16 a line (document 01, the page program).
ghost use Rattle.std.specs.Prelude.{◌≡◌, [], ◌∷◌, ◌++◌, ◌+◌, ◌<◌, ◌≤◌};
ghost use Rattle.arrayvec.specs.ArrayString.{array_string_len};
ghost use Rattle.text.specs.Pages.{hex_digit, hex_offset, hex_bytes, line, text_of};

use arrayvec::ArrayString;

// Bytes of the page in a line.
const ROW: usize = 16;

// Bytes 480 to 511 are not printed.
const LINES: usize = 30;

// Thirty lines of 38 bytes: three digits, colon, space, 32 digits, newline.
pub type Text = ArrayString<1140>;

// A hex digit, a capital from ten on, as its ASCII byte. By hand, since the kit's `hex` has small letters, and a caller
// of `write!` must reckon with an error.
#[tactic(auto, unfolding(crate::specs::Pages::hex_digit))]
fn hex_digit(d: u8) -> u8
    requires { d < 16 }
    ensures digit { result ≡ hex_digit d }
    ensures ascii { result < 128 }
{
    if d < 10 { b'0' + d } else { b'A' + (d - 10) }
}

// Appends a hex digit.
fn push_digit<const N: usize>(text: &mut ArrayString<N>, d: u8)
    requires digit { d < 16 }
    requires room { array_string_len text.old < N }
    ensures digit { text.new.bytes ≡ text.old.bytes ++ hex_digit d ∷ [] }
    ensures len { array_string_len text.new ≡ array_string_len text.old + 1 }
{
    text.push(char::from(hex_digit(d)));
}

// Appends the offset in three digits, colon and space.
#[tactic(auto, unfolding(crate::specs::Pages::hex_offset))]
fn push_offset<const N: usize>(text: &mut ArrayString<N>, offset: usize)
    requires { array_string_len text.old + 5 ≤ N }
    ensures offset { text.new.bytes ≡ text.old.bytes ++ hex_offset offset }
    ensures len { array_string_len text.new ≡ array_string_len text.old + 5 }
{
    push_digit(text, (offset / 256 % 16) as u8);
    push_digit(text, (offset / 16 % 16) as u8);
    push_digit(text, (offset % 16) as u8);
    text.push_str(": ");
}

// Appends each byte in two digits.
#[tactic(auto, using(crate::proofs::pages::Laws::bytes_steps))]
fn push_bytes<const N: usize>(text: &mut ArrayString<N>, row: &[u8; ROW])
    requires { array_string_len text.old + 32 ≤ N }
    ensures digits { text.new.bytes ≡ text.old.bytes ++ hex_bytes row.now }
    ensures len { array_string_len text.new ≡ array_string_len text.old + 32 }
{
    for byte in row {
        push_digit(text, byte / 16);
        push_digit(text, byte % 16);
    }
}

// Appends the line of a row, which begins at an offset.
#[tactic(auto, unfolding(crate::specs::Pages::line))]
fn push_line<const N: usize>(text: &mut ArrayString<N>, offset: usize, row: &[u8; ROW])
    requires { array_string_len text.old + 38 ≤ N }
    ensures line { text.new.bytes ≡ text.old.bytes ++ line offset row.now }
    ensures len { array_string_len text.new ≡ array_string_len text.old + 38 }
{
    push_offset(text, offset);
    push_bytes(text, row);
    text.push('\n');
}

// The text of the page. A row of zeros has no line.
#[tactic(auto, using(crate::proofs::pages::Laws::rows_steps), unfolding(crate::specs::Pages::lines, crate::specs::Pages::text_of))]
pub fn page_text(page: &[u8; 512]) -> Text
    ensures { result.bytes ≡ text_of page.now }
{
    let mut text = Text::new();
    let (rows, _) = page.as_chunks::<ROW>();
    for (n, row) in rows[..LINES].iter().enumerate() {
        if endian::any_set(row) {
            push_line(&mut text, ROW * n, row);
        }
    }
    text
}
