// Blocks of an event file: what their records leave of a monitor, and the lines of those that are refused.
ghost use Rattle.std.specs.Prelude.{◌≡◌, ◌+◌, ◌*◌, ◌≤◌, [], ◌∷◌, length};
ghost use Rattle.refusals.specs.Refusals.{number_of};
ghost use Rattle.text.specs.Lines.{refused_line};
ghost use Rattle.events.specs.Files.{whole_records};
ghost use Rattle.events.specs.Blocks.{Stored, BlockLeaves, with_room, end_line};

use crate::files;
use monitor::{Monitor, Refusal};
use text::{LINE, Line};

// What a block leaves: the monitor, and the lines of refused records in the first `len` bytes of the output. The output
// may have any length, which an `ArrayString` would fix, and the contract says what all of it holds, which it could not
// of a part that is lent back.
#[derive(Clone, Copy)]
pub struct Block {
    pub monitor: Monitor,
    pub len: usize,
}

// The line of a refused record.
fn line(index: u64, refusal: Refusal) -> Line
    ensures { result.bytes ≡ refused_line (index ∷ number_of refusal ∷ []) }
{
    text::refused_record(index, u64::from(u8::from(refusal)))
}

// Stores the line of a refused record, and says how many bytes it took.
fn put_line(out: &mut [u8], at: usize, index: u64, refusal: Refusal) -> usize
    requires { at + 50 ≤ length out.old }
    ensures { Stored (refused_line (index ∷ number_of refusal ∷ [])) at 50 out.old out.new result }
{
    let line = line(index, refusal);
    let bytes = line.as_str().as_bytes();
    let n = bytes.len();
    out[at..at + n].copy_from_slice(bytes);
    n
}

// The records of a block, whose lines have room. A turn goes on behind the record that a run stopped at.
fn replay_lines(m: Monitor, s: &[u8], first: u64, out: &mut [u8]) -> Block
    requires { 50 * whole_records s.now ≤ length out.old }
    ensures { BlockLeaves m s.now first out.old out.new result }
{
    let mut monitor = m;
    let mut len = 0;
    let mut i = 0;
    loop {
        let from = records::RECORD * i;
        let stop = files::run(monitor, &s[from..]);
        monitor = stop.monitor;
        let Some(refused) = stop.refused else {
            return Block { monitor, len };
        };
        i += refused.index;
        let record = first.wrapping_add(i as u64);
        len += put_line(out, len, record, refused.refusal);
        i += 1;
    }
}

// A block of whole records, the first of which has the number `first`: as much of it as the output has room for, 50
// bytes a record.
pub fn replay_block(m: Monitor, s: &[u8], first: u64, out: &mut [u8]) -> Block
    ensures { BlockLeaves m (with_room s.now out.old) first out.old out.new result }
{
    let room = records::RECORD * (out.len() / LINE);
    replay_lines(m, &s[..room.min(s.len())], first, out)
}

// The line of bytes that are left over behind so many records, at the end of a last block of n bytes.
pub fn end_line(records: u64, n: usize) -> Line
    ensures { result.bytes ≡ end_line records n }
{
    match files::left_over(n) {
        Ok(()) => text::no_line(),
        Err(refusal) => line(records, refusal),
    }
}
