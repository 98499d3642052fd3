// An event file in blocks, as the page program takes it, with the lines of what is refused.
use crate::compare::Comparison;
use monitor::Monitor;
use records::RECORD;
use text::LINE;

// The records of a block, and the room for the lines of so many.
const BLOCK: usize = 1024;

const LINES: usize = LINE * BLOCK;

// The monitor so far, and the lines that it has told, held against the expected ones.
#[derive(Clone, Copy)]
pub struct Told<'a> {
    pub monitor: Monitor,
    pub lines: Comparison<'a>,
}

// The records of a file from one number up to another; none, where the file has not so many.
fn part(file: &[u8], from: usize, to: usize) -> &[u8] {
    let from = from.saturating_mul(RECORD);
    let to = to.saturating_mul(RECORD);
    file.get(from..to).unwrap_or(&[])
}

impl Told<'_> {
    // A block of records, whose first has this number.
    fn block(&mut self, s: &[u8], first: usize) {
        let mut lines = [0; LINES];
        let block = events::replay_block(self.monitor, s, first as u64, &mut lines);
        self.monitor = block.monitor;
        self.lines.take(&lines[..block.len]);
    }

    // The records of a file from one number up to another.
    pub fn records(&mut self, file: &[u8], from: usize, to: usize) {
        for i in (from..to).step_by(BLOCK) {
            let end = to.min(i.saturating_add(BLOCK));
            self.block(part(file, i, end), i);
        }
    }

    // The end of a file of n bytes: what is left over.
    pub fn end(&mut self, n: usize) {
        let line = events::end_line((n / RECORD) as u64, n);
        self.lines.take(line.as_bytes());
    }
}
