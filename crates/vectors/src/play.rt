// An event file, played on a new monitor in two ways: block by block, and record by record. The lines of the one and
// the answers of the other are held against the expected ones.
use crate::blocks::Told;
use crate::compare;
use crate::compare::Comparison;
use events::RecordAnswer;
use monitor::Monitor;
use records::RECORD;

// The bytes of a preset, and of an expected answer.
pub const PRESET: usize = 9;

pub const ANSWER: usize = 2;

// A preset: just before a record is read, a counter of the active window is set to a value. 12 to 14 are the counts
// below A.
#[derive(Clone, Copy)]
struct Preset {
    counter: usize,
    value: u32,
    before: usize,
}

impl From<&[u8; PRESET]> for Preset {
    fn from(bytes: &[u8; PRESET]) -> Preset {
        let [counter, v0, v1, v2, v3, b0, b1, b2, b3] = *bytes;
        Preset {
            counter: usize::from(counter),
            value: u32::from_le_bytes([v0, v1, v2, v3]),
            before: u32::from_le_bytes([b0, b1, b2, b3]) as usize,
        }
    }
}

impl Preset {
    // The monitor with the counter set.
    fn set(self, mut m: Monitor) -> Monitor {
        if let Some(count) = m.active_window.counters.get_mut(self.counter) {
            *count = self.value;
        } else if let Some(count) = m.active_below_a.get_mut(self.counter - 12) {
            *count = self.value;
        }
        m
    }
}

// An event file, and its presets.
#[derive(Clone, Copy)]
pub struct Events<'a> {
    pub file: &'a [u8],
    pub presets: &'a [[u8; PRESET]],
}

// What a file leaves of a new monitor, and whether it was told or answered what was expected: both, since the monitor is
// compared further where it was not.
#[derive(Clone, Copy)]
pub struct Played {
    pub monitor: Monitor,
    pub agrees: bool,
}

impl Events<'_> {
    // The whole file by blocks, in parts where presets stand between them.
    pub fn by_blocks(self, lines: &[u8]) -> Played {
        let mut told = Told {
            monitor: Monitor::new(),
            lines: Comparison::new(lines),
        };
        let mut from = 0;
        for preset in self.presets.iter().map(Preset::from) {
            told.records(self.file, from, preset.before);
            told.monitor = preset.set(told.monitor);
            from = preset.before;
        }
        told.records(self.file, from, self.file.len() / RECORD);
        told.end(self.file.len());
        Played {
            monitor: told.monitor,
            agrees: told.lines.agrees(),
        }
    }

    // The monitor with the presets that stand before a record.
    fn before(self, m: Monitor, i: usize) -> Monitor {
        self.presets
            .iter()
            .map(Preset::from)
            .filter(|preset| preset.before == i)
            .fold(m, |m, preset| preset.set(m))
    }

    // The records one by one, and the end of the file.
    pub fn by_records(self, answers: &[[u8; ANSWER]]) -> Played {
        let mut expected = answers
            .iter()
            .map(|code| u32::from(u16::from_le_bytes(*code)));
        let mut monitor = Monitor::new();
        let mut agrees = true;
        for (i, record) in self.file.chunks_exact(RECORD).enumerate() {
            let o = events::apply(self.before(monitor, i), record);
            monitor = o.next;
            agrees &= expected.next() == Some(compare::coded(o.answer));
        }
        let at_end = events::left_over(self.file.len()).map(|()| RecordAnswer::Done);
        agrees &= expected.next() == Some(compare::coded(at_end));
        Played { monitor, agrees }
    }
}
