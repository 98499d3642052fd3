// One vector of the file: its call, event file, questions or page given to the product, and the answers compared.
ghost use Rattle.std.specs.Prelude.{◌<◌, ◌^◌};

use crate::input::{Expected, Unread};
use crate::play::Events;
use crate::{compare, input, pages, play, reasons};
use monitor::{Monitor, Refusal, WindowChoice};
use std::io::Read;

// The bytes of a patch: a place, and what is put there.
const PATCH: usize = 3;

// What a vector is of.
#[derive(Clone, Copy)]
pub enum Kind {
    Events,
    Settings,
    Pages,
    Reasons,
}

impl From<&[u8]> for Kind {
    // What the vectors of a group are of: its name says so.
    fn from(name: &[u8]) -> Kind {
        if name.starts_with(b"settings") {
            Kind::Settings
        } else if name.starts_with(b"pages") {
            Kind::Pages
        } else if name.starts_with(b"reasons") {
            Kind::Reasons
        } else {
            Kind::Events
        }
    }
}

// Whether a call of either monitor does as expected with the buffer of the vector.
fn fills<const N: usize, F: Fn(Monitor, &mut [u8]) -> Result<(), Refusal>>(
    source: &mut impl Read,
    monitors: &[Monitor; 2],
    call: F,
) -> Result<bool, Unread>
    requires fits { N < 2 ^ 63 }
    requires callable { F.IsAlwaysCallable call }
{
    let n = input::number::<2>(source)?;
    let expected = input::expected::<N>(source)?;
    let mut agrees = true;
    for m in monitors {
        agrees &= compare::fills(|s| call(*m, s), n, &expected);
    }
    Ok(agrees)
}

// Whether a window of either monitor has the counts below A of the vector.
fn below_a(
    source: &mut impl Read,
    monitors: &[Monitor; 2],
    window: WindowChoice,
) -> Result<bool, Unread> {
    let expected = input::bytes(source)?;
    Ok(
        monitors
            .iter()
            .all(|m| compare::below_a(*m, window, &expected)),
    )
}

// An event vector.
fn events(source: &mut impl Read) -> Result<bool, Unread> {
    let mut file = [[0]; input::LONGEST_FILE];
    let mut presets = [[0; play::PRESET]; 255];
    let mut answers = [[0; play::ANSWER]; input::LONGEST_LIST / play::ANSWER];
    let mut lines = [[0]; input::LONGEST_LIST];
    let played = Events {
        file: input::list::<4, _>(source, &mut file)?.as_flattened(),
        presets: input::list::<1, _>(source, &mut presets)?,
    };
    let answers = input::list::<2, _>(source, &mut answers)?;
    // No monitor tells the line that stands for lines that do not fit.
    let lines = input::list::<4, _>(source, &mut lines).unwrap_or(&[[b'?']]);
    let by_records = played.by_records(answers);
    let by_blocks = played.by_blocks(lines.as_flattened());
    let monitors = [by_records.monitor, by_blocks.monitor];
    let page = fills::<512, _>(source, &monitors, |m, s| m.page(s))?;
    let back = fills::<13, _>(source, &monitors, |m, s| m.settings_back(s))?;
    let active = below_a(source, &monitors, WindowChoice::Active)?;
    let last = below_a(source, &monitors, WindowChoice::Static)?;
    Ok(by_records.agrees && by_blocks.agrees && page && back && active && last)
}

// Puts bytes into settings, each at its place. Whether all places were there.
fn patch(s: &mut [u8], patches: &[[u8; PATCH]]) -> bool {
    for [low, high, byte] in patches {
        match s.get_mut(usize::from(u16::from_le_bytes([*low, *high]))) {
            Some(place) => *place = *byte,
            None => return false,
        }
    }
    true
}

// Whether settings that are given to a new monitor are refused as expected, or given back by it.
fn configures(s: &[u8], expected: &Expected<13>) -> bool {
    let o = Monitor::new().configure(s);
    match o.answer {
        Ok(()) => compare::fills(|s| o.next.settings_back(s), 4096, expected),
        Err(refusal) => *expected == Err(u8::from(refusal)),
    }
}

// A settings vector: settings that are zero but for the patches.
fn settings(source: &mut impl Read) -> Result<bool, Unread> {
    let n = input::number::<2>(source)?;
    let mut patches = [[0; PATCH]; 255];
    let patches = input::list::<1, _>(source, &mut patches)?;
    let expected = input::expected(source)?;
    let mut s = [0; compare::LONGEST];
    Ok(match s.get_mut(..n) {
        Some(s) => patch(s, patches) && configures(s, &expected),
        None => false,
    })
}

// Whether the next vector agrees.
pub fn next(source: &mut impl Read, kind: Kind) -> Result<bool, Unread> {
    match kind {
        Kind::Events => events(source),
        Kind::Settings => settings(source),
        Kind::Pages => pages::next(source),
        Kind::Reasons => reasons::next(source),
    }
}
