// A page vector: what is read as a page, the fields that it is read as, and its listing.
use crate::compare::Comparison;
use crate::input;
use crate::input::Unread;
use logpage::{DebugLog, LogPage, Reading, Settings, Window};
use std::io::Read;

// The bytes of a reading's fields: reference/src/vectors.rs has their order.
const FIELDS: usize = 389;

// The settings in force, and the timer.
fn take_settings(fields: &mut Comparison, settings: Settings, timer: u16) {
    let words = [settings.timer_threshold, settings.mode, settings.trigger];
    fields.take(words.map(u16::to_le_bytes).as_flattened());
    fields.take(&settings.thresholds);
    fields.take(&[settings.minimum_window, u8::from(settings.enabled)]);
    fields.take(&timer.to_le_bytes());
}

// What a window shows, for each of the twelve counters.
fn take_window(fields: &mut Comparison, w: Window) {
    fields.take(w.counters.map(u32::to_le_bytes).as_flattened());
    fields.take(w.stamps.map(u64::to_le_bytes).as_flattened());
    fields.take(w.latencies.map(u16::to_le_bytes).as_flattened());
    fields.take(&w.units.map(u8::from));
}

// The debug log, whether one is held, and the number of its counter.
fn take_debug(fields: &mut Comparison, debug: DebugLog, held: bool, counter: u8) {
    fields.take(&debug.stamp.to_le_bytes());
    fields.take(&debug.latency.to_le_bytes());
    fields.take(&debug.source.to_le_bytes());
    fields.take(&[u8::from(debug.units), u8::from(held), counter]);
}

// Whether these are all fields of a reading.
fn shows(r: Reading, expected: &[u8; FIELDS]) -> bool {
    let p = r.page;
    let mut fields = Comparison::new(expected);
    take_settings(&mut fields, p.settings, p.timer);
    take_window(&mut fields, p.active_window);
    take_window(&mut fields, p.static_window);
    take_debug(&mut fields, p.debug, r.debug_held, r.debug_counter);
    fields.agrees()
}

// Whether a page is read as these fields, for 0, or refused by this number, where the fields are a new monitor's.
fn reads_as(page: &[u8], number: u8, expected: &[u8; FIELDS]) -> bool {
    LogPage::read(page).err().map_or(0, u8::from) == number
        && shows(LogPage::reading(page), expected)
}

// Whether a page is listed as this text.
fn lists_as(page: &[u8], expected: &[u8]) -> bool {
    text::page_listing(page).as_bytes() == expected
}

// The next page vector.
pub fn next(source: &mut impl Read) -> Result<bool, Unread> {
    let mut page = [[0]; input::LONGEST_LIST];
    let page = input::list::<2, _>(source, &mut page)?.as_flattened();
    let [number] = input::bytes::<1>(source)?;
    let expected = input::bytes(source)?;
    let mut lines = [[0]; 4096];
    let lines = input::list::<2, _>(source, &mut lines)?.as_flattened();
    Ok(reads_as(page, number, &expected) && lists_as(page, lines))
}
