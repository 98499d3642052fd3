// Log page C3h read back (document 02, Ticket 1): what it shows, or why it is turned away.
ghost use Rattle.std.specs.Prelude.{◌≡◌, ◌<◌, ◌^◌, length};
ghost use Rattle.endian.specs.Loads.{values_at};
ghost use Rattle.refusals.specs.Refusals.{refusal_in};
ghost use Rattle.logpage.specs.Page.{head_widths, tail_widths};
ghost use Rattle.logpage.specs.Reader.{head_in, tail_in, identity_in, identified, Bounded, settings_from, debug_from};
ghost use Rattle.logpage.specs.Reader.{debug_counter_of, shown, no_reading, head_fits, tail_fits, debug_fits, page_keeps};
ghost use Rattle.logpage.specs.Reader.{layout_refusal, reading_in, reading_after, read_refusal, reading_of};

use crate::fields::{DebugLog, Settings};
use crate::page;
use crate::page::LogPage;
use refusals::Refusal;
use window::{UNSET, Window, block_reader};

// What a page shows. The page has the debug log's counter as one set bit; its number stands beside, 0 where none is
// held: a struct of the C header, which has no Option.
#[repr(C)]
#[derive(Clone, Copy)]
pub struct Reading {
    pub page: LogPage,
    pub debug_held: bool,
    pub debug_counter: u8,
}

impl Reading {
    // What a new monitor's page shows.
    pub fn none() -> Self
        ensures { result ≡ no_reading }
    {
        let settings = Settings::none();
        let active_window = Window::empty();
        let static_window = Window::empty();
        let debug = DebugLog::none();
        let page = LogPage {
            settings,
            timer: 0,
            active_window,
            static_window,
            debug,
        };
        Reading {
            page,
            debug_held: false,
            debug_counter: 0,
        }
    }
}

// The values of bytes 0 to 12, none with more bytes than its field.
#[derive(Clone, Copy)]
struct Head {
    values: [u64; 10],
    ghost bounded: { Bounded head_widths values },
}

// The values of bytes 448 to 464, likewise; a type of its own, since the widths are others.
#[derive(Clone, Copy)]
struct Tail {
    values: [u64; 6],
    ghost bounded: { Bounded tail_widths values },
}

// The values of a part's fields, by their widths.
fn values<const N: usize>(part: &[u8], widths: &[usize; N]) -> [u64; N]
    requires { N < 2 ^ 60 }
    ensures { result ≡ values_at 0 widths.now part.now }
{
    let mut values = [0; N];
    endian::load_fields(part, widths, &mut values);
    values
}

fn head_in(page: &[u8; 512]) -> Head
    ensures { result.values ≡ head_in page.now }
{
    Head {
        values: values(&page[0..13], &page::HEAD_WIDTHS),
    }
}

fn tail_in(page: &[u8; 512]) -> Tail
    ensures { result.values ≡ tail_in page.now }
{
    Tail {
        values: values(&page[448..465], &page::TAIL_WIDTHS),
    }
}

// Whether version and GUID are the page's.
fn identified(page: &[u8; 512]) -> bool
    ensures { result ≡ identified page.now }
{
    let found = values(&page[494..512], &page::IDENTITY_WIDTHS);
    let identity = page::IDENTITY;
    (found[0] == identity[0]) & (found[1] == identity[1]) & (found[2] == identity[2])
}

fn settings_from(head: Head, tail: Tail) -> Settings
    ensures { result ≡ settings_from head.values tail.values }
{
    let head = head.values;
    let tail = tail.values;
    let thresholds = [head[4] as u8, head[5] as u8, head[6] as u8, head[7] as u8];
    Settings {
        timer_threshold: head[3] as u16,
        mode: head[8] as u16,
        trigger: tail[0] as u16,
        thresholds,
        minimum_window: head[9] as u8,
        enabled: head[0] == 1,
    }
}

fn debug_from(tail: Tail) -> DebugLog
    ensures { result ≡ debug_from tail.values }
{
    let tail = tail.values;
    DebugLog {
        stamp: tail[2],
        latency: tail[1] as u16,
        source: tail[4] as u16,
        units: tail[5] == 1,
    }
}

fn debug_fits(d: DebugLog) -> bool
    ensures { result ≡ debug_fits d }
{
    if d.stamp == UNSET {
        (d.latency == 0) & (d.source == 0) & !d.units
    } else {
        (d.stamp < block_reader::CLOCK_END)
            & (d.source.count_ones() == 1)
            & (u64::from(d.source) < block_reader::MASK_END)
    }
}

// The number of the debug log's counter, 0 where none is held.
fn debug_counter(d: DebugLog) -> u8
    ensures { result ≡ debug_counter_of d }
{
    if d.stamp == UNSET {
        0
    } else {
        d.source.trailing_zeros() as u8
    }
}

impl From<LogPage> for Reading {
    ghost from_gives = { λ page reading. reading ≡ shown page };

    fn from(page: LogPage) -> Reading {
        let debug = page.debug;
        Reading {
            page,
            debug_held: debug.stamp != UNSET,
            debug_counter: debug_counter(debug),
        }
    }
}

fn head_fits(head: Head) -> bool
    ensures { result ≡ head_fits head.values }
{
    let head = head.values;
    (head[0] < 2) & (head[1] == 0) & (head[8] < block_reader::MASK_END)
}

fn tail_fits(tail: Tail) -> bool
    ensures { result ≡ tail_fits tail.values }
{
    let values = tail.values;
    (values[0] < block_reader::MASK_END)
        & (values[3] == 0)
        & (values[5] < 2)
        & debug_fits(debug_from(tail))
}

// Whether the layout's rules are kept, where the page's values and windows were read.
fn keeps(
    page: &[u8; 512],
    head: Head,
    tail: Tail,
    active_window: Window,
    static_window: Window,
) -> bool
    ensures { result ≡ page_keeps page.now head.values tail.values active_window static_window }
{
    block_reader::keeps(&page[32..218], active_window)
        & block_reader::keeps(&page[240..426], static_window)
        & head_fits(head)
        & tail_fits(tail)
        & !endian::any_set(&page[13..32])
        & !endian::any_set(&page[218..240])
        & !endian::any_set(&page[426..448])
        & !endian::any_set(&page[465..494])
}

// A page with the right version and GUID.
fn read_identified(page: &[u8; 512]) -> Result<Reading, Refusal>
    ensures answer { refusal_in result ≡ layout_refusal page.now }
    ensures reading { reading_in result ≡ reading_after (layout_refusal page.now) page.now }
{
    let head = head_in(page);
    let tail = tail_in(page);
    let active_window = block_reader::read_block(&page[32..218]);
    let static_window = block_reader::read_block(&page[240..426]);
    if keeps(page, head, tail, active_window, static_window) {
        let settings = settings_from(head, tail);
        let debug = debug_from(tail);
        let timer = head.values[2] as u16;
        let fields = LogPage {
            settings,
            timer,
            active_window,
            static_window,
            debug,
        };
        Ok(Reading::from(fields))
    } else {
        Err(Refusal::ReadLayout)
    }
}

impl LogPage {
    // Reads a page back.
    pub fn read(page: &[u8]) -> Result<Reading, Refusal>
        ensures answer { refusal_in result ≡ read_refusal page.now }
        ensures reading { reading_in result ≡ reading_of page.now }
    {
        let Ok(page) = <&[u8; 512]>::try_from(page) else {
            return Err(Refusal::ReadLength);
        };
        if identified(page) {
            read_identified(page)
        } else {
            Err(Refusal::ReadIdentity)
        }
    }

    // What a page shows; of one that is turned away, what a new monitor's page does.
    pub fn reading(page: &[u8]) -> Reading
        ensures { result ≡ reading_of page.now }
    {
        LogPage::read(page).unwrap_or(Reading::none())
    }
}
