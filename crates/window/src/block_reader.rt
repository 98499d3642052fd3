// A window read back from its block, and the rules that a block keeps (document 02, Ticket 1).
ghost use Rattle.std.specs.Prelude.{◌≡◌, ◌+◌, ◌^◌, ◌<◌, ◌≤◌, length};
ghost use Rattle.endian.specs.Loads.{number, part};
ghost use Rattle.window.specs.Block.{flags, counter_place, stamp_place, latency_place};
ghost use Rattle.window.specs.BlockReader.{window_in, counter_fits, window_fits, block_keeps, block_fits};

use crate::block;
use crate::fields::{UNSET, Window};
use std::array;

// A stamp that is set is a clock, below 2^48.
pub const CLOCK_END: u64 = 281_474_976_710_656;

// A mask has no bit beyond those of the twelve counters.
pub const MASK_END: u64 = 4096;

// The counters of a bucket stand behind its first four bytes, Read last.
fn counter_place(n: usize) -> usize
    requires { n < 12 }
    ensures { result ≡ counter_place n }
{
    16 * (n / 3) + 4 * (3 - n % 3)
}

// The number that a field's bytes make.
fn field(block: &[u8], at: usize, width: usize) -> u64
    requires narrow { width ≤ 8 }
    requires room { at + width ≤ length block.now }
    ensures value { result ≡ number (part at width block.now) }
    ensures fits { result < 256 ^ width }
{
    endian::load(&block[at..at + width])
}

// The stamp units of a mask: bit n for counter n.
fn units_in(mask: u64) -> [bool; 12]
    ensures { result ≡ flags 12 mask }
{
    array::from_fn(|n| (mask >> n) % 2 == 1)
}

// The window that a block shows.
pub fn read_block(block: &[u8]) -> Window
    requires { length block.now ≡ 186 }
    ensures { result ≡ window_in block.now }
{
    Window::of(
        array::from_fn(|n| field(block, counter_place(n), block::COUNTER) as u32),
        array::from_fn(|n| field(block, block::stamp_place(n), block::STAMP)),
        array::from_fn(|n| field(block, block::latency_place(n), block::LATENCY) as u16),
        units_in(field(block, 184, 2)),
    )
}

// Without a branch: which stamps are set differs from page to page.
#[tactic(auto, unfolding(crate::specs::BlockReader::counter_fits))]
fn counter_fits(counter: u32, stamp: u64, latency: u16, unit: bool) -> bool
    ensures { result ≡ counter_fits counter stamp latency unit }
{
    (stamp < CLOCK_END) | ((stamp == UNSET) & (counter == 0) & (latency == 0) & !unit)
}

// By index, over four arrays at once.
fn window_fits(w: Window) -> bool
    ensures { result ≡ window_fits w }
{
    let mut fits = true;
    for n in 0..12 {
        fits &= counter_fits(w.counters[n], w.stamps[n], w.latencies[n], w.units[n]);
    }
    fits
}

// Whether a block keeps the rules, of which the window was read.
pub fn keeps(block: &[u8], w: Window) -> bool
    requires { length block.now ≡ 186 }
    ensures { result ≡ block_keeps block.now w }
{
    !endian::any_set(&block[0..4])
        & !endian::any_set(&block[16..20])
        & !endian::any_set(&block[32..36])
        & !endian::any_set(&block[48..52])
        & (field(block, 184, 2) < MASK_END)
        & window_fits(w)
}

// Whether bytes, however many, are a block that keeps the rules.
#[tactic(auto, unfolding(crate::specs::BlockReader::block_fits))]
pub fn block_fits(block: &[u8]) -> bool
    ensures { result ≡ block_fits block.now }
{
    block.len() == block::LENGTH && keeps(block, read_block(block))
}
