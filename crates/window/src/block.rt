// The block of a window on log page C3h: 186 bytes, the same for either window.
ghost use Rattle.std.specs.Prelude.{ℕ, cond, ◌≡◌, ◌+◌, ◌-◌, ◌*◌, [], ◌∷◌, ◌<◌, ◌≤◌, eqb, length};
ghost use Rattle.std.proofs.lemmas.List.Edits.{sets};
ghost use Rattle.window.specs.Block.{stamp_place, latency_place, buckets, downward, column, bits, block_bytes};

use crate::fields::Window;

// Where each counter has its latency stamp in the block, by the counter's number.
const STAMPS_AT: [usize; 12] = [152, 144, 136, 128, 120, 112, 104, 96, 88, 80, 72, 64];

// The bytes of a block.
pub(crate) const LENGTH: usize = 186;

// The widths of a block's fields: for the writer and the reader.
pub(crate) const COUNTER: usize = 4;

pub(crate) const STAMP: usize = 8;

pub(crate) const LATENCY: usize = 2;

// A bucket's fields: reserved, Deallocate, Write, Read.
const BUCKET_WIDTHS: [usize; 4] = [COUNTER; 4];

// That there are twelve counters stands as a `requires` wherever an array of twelve is indexed: a type for it would be
// built and proved at each call.
pub(crate) fn stamp_place(n: usize) -> usize
    requires { n < 12 }
    ensures { result ≡ stamp_place n }
{
    STAMPS_AT[n]
}

// The stamps start at 64, and at 160 the measured latencies: in the same order, and a quarter as wide.
pub(crate) fn latency_place(n: usize) -> usize
    requires { n < 12 }
    ensures { result ≡ latency_place n }
{
    160 + (stamp_place(n) - 64) / 4
}

// The three counters of a bucket, into its 16 bytes.
fn put_bucket(bucket: &mut [u8], deallocate: u32, write: u32, read: u32)
    requires { length bucket.old ≡ 16 }
    ensures { bucket.new ≡ column 4 (0 ∷ deallocate ∷ write ∷ read ∷ []) }
{
    let values = [0, u64::from(deallocate), u64::from(write), u64::from(read)];
    endian::put_fields(bucket, &BUCKET_WIDTHS, &values);
}

// By index: nothing is known to the check of what the parts of a lent slice end as.
fn put_counters(block: &mut [u8], counters: [u32; 12])
    requires { 64 ≤ length block.old }
    ensures { block.new ≡ sets block.old 0 (column 4 (buckets counters 4)) }
{
    for b in 0..4 {
        let n = 3 * b;
        let at = 16 * b;
        put_bucket(
            &mut block[at..at + 16],
            counters[n + 2],
            counters[n + 1],
            counters[n],
        );
    }
}

// The values of the twelve counters, each of this width and at its place: from `start` on, counter 11 first. By index,
// which the place is asked of.
fn put_each<P: Fn(usize) -> usize>(block: &mut [u8], place: P, width: usize, values: [u64; 12])
    ghost start: { ℕ }
    requires callable { (n : ℕ) → n < 12 → P.pre place n }
    requires downward { (n at : ℕ) → n < 12 → P.post place n at → at ≡ start + width * (11 - n) }
    requires room { start + width * 12 ≤ length block.old }
    ensures { block.new ≡ sets block.old start (column width (downward values 12)) }
{
    for n in (0..12).rev() {
        let at = place(n);
        endian::put(&mut block[at..at + width], values[n]);
    }
}

// The stamp units as a number: bit n for counter n.
fn unit_bits(units: [bool; 12]) -> u64
    ensures { result ≡ bits units }
{
    let mut mask = 0;
    for (n, unit) in units.iter().enumerate() {
        mask += u64::from(*unit) << n;
    }
    mask
}

// Fills a block, whatever it held. A slice of 186 bytes and no array, here and in the reader: parts of a page are lent.
fn fill(block: &mut [u8], w: Window)
    requires { length block.old ≡ 186 }
    ensures { block.new ≡ block_bytes w }
{
    put_counters(block, w.counters);
    put_each(block, stamp_place, STAMP, w.stamps);
    put_each(block, latency_place, LATENCY, w.latencies.map(u64::from));
    endian::put(&mut block[184..186], unit_bits(w.units));
}

// Writes a window into bytes, however many: all of them where they are a block's, else none.
pub fn write_block(block: &mut [u8], w: Window)
    ensures { block.new ≡ cond (eqb (length block.old) 186) (block_bytes w) block.old }
{
    if block.len() == LENGTH {
        fill(block, w);
    }
}
