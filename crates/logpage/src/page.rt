// Log page C3h, written in the order of its bytes.
ghost use Rattle.std.specs.Prelude.{cond, ◌≡◌, eqb, length, Some, None};
ghost use Rattle.std.proofs.lemmas.List.Edits.{sets};
ghost use Rattle.refusals.specs.Refusals.{refusal_in};
ghost use Rattle.logpage.specs.Page.{head_bytes, windows_bytes, tail_bytes, page_bytes};

use crate::fields::{DebugLog, Settings};
use refusals::Refusal;
use window::{Window, block};

// The fields of bytes 0 to 12, of 448 to 464, and of 494 to 511, by their widths: for the writer and the reader.
pub(crate) const HEAD_WIDTHS: [usize; 10] = [1, 1, 2, 2, 1, 1, 1, 1, 2, 1];

pub(crate) const TAIL_WIDTHS: [usize; 6] = [2, 2, 8, 2, 2, 1];

pub(crate) const IDENTITY_WIDTHS: [usize; 3] = [2, 8, 8];

// Log Page Version, and Log Page GUID in two halves.
pub(crate) const IDENTITY: [u64; 3] = [0x0004, 0x9C6C_84D0_8CC0_7A92, 0x85D4_5E58_D4E6_4370];

// What log page C3h shows.
#[repr(C)]
#[derive(Clone, Copy)]
pub struct LogPage {
    pub settings: Settings,
    // Active Bucket Timer (document 01: steps).
    pub timer: u16,
    pub active_window: Window,
    pub static_window: Window,
    pub debug: DebugLog,
}

// The parts of the page are filled in slices and no arrays: of a lent slice that is taken as an array the check does not
// know what it ends as.

// Bytes 0 to 31.
fn write_head(page: &mut [u8], settings: Settings, timer: u16)
    requires { length page.old ≡ 512 }
    ensures { page.new ≡ sets page.old 0 (head_bytes settings timer) }
{
    let thresholds = settings.thresholds;
    let values = [
        settings.enabled as u64,
        0,
        timer as u64,
        settings.timer_threshold as u64,
        thresholds[0] as u64,
        thresholds[1] as u64,
        thresholds[2] as u64,
        thresholds[3] as u64,
        settings.mode as u64,
        settings.minimum_window as u64,
    ];
    endian::put_fields(&mut page[0..13], &HEAD_WIDTHS, &values);
    endian::put(&mut page[13..32], 0);
}

// Bytes 32 to 447.
fn write_windows(page: &mut [u8], active_window: Window, static_window: Window)
    requires { length page.old ≡ 512 }
    ensures { page.new ≡ sets page.old 32 (windows_bytes active_window static_window) }
{
    block::write_block(&mut page[32..218], active_window);
    endian::put(&mut page[218..240], 0);
    block::write_block(&mut page[240..426], static_window);
    endian::put(&mut page[426..448], 0);
}

// Bytes 448 to 511.
fn write_tail(page: &mut [u8], trigger: u16, debug: DebugLog)
    requires { length page.old ≡ 512 }
    ensures { page.new ≡ sets page.old 448 (tail_bytes trigger debug) }
{
    let values = [
        trigger as u64,
        debug.latency as u64,
        debug.stamp,
        0,
        debug.source as u64,
        debug.units as u64,
    ];
    endian::put_fields(&mut page[448..465], &TAIL_WIDTHS, &values);
    endian::put(&mut page[465..494], 0);
    endian::put_fields(&mut page[494..512], &IDENTITY_WIDTHS, &IDENTITY);
}

impl LogPage {
    // Writes the page, if the buffer has its 512 bytes.
    pub fn write(self, page: &mut [u8]) -> Result<(), Refusal>
        ensures written { refusal_in result ≡ cond (eqb (length page.old) 512) None (Some 9) }
        ensures bytes { page.new ≡ cond (eqb (length page.old) 512) (page_bytes self) page.old }
    {
        if page.len() == 512 {
            write_head(page, self.settings, self.timer);
            write_windows(page, self.active_window, self.static_window);
            write_tail(page, self.settings.trigger, self.debug);
            Ok(())
        } else {
            Err(Refusal::PageLength)
        }
    }
}
