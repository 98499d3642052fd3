// What has been read so far, and what is printed of it.
ghost use Rattle.std.specs.Prelude.{◌≡◌, ◌≤◌, ◌<◌, ◌^◌, length};
ghost use Rattle.text.specs.Pages.{text_of};
ghost use Rattle.monitor.specs.Report.{page_of};
ghost use Rattle.events.specs.Blocks.{end_line};
ghost use Rattle.page.specs.Progress.{nothing_read, after_block, Told};

use events::Block;
use monitor::Monitor;
use text::{Line, Text};

// Room for the refused lines of a block: 50 bytes for each of 4,096 records.
pub const LINES: usize = 204_800;

// The monitor that the records so far have left, and the number of the next record.
#[derive(Clone, Copy)]
pub struct Progress {
    pub monitor: Monitor,
    pub next: u64,
}

// What a block of input leaves, and the bytes of its refused lines.
#[derive(Clone, Copy)]
pub struct Taken {
    pub progress: Progress,
    pub len: usize,
}

impl Progress {
    // Nothing has been read.
    #[tactic(auto, unfolding(crate::specs::Progress::nothing_read))]
    pub fn start() -> Self
        ensures { result ≡ nothing_read }
    {
        let monitor = Monitor::new();
        Progress { monitor, next: 0 }
    }

    // The next block, with its refused lines.
    pub(crate) fn take(self, s: &[u8], lines: &mut [u8; LINES]) -> Taken
        requires { (length s.now ≤ 65536) × (self.next < 2 ^ 60) }
        ensures progress { result.progress ≡ after_block self s.now }
        ensures lines { Told self.next s.now lines.old lines.new result.len }
    {
        let next = self.next + (s.len() / 16) as u64;
        let Block { monitor, len } = events::replay_block(self.monitor, s, self.next, lines);
        let progress = Progress { monitor, next };
        Taken { progress, len }
    }

    // The line of what is left over at the end, in a last block of n bytes.
    pub fn end_line(self, n: usize) -> Line
        ensures { result.bytes ≡ end_line self.next n }
    {
        events::end_line(self.next, n)
    }

    // The page, as text.
    #[tactic(auto, unfolding(monitor::specs::Report::after_page, rules::specs::Refusals::page_refusal))]
    pub fn page_text(self) -> Text
        ensures { result.bytes ≡ text_of (page_of self.monitor) }
    {
        let mut page = [0; 512];
        let _ = self.monitor.page(&mut page);
        text::page_text(&page)
    }
}
