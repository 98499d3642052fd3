// The listing: the counters of a page that was read, a line each (document 02, Ticket 1).
ghost use Rattle.std.specs.Prelude.{◌≡◌, ◌++◌, ◌+◌, ◌≤◌};
ghost use Rattle.arrayvec.specs.ArrayString.{array_string_len};
ghost use Rattle.text.specs.Listing.{counts_line, listing_of, page_listing};

use crate::lines;
use arrayvec::ArrayString;
use logpage::LogPage;

// Twelve lines of at most 64 bytes: three numbers of at most 20 digits, two spaces, newline.
pub type Listing = ArrayString<768>;

// Appends the line of a counter.
#[tactic(auto, unfolding(crate::specs::Listing::counts_line))]
fn push_counts<const N: usize>(
    listing: &mut ArrayString<N>,
    counter: usize,
    active_count: u32,
    static_count: u32,
)
    requires { array_string_len listing.old + 64 ≤ N }
    ensures line { listing.new.bytes ≡ listing.old.bytes ++ counts_line counter active_count static_count }
    ensures len { array_string_len listing.new ≤ array_string_len listing.old + 64 }
{
    lines::push_decimal(listing, counter as u64);
    lines::push_numbers(listing, &[u64::from(active_count), u64::from(static_count)]);
    listing.push('\n');
}

// The listing of a page's counts, by counter number.
#[tactic(auto, using(crate::proofs::listing::Laws::counters_steps), unfolding(crate::specs::Listing::listing_of, crate::specs::Listing::counts_lines))]
fn counts_listing(active_counts: &[u32; 12], static_counts: &[u32; 12]) -> Listing
    ensures { result.bytes ≡ listing_of active_counts.now static_counts.now }
{
    let mut listing = Listing::new();
    let counts = active_counts.iter().zip(static_counts);
    for (n, (active_count, static_count)) in counts.enumerate() {
        push_counts(&mut listing, n, *active_count, *static_count);
    }
    listing
}

// The listing of a page: its counters, or why it is turned away.
#[tactic(auto, unfolding(crate::specs::Listing::page_listing, logpage::specs::Reader::reading_of, logpage::specs::Reader::shown))]
pub fn page_listing(page: &[u8]) -> Listing
    ensures { result.bytes ≡ page_listing page.now }
{
    match LogPage::read(page) {
        Ok(reading) => {
            let shown = reading.page;
            counts_listing(&shown.active_window.counters, &shown.static_window.counters)
        }
        Err(refusal) => lines::refused(&[u64::from(u8::from(refusal))]),
    }
}
