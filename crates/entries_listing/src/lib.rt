#![tactic(auto)]

// The entries of a list file, read and worked by the lists' own functions. They stand in an array,
// which each function lends to its list.

ghost use Rattle.std.specs.Prelude.{◌≡◌, ◌≤◌};
ghost use Rattle.rules.specs.ListFile.{most_records};
ghost use Rattle.entries_listing.specs.Listing as rule;

use entries_read::read_list;
use night_list::night_list;
use rules::{Entry, Moment, Refusal, Site};
use units::MOST_RECORDS;

// What a list answered, and the entries as it left them: no `Result` with entries in it, as `read`
// and `work` promise those of a list that is refused too (`listing_read`, `listing_worked`).
#[derive(Clone, Copy)]
pub struct Listing {
    pub answer: Result<usize, Refusal>,
    pub entries: [Entry; MOST_RECORDS],
}

// A list file read into as many entries as it may have.
//
// Given: file, any bytes.
// Returned: the count, and the entries that are read, with blank ones past the count; or refusal 9,
// 10 or 5, and blank entries.
// Rule: specs/Listing.antt.
pub fn read(file: &[u8]) -> Listing
    ensures { result ≡ rule.listing_read file.now }
{
    let mut entries = [Entry::default(); MOST_RECORDS];
    let answer = read_list(file, &mut entries);
    Listing { answer, entries }
}

// The first entries of a list, worked in the night of a moment and a site.
//
// Given: moment and site, any; count, no more than a list may have; listing, of which the entries
// alone are looked at.
// Returned: how many entries are filled, and the entries, of which the first `count` are worked;
// or refusal 1 to 4 or 6, and the entries as they were.
// Rule: specs/Listing.antt.
pub fn work(moment: Moment, site: Site, count: usize, listing: Listing) -> Listing
    requires { count ≤ most_records }
    ensures { result ≡ rule.listing_worked moment site count listing.entries }
{
    let mut entries = listing.entries;
    let answer = night_list(moment, site, &mut entries[..count]);
    Listing { answer, entries }
}
