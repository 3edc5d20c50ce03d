#![tactic(auto)]

// Functions for the tests alone: the functions over lent entries, of the crates `entries_read`,
// `entries_write` and `night_list`, which `module` does not show. It is not shipped.

ghost use Rattle.std.specs.Prelude.{◌≡◌};
ghost use Rattle.rules.specs.Answers.{listed_answer};
ghost use Rattle.rules.specs.ListReading.{list_read, entries_after_read};
ghost use Rattle.rules.specs.ListWriting.{list_written, room_after_write};
ghost use Rattle.rules.specs.NightList.{night_list, entries_after_night};
ghost use Rattle.answers.specs.Given.{moment_of, site_of};
ghost use Rattle.answers.specs.Answers.{counted_out};

use answers::given::moment_of;
use answers::lists::TurbelicusCounted;
use entries_read::read_list;
use entries_write::write_list;
use night_list::night_list;
use rules::{Entry, Site};

// A list file read into entries.
pub fn tests_list_read(file: &[u8], entries: &mut [Entry]) -> TurbelicusCounted
    ensures { (result ≡ counted_out (listed_answer
        (list_read file.now entries.old)))
        × (entries.new ≡ entries_after_read file.now entries.old) }
{
    read_list(file, entries).into()
}

// The stars of entries written as a list file.
pub fn tests_list_write(entries: &[Entry], room: &mut [u8]) -> TurbelicusCounted
    ensures { (result ≡ counted_out (listed_answer
        (list_written entries.now room.old)))
        × (room.new ≡ room_after_write entries.now room.old) }
{
    write_list(entries, room).into()
}

// A night list, worked where it stands.
pub fn tests_night_list(
    year: i32,
    month: i32,
    day: i32,
    hour: i32,
    minute: i32,
    second: i32,
    ms: i32,
    ut1_minus_utc: i32,
    latitude: i64,
    longitude: i64,
    entries: &mut [Entry],
) -> TurbelicusCounted
    ensures { (result ≡ counted_out (listed_answer (night_list
        (moment_of year month day hour minute second ms ut1_minus_utc)
        (site_of latitude longitude) entries.old)))
        × (entries.new ≡ entries_after_night
        (moment_of year month day hour minute second ms ut1_minus_utc)
        (site_of latitude longitude) entries.old) }
{
    let moment = moment_of(year, month, day, hour, minute, second, ms, ut1_minus_utc);
    let site = Site {
        latitude,
        longitude,
    };
    night_list(moment, site, entries).into()
}
