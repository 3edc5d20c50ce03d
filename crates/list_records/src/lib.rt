#![tactic(auto)]

// A list file in its room: whether it fits, and its head and a star as its record, put into bytes.

ghost use Rattle.std.specs.Prelude.{◌≡◌, false, length, ◌≤◌};
ghost use Rattle.rules.specs.ListFile.{head_length, record_length, most_records, record_of};
ghost use Rattle.rules.specs.ListWriting.{room_refused, written_of};
ghost use Rattle.laws.specs.FileLength.{head_of};
ghost use Rattle.stars.specs.Numbers.{star_of};
ghost use Rattle.list_bytes.specs.Puts.{put};
ghost use Rattle.list_records.specs.Records.{low_record};

use list_bytes::put_number;
use rules::{Refusal, Star};
use units::{HEAD_BYTES, MOST_RECORDS, RECORD_BYTES};

// The length of a file of `count` records, which `room` bytes hold; or refusal 11.
pub fn file_length(count: usize, room: usize) -> Result<usize, Refusal>
    ensures { result ≡ written_of false (room_refused count room) count }
{
    if MOST_RECORDS < count {
        return Err(Refusal::Room);
    }
    let length = HEAD_BYTES + RECORD_BYTES * count;
    if room < length {
        return Err(Refusal::Room);
    }
    Ok(length)
}

// The four numbers of a star as the record that the bytes begin with. They come as C gives them,
// and are a `Star` only where the motions fit its words.
pub fn put_star(
    bytes: &mut [u8],
    ra: i64,
    declination: i64,
    ra_motion: i64,
    declination_motion: i64,
)
    requires { record_length ≤ length bytes.old }
    ensures { bytes.new
        ≡ put bytes.old 0 (low_record (star_of ra declination ra_motion declination_motion)) }
{
    put_number(&mut bytes[..8], ra);
    put_number(&mut bytes[8..16], declination);
    put_number(&mut bytes[16..20], ra_motion);
    put_number(&mut bytes[20..24], declination_motion);
}

// A star as the record that the bytes begin with.
pub fn put_record(bytes: &mut [u8], star: Star)
    requires { record_length ≤ length bytes.old }
    ensures { bytes.new ≡ put bytes.old 0 (record_of star) }
{
    put_star(
        bytes,
        star.ra,
        star.declination,
        i64::from(star.ra_motion),
        i64::from(star.declination_motion),
    );
}

// `SLT`, version 1 and the count.
pub fn put_head(room: &mut [u8], count: usize)
    requires { (head_length ≤ length room.old) × (count ≤ most_records) }
    ensures { room.new ≡ put room.old 0 (head_of count) }
{
    room[..3].copy_from_slice(b"SLT");
    room[3..5].copy_from_slice(&1u16.to_le_bytes());
    room[5..7].copy_from_slice(&(count as u16).to_le_bytes());
}
