#![tactic(auto)]

// A list file of a row of numbers, written at once.

ghost use Rattle.std.specs.Prelude.{◌≡◌, length, map, ◌≤◌};
ghost use Rattle.rules.specs.ListFile.{head_length, any_refused, record_at};
ghost use Rattle.rules.specs.ListWriting.{star_from, numbers_written, room_after_numbers};
ghost use Rattle.list_bytes.specs.Puts.{put};
ghost use Rattle.list_records.specs.Records.{low_records};

use list_records::{file_length, put_head, put_star};
use rules::Refusal;
use stars::numbers_refused;
use units::{HEAD_BYTES, RECORD_BYTES};

// Refusal 5: one of the stars, four numbers each, is refused. Its likes of records and of entries
// each ask it of what they walk: what they share is in `stars`.
fn any_refused(stars: &[[i64; 4]]) -> bool
    ensures { result ≡ any_refused (map star_from stars.now) }
{
    stars.iter().any(|&[ra, declination, ra_motion, declination_motion]| {
        numbers_refused(ra, declination, ra_motion, declination_motion)
    })
}

// The stars, four numbers each, as records after the head.
fn put_stars(room: &mut [u8], stars: &[[i64; 4]])
    requires { record_at (length stars.now) ≤ length room.old }
    ensures { room.new
        ≡ put room.old head_length (low_records (map star_from stars.now)) }
{
    // By its place: no contract says what a room ends as whose parts `chunks_exact_mut` or
    // `as_chunks_mut` lends, so a walk by parts has no proof.
    for (i, &[ra, declination, ra_motion, declination_motion]) in stars.iter().enumerate() {
        let record = &mut room[HEAD_BYTES + RECORD_BYTES * i..];
        put_star(record, ra, declination, ra_motion, declination_motion);
    }
}

// A list file of a row of numbers, four to a star, written at once.
//
// Given: numbers, right ascension and declination in µas, their motions in µas a year, of each
// star; room, any.
// Returned: the file's length, and the file at the start of room; the bytes past it stay. Or
// refusal 5 or 11, and all bytes stay; 11 also where the last star has not all its numbers.
// Rule: docs/RULES.md, "Lists" and "Refusal numbers".
pub fn list_write(numbers: &[i64], room: &mut [u8]) -> Result<usize, Refusal>
    ensures { (result ≡ numbers_written numbers.now room.old)
        × (room.new ≡ room_after_numbers numbers.now room.old) }
{
    let (stars, rest) = numbers.as_chunks::<4>();
    if any_refused(stars) {
        return Err(Refusal::Star);
    }
    if !rest.is_empty() {
        return Err(Refusal::Room);
    }
    let length = file_length(stars.len(), room.len())?;
    put_stars(room, stars);
    put_head(room, stars.len());
    Ok(length)
}
