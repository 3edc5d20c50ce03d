#![tactic(auto)]

// A list file read: its checks, its count, and a star by its index.

ghost use Rattle.std.specs.Prelude.{◌≡◌, length, ◌/◌, ◌≤◌};
ghost use Rattle.rules.specs.ListFile.{record_length, star_in, stars_in, any_refused};
ghost use Rattle.rules.specs.ListReading.{mark_refused, list_count, list_star};

use list_bytes::{number_in, word_in};
use rules::{Refusal, Star};
use stars::star_refused;
use units::{HEAD_BYTES, MOST_RECORDS, RECORD_BYTES};

// The star of the record that the bytes begin with. As a slice, here and in what puts a record: a
// list's room lends its parts by their places, and they have no length in their type.
pub fn star_in(bytes: &[u8]) -> Star
    requires { record_length ≤ length bytes.now }
    ensures { result ≡ star_in bytes.now }
{
    Star {
        ra: number_in(&bytes[..8]),
        declination: number_in(&bytes[8..16]),
        ra_motion: number_in(&bytes[16..20]) as i32,
        declination_motion: number_in(&bytes[20..24]) as i32,
    }
}

// Refusal 9: under 7 bytes, another mark than `SLT`, or another version than 1.
fn mark_refused(file: &[u8]) -> bool
    ensures { result ≡ mark_refused file.now }
{
    file.len() < HEAD_BYTES || !file.starts_with(b"SLT") || word_in(&file[3..]) != 1
}

// Refusal 5: one of the whole records has a star that is refused. Its likes of entries and of
// numbers each ask it of what they walk: what they share is in `stars`.
fn any_refused(records: &[u8]) -> bool
    ensures { result
        ≡ any_refused (stars_in (length records.now / record_length) records.now) }
{
    let (records, _) = records.as_chunks::<RECORD_BYTES>();
    records.iter().any(|record| star_refused(star_in(record)))
}

// How many records a list file has.
//
// Given: file, any bytes.
// Returned: the count, 0 to 64; or refusal 9, 10 or 5.
// Rule: docs/RULES.md, "Lists" and "Refusal numbers".
pub fn list_count(file: &[u8]) -> Result<usize, Refusal>
    ensures { result ≡ list_count file.now }
{
    if mark_refused(file) {
        return Err(Refusal::Mark);
    }
    let count = usize::from(word_in(&file[5..]));
    if MOST_RECORDS < count {
        return Err(Refusal::Count);
    }
    if file.len() != HEAD_BYTES + RECORD_BYTES * count {
        return Err(Refusal::Count);
    }
    if any_refused(&file[HEAD_BYTES..]) {
        return Err(Refusal::Star);
    }
    Ok(count)
}

// A star of a list file.
//
// Given: file, any bytes; index, from 0.
// Returned: the star; or refusal 9, 10 or 5; or 11 where the file has no such record.
// Rule: docs/RULES.md, "Lists" and "Refusal numbers".
//
// The record's place is by its index: it is one record, and no walk over them.
pub fn list_star(file: &[u8], index: usize) -> Result<Star, Refusal>
    ensures { result ≡ list_star file.now index }
{
    let count = list_count(file)?;
    if index < count {
        Ok(star_in(&file[HEAD_BYTES + RECORD_BYTES * index..]))
    } else {
        Err(Refusal::Room)
    }
}
