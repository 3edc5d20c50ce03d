#![tactic(auto)]

// The line that `places` reads.

ghost use Rattle.std.specs.Prelude.{◌≡◌, ◌+◌, ◌<◌, ◌≤◌, ◌==◌, length, take, drop, MatchOption};
ghost use Rattle.std.specs.List.{position};
ghost use Rattle.line_asked.specs.Asking as rule;

use numerals::fields::line_of;
use numerals::parse;
use rules::{Moment, Site};

// What a line of `places` asks for. What it is handed on to takes moment and site apart, as the
// functions that docs/PROMISES.md names and the calls from C do.
#[derive(Clone, Copy)]
pub struct Asked {
    pub moment: Moment,
    pub site: Site,
}

// Where the first byte that is this one stands; none where none is. Byte and bytes stay two: each
// call has another byte.
fn position(byte: u8, s: &[u8]) -> Option<usize>
    ensures { result ≡ position (λ b. b == byte) s.now }
{
    s.iter().position(|&b| b == byte)
}

// How many bytes come before the first that is this one; all where none is. Public by this name,
// which `promises/OnlyOne` speaks of.
pub fn length_before(byte: u8, s: &[u8]) -> usize
    ensures { result ≡ rule.length_before byte s.now }
{
    position(byte, s).unwrap_or(s.len())
}

// What comes before and after the first byte that is this one; none where none is.
fn split_once(byte: u8, s: &[u8]) -> Option<(&[u8], &[u8])>
    ensures { MatchOption result (length s.now ≤ rule.length_before byte s.now)
        (λ parts. (rule.length_before byte s.now < length s.now)
        × (parts.0.now ≡ take (rule.length_before byte s.now) s.now)
        × (parts.1.now ≡ drop (rule.length_before byte s.now + 1) s.now)) }
{
    let n = position(byte, s)?;
    Some((&s[..n], &s[n + 1..]))
}

// A moment with the site that follows.
fn with_site(moment: Moment, s: &[u8]) -> Option<Asked>
    ensures { result ≡ rule.with_site moment s.now }
{
    let (latitude, longitude) = split_once(b' ', s)?;
    Some(Asked {
        moment,
        site: Site {
            latitude: parse(latitude, 12)?,
            longitude: parse(longitude, 12)?,
        },
    })
}

// A line without its end.
pub fn asked_of(line: &[u8]) -> Option<Asked>
    ensures { result ≡ rule.asked_of line.now }
{
    let (_, tail) = line.split_at_checked(24)?;
    let (word, site) = split_once(b' ', tail)?;
    let moment = line_of(&line[..24 + word.len()])?;
    with_site(moment, site)
}
