// The four angles of an entry, with a dash where it has no right ascension or azimuth: that is
// where the height beside it is a quarter, and there alone.

ghost use Rattle.std.specs.Prelude.{◌≡◌, ◌≤◌, ◌+◌, ◌++◌, eqb, nat_abs};
ghost use Rattle.arrayvec.specs.ArrayVec.{array_vec_len};
ghost use Rattle.rules.specs.Units.{quarter};
ghost use Rattle.sexagesimal.specs.Sexagesimal.{spaced};
ghost use Rattle.line_entries.specs.EntryLine as rule;

use crate::styles::Style;
use arrayvec::ArrayVec;
use rules::Angles;
use units::QUARTER;

// Whether a height is a quarter, up or down.
fn is_quarter(height: i64) -> bool
    ensures { result ≡ eqb (nat_abs height) quarter }
{
    height == QUARTER || height == -QUARTER
}

// A space and a dash.
fn put_dash<const N: usize>(out: &mut ArrayVec<u8, N>)
    requires { array_vec_len out.old + 2 ≤ N }
    ensures items { out.new.items ≡ out.old.items ++ spaced rule.dash }
    ensures len { array_vec_len out.new ≡ array_vec_len out.old + 2 }
{
    out.push(b' ');
    out.push(b'-');
}

// Right ascension and declination, azimuth and altitude.
pub fn put_angles<const N: usize, S: Style<N>>(angles: Angles, out: &mut ArrayVec<u8, N>)
    requires { array_vec_len out.old + 84 ≤ N }
    ensures items { out.new.items
        ≡ out.old.items ++ rule.four_angles S.ra S.azimuth S.height angles }
    ensures short { array_vec_len out.new ≤ array_vec_len out.old + 84 }
{
    if is_quarter(angles.declination) {
        put_dash(out);
    } else {
        S::put_ra(angles.ra, out);
    }
    S::put_height(angles.declination, out);
    if is_quarter(angles.altitude) {
        put_dash(out);
    } else {
        S::put_azimuth(angles.azimuth, out);
    }
    S::put_height(angles.altitude, out);
}
