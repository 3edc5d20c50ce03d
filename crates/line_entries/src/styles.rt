// How the angles of an entry are written: as numbers of µas, or for people.

ghost use Rattle.std.specs.Prelude.{◌≡◌, ◌≤◌, ◌+◌, ◌++◌, ℤ, List, ℕ};
ghost use Rattle.arrayvec.specs.ArrayVec.{array_vec_len};
ghost use Rattle.rules.specs.Times.{decimal};
ghost use Rattle.sexagesimal.specs.Sexagesimal.{spaced, hours, bearing, elevation};

use crate::put_spaced;
use arrayvec::ArrayVec;
use sexagesimal::{append_bearing, append_elevation, append_hours};

// Each appends a space and an angle.
pub trait Style<const N: usize> {
    ghost ra: { ℤ → List ℕ };

    ghost azimuth: { ℤ → List ℕ };

    ghost height: { ℤ → List ℕ };

    fn put_ra(angle: i64, out: &mut ArrayVec<u8, N>)
        requires { array_vec_len out.old + 21 ≤ N }
        ensures items { out.new.items ≡ out.old.items ++ spaced (ra angle) }
        ensures short { array_vec_len out.new ≤ array_vec_len out.old + 21 };

    fn put_azimuth(angle: i64, out: &mut ArrayVec<u8, N>)
        requires { array_vec_len out.old + 21 ≤ N }
        ensures items { out.new.items ≡ out.old.items ++ spaced (azimuth angle) }
        ensures short { array_vec_len out.new ≤ array_vec_len out.old + 21 };

    fn put_height(angle: i64, out: &mut ArrayVec<u8, N>)
        requires { array_vec_len out.old + 21 ≤ N }
        ensures items { out.new.items ≡ out.old.items ++ spaced (height angle) }
        ensures short { array_vec_len out.new ≤ array_vec_len out.old + 21 };
}

pub struct Plain;

impl<const N: usize> Style<N> for Plain {
    ghost ra = { decimal };

    ghost azimuth = { decimal };

    ghost height = { decimal };

    fn put_ra(angle: i64, out: &mut ArrayVec<u8, N>) {
        put_spaced(angle, out);
    }

    fn put_azimuth(angle: i64, out: &mut ArrayVec<u8, N>) {
        put_spaced(angle, out);
    }

    fn put_height(angle: i64, out: &mut ArrayVec<u8, N>) {
        put_spaced(angle, out);
    }
}

pub struct People;

impl<const N: usize> Style<N> for People {
    ghost ra = { hours };

    ghost azimuth = { bearing };

    ghost height = { elevation };

    fn put_ra(angle: i64, out: &mut ArrayVec<u8, N>) {
        append_hours(angle, out);
    }

    fn put_azimuth(angle: i64, out: &mut ArrayVec<u8, N>) {
        append_bearing(angle, out);
    }

    fn put_height(angle: i64, out: &mut ArrayVec<u8, N>) {
        append_elevation(angle, out);
    }
}
