// The ten largest terms of nutation (IAU 1980).

use rules::Term;

// A row of 01's table: l, l', F, D, Ω; amplitude and change a century in longitude, in obliquity.
macro_rules! term {
    ($l:expr, $l1:expr, $f:expr, $d:expr, $om:expr, $psi:expr, $psi1:expr, $eps:expr, $eps1:expr) => {
        Term {
            moon: $l,
            sun: $l1,
            latitude: $f,
            elongation: $d,
            node: $om,
            longitude: $psi,
            longitude_change: $psi1,
            obliquity: $eps,
            obliquity_change: $eps1,
        }
    };
}

// Set as 01 prints them: numbers 1, 9, 31, 2, 10, 32, 11, 33, 34 and 12 of IAU 1980 (Seidelmann
// 1982).
pub static TERMS: [Term; 10] = [
    term!(0, 0, 0, 0, 1, -17199600, -17420, 9202500, 890),
    term!(0, 0, 2, -2, 2, -1318700, -160, 573600, -310),
    term!(0, 0, 2, 0, 2, -227400, -20, 97700, -50),
    term!(0, 0, 0, 0, 2, 206200, 20, -89500, 50),
    term!(0, 1, 0, 0, 0, 142600, -340, 5400, -10),
    term!(1, 0, 0, 0, 0, 71200, 10, -700, 0),
    term!(0, 1, 2, -2, 2, -51700, 120, 22400, -60),
    term!(0, 0, 2, 0, 1, -38600, -40, 20000, 0),
    term!(1, 0, 2, 0, 2, -30100, 0, 12900, -10),
    term!(0, -1, 2, -2, 2, 21700, -50, -9500, 30),
];
