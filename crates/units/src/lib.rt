#![tactic(auto)]

// The numbers that have a name: docs/RULES.md, "Numbers, angles, instants" and "Lists".

// C: the circle, half of it, a quarter and half of that, in µas.
pub const CIRCLE: i64 = 1296000000000;

pub const HALF: i64 = 648000000000;

pub const QUARTER: i64 = 324000000000;

pub const HALF_QUARTER: i64 = 162000000000;

// 1 in a cosine, a sine or a direction, and half a circle in radians (π 2^30, rounded), in parts of
// 2^30.
pub const UNIT: i64 = 1073741824;

pub const HALF_IN_PARTS: i64 = 3373259426;

// A day, a Julian year (365 days and a quarter), and Q: a Julian century (a hundred), in ms.
pub const DAY: i64 = 86400000;

pub const YEAR: i64 = 31557600000;

pub const CENTURY: i64 = 3155760000000;

// The head of a list file and a record of it, in bytes, and the most records.
pub const HEAD_BYTES: usize = 7;

pub const RECORD_BYTES: usize = 24;

pub const MOST_RECORDS: usize = 64;
