// Sine and cosine, of the crate `circle`.

ghost use Rattle.std.specs.Prelude.{◌≡◌};
ghost use Rattle.tests_functions.specs.Pairs.{tests_pair};

// Cosine and sine, in parts of 2^30. It is C's own: `rules::Pair` has no layout that C knows.
#[repr(C)]
#[derive(Clone, Copy)]
pub struct TestsPair {
    pub cosine: i64,
    pub sine: i64,
}

// The pair of an angle in µas.
pub fn tests_pair(angle: i64) -> TestsPair
    ensures { result ≡ tests_pair angle }
{
    let p = circle::pair(angle);
    TestsPair {
        cosine: p.cosine,
        sine: p.sine,
    }
}
