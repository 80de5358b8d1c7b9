// What the Rust takes from f64: is_nan, is_finite, abs, max; and inf_norm. The literals and the small tests that the crates above share.
#![tactic(auto)]

ghost use Rattle.std.specs.Prelude.{◌≡◌, ◌≤◌};
ghost use Rattle.std.specs.Float.Ieee.{is_nan};
ghost use Rattle.std.specs.Float.Ieee.Scale.{finite};
ghost use Rattle.real.specs.Real.{absolute, max_of};
ghost use Rattle.real.specs.Norm.{norm_of};

// Below this a mismatch counts as solved.
pub const TOL: f64 = 1e-8;

// The margin of the limit tests, and that of the test by which a bus is reverted.
pub const Q_TOL: f64 = 1e-6;

pub const V_BACK: f64 = 1e-6;

pub fn is_nan(x: f64) -> bool
    ensures { result ≡ is_nan x }
{
    x != x
}

// Neither NaN nor an infinity.
pub fn is_finite(x: f64) -> bool
    ensures { result ≡ finite x }
{
    if x < 1.0 / 0.0 {
        return x > -1.0 / 0.0;
    }
    false
}

// What a refusal gives beside its number: a place, a count, a row or a field; or a mismatch.
#[derive(Clone, Copy, Debug, PartialEq)]
pub enum Value {
    Whole(usize),
    Real(f64),
}

// The sign is cleared, that of -0.0 too.
pub fn abs(x: f64) -> f64
    ensures { result ≡ absolute x }
{
    if x < 0.0 {
        return -x;
    }
    if x == 0.0 {
        return 0.0;
    }
    x
}

// The larger. Of a NaN and a number it is the number, as `f64::max` has it.
pub fn max(a: f64, b: f64) -> f64
    ensures { result ≡ max_of a b }
{
    if is_nan(a) {
        return b;
    }
    if a < b { b } else { a }
}

// The norm of the first n places.
pub fn inf_norm(n: usize, v: &[f64; 64]) -> f64
    requires { n ≤ 64 }
    ensures { result ≡ norm_of n v.now }
{
    let mut norm = 0.0;
    for &x in &v[..n] {
        if is_nan(x) {
            return x;
        }
        norm = max(norm, abs(x));
    }
    norm
}
