// The fields of a case text: a bus number, a real, and `?` for NaN. A reader answers `None` of a field that is wrong.
#![tactic(auto)]

ghost use Rattle.std.specs.Prelude.{◌≡◌, ◌^◌, ◌<◌, ◌≤◌, length};
ghost use Rattle.std.specs.Float.{binary64};
ghost use Rattle.std.specs.Float.Ieee.{div};
ghost use Rattle.real.specs.Literals.{double};
ghost use Rattle.fields.specs.Cut.{Found, only};
ghost use Rattle.fields.specs.Digits.{limited_of, bus_of};
ghost use Rattle.fields.specs.Real.{amount_of, unsigned_of, real_of, or_nan_of};

// The place of the first x from a up to e, or e.
pub fn find(s: &[u8], a: usize, e: usize, x: u8) -> usize
    requires { (a ≤ e) × (e ≤ length s.now) }
    ensures { Found s.now a e x result }
{
    match s[a..e].iter().position(|&b| b == x) {
        Some(k) => a + k,
        None => e,
    }
}

// Whether the field is the one byte x.
pub fn is_byte(f: &[u8], x: u8) -> bool
    ensures { result ≡ only x f.now }
{
    f.len() == 1 && f[0] == x
}

// The digits as a whole number, after those that gave `from`. It stays below 10^15: from 10^14 on a digit more would be the sixteenth that counts.
pub fn whole(f: &[u8], from: usize) -> Option<usize>
    requires { from < 10 ^ 15 }
    ensures { result ≡ limited_of from f.now }
{
    let mut m = from;
    for &b in f {
        if !b.is_ascii_digit() {
            return None;
        }
        if 99999999999999 < m {
            return None;
        }
        m = m * 10 + ((b - b'0') as usize);
    }
    Some(m)
}

pub fn read_bus(f: &[u8]) -> Option<usize>
    ensures { result ≡ bus_of f.now }
{
    let n = f.len();
    if n == 0 || 3 < n {
        return None;
    }
    if f[0] == b'0' && 1 < n {
        return None;
    }
    whole(f, 0)
}

// The power of ten of k decimals: 1.0 multiplied by ten once for each.
fn ten(k: usize) -> f64
    requires { k ≤ 22 }
    ensures { result ≡ double (10 ^ k) }
{
    let mut p = 1.0;
    for _i in 0..k {
        p *= 10.0;
    }
    p
}

// m divided once by the power of ten of k decimals.
fn scaled(m: usize, k: usize) -> f64
    requires { (m < 10 ^ 15) × (k ≤ 22) }
    ensures { result ≡ div binary64 (double m) (double (10 ^ k)) }
{
    (m as f64) / ten(k)
}

// The digits before the point, w, and those behind it, d.
fn amount(w: &[u8], d: &[u8]) -> Option<f64>
    ensures { result ≡ amount_of w.now d.now }
{
    if w.is_empty() {
        return None;
    }
    let k = d.len();
    if 22 < k {
        return None;
    }
    let n = whole(w, 0)?;
    let m = whole(d, n)?;
    Some(scaled(m, k))
}

// A real with no minus.
fn unsigned(f: &[u8]) -> Option<f64>
    ensures { result ≡ unsigned_of f.now }
{
    let e = f.len();
    let p = find(f, 0, e, b'.');
    if p == e {
        return amount(f, &[]);
    }
    if p + 1 == e {
        return None;
    }
    amount(&f[..p], &f[p + 1..])
}

pub fn read_real(f: &[u8]) -> Option<f64>
    ensures { result ≡ real_of f.now }
{
    if 0 < f.len() && f[0] == b'-' {
        return unsigned(&f[1..]).map(|x| -x);
    }
    unsigned(f)
}

// A real, or `?` for NaN.
pub fn real_or_nan(f: &[u8]) -> Option<f64>
    ensures { result ≡ or_nan_of f.now }
{
    if is_byte(f, b'?') {
        return Some(0.0 / 0.0);
    }
    read_real(f)
}
