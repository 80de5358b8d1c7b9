// What the test programs share: their input's bytes, words and doubles, whether two doubles are one value, the comparison of all records,
// and the last line.
#![tactic(auto)]

ghost use Rattle.std.specs.Prelude.{◌≡◌, ◌+◌, ◌≤◌, ◌<◌, length};
ghost use Rattle.std.specs.Float.{binary64};
ghost use Rattle.std.specs.Float.Ieee.{of_bits};
ghost use Rattle.vectors.specs.Words.{pair_of, word_of, double_at, Tells};

// The numbers of standard input and output.
pub const STDIN_FILENO: i32 = 0;

pub const STDOUT_FILENO: i32 = 1;

// Two bytes from a place on, the first the higher.
pub fn pair(s: &[u8], at: usize) -> usize
    requires { at + 2 ≤ length s.now }
    ensures { (result ≡ pair_of at s.now) × (result < 65536) }
{
    usize::from(s[at]) * 256 + usize::from(s[at + 1])
}

// Eight bytes from a place on, the first the highest.
pub fn word(s: &[u8], at: usize) -> u64
    requires { at + 8 ≤ length s.now }
    ensures { result ≡ word_of at s.now }
{
    let a = pair(s, at) as u64;
    let b = pair(s, at + 2) as u64;
    let c = pair(s, at + 4) as u64;
    let d = pair(s, at + 6) as u64;
    ((a * 65536 + b) * 65536 + c) * 65536 + d
}

// The double of a bit pattern. A pattern of a NaN is the one NaN.
pub fn double(w: u64) -> f64
    ensures { result ≡ of_bits binary64 w }
{
    if w % 0x8000_0000_0000_0000 > 0x7ff0_0000_0000_0000 {
        return f64::NAN;
    }
    f64::from_bits(w)
}

// The double of eight bytes from a place on.
pub fn double_at(s: &[u8], at: usize) -> f64
    requires { at + 8 ≤ length s.now }
    ensures { result ≡ double_at at s.now }
{
    double(word(s, at))
}

// Whether two doubles are one value: the same bits, or both NaN.
pub fn same(x: f64, y: f64) -> bool
    ensures { Tells result (x ≡ y) }
{
    if real::is_nan(x) {
        return real::is_nan(y);
    }
    if real::is_nan(y) {
        return false;
    }
    f64::to_bits(x) == f64::to_bits(y)
}

// Reads n bytes more of a file into the first places of s; whether there were so many. No contract can say what a file holds.
pub fn read(fd: i32, s: &mut [u8], n: usize) -> bool
    requires { n ≤ length s.old }
    ensures { length s.new ≡ length s.old }
{
    io::read_full(fd, &mut s[..n]) == n
}

// Compares up to `count` records, as far as the input has them, and prints the last line. A turn says whether its record agrees, None where no whole
// record is left.
pub fn compare<F: FnMut() -> Option<bool>>(records: &[u8], count: u64, mut next: F)
    requires { F.IsAlwaysCallable next }
{
    let mut done = 0;
    let mut differing = 0;
    for _turn in 0..count {
        let Some(agrees) = next() else {
            break;
        };
        done += 1;
        if !agrees {
            differing += 1;
        }
    }
    sum_up(records, done, differing);
}

// The last line of a test: how many records were compared, and how many of them differ.
pub fn sum_up(records: &[u8], done: u64, differing: u64) {
    io::write_all(STDOUT_FILENO, records);
    io::write_all(STDOUT_FILENO, b" ");
    io::print_decimal(STDOUT_FILENO, done);
    io::write_all(STDOUT_FILENO, b", differing ");
    io::print_decimal(STDOUT_FILENO, differing);
    io::write_all(STDOUT_FILENO, b"\n");
}
