// Compares sin_cos and mix, bit for bit, with vectors that another implementation of the rules made (oracle/number_vectors.py).
// Standard input holds vectors of four big-endian words: 0, x, its sine, its cosine; or 1, a, b, mix(a, b).
#![tactic(auto)]

ghost use Rattle.std.specs.Prelude.{◌+◌, ◌*◌, ◌≤◌, length};
ghost use Rattle.number_vectors.specs.Vectors.{SinCosHolds, MixHolds, Holds, Agreeing};
ghost use Rattle.vectors.specs.Words.{Tells};

use vectors::{STDIN_FILENO, STDOUT_FILENO};

fn sin_cos_holds(s: &[u8], at: usize) -> bool
    requires { at + 24 ≤ length s.now }
    ensures { Tells result (SinCosHolds s.now at) }
{
    let r = trig::sin_cos(vectors::double_at(s, at));
    vectors::same(r.sin, vectors::double_at(s, at + 8))
        & vectors::same(r.cos, vectors::double_at(s, at + 16))
}

fn mix_holds(s: &[u8], at: usize) -> bool
    requires { at + 24 ≤ length s.now }
    ensures { Tells result (MixHolds s.now at) }
{
    let r = mix::mix(vectors::word(s, at), vectors::word(s, at + 8));
    vectors::same(r, vectors::double_at(s, at + 16))
}

fn holds(s: &[u8], at: usize) -> bool
    requires { at + 32 ≤ length s.now }
    ensures { Tells result (Holds s.now at) }
{
    if vectors::word(s, at) == 0 {
        return sin_cos_holds(s, at + 8);
    }
    mix_holds(s, at + 8)
}

// How many of the first n vectors agree before the first that does not.
fn agreeing(s: &[u8], n: usize) -> usize
    requires { n * 32 ≤ length s.now }
    ensures { Agreeing s.now n result }
{
    for i in 0..n {
        if !holds(s, i * 32) {
            return i;
        }
    }
    n
}

fn main() {
    let mut space = io::large_buffer();
    let buf: &mut [u8] = &mut space;
    let n = io::read_full(STDIN_FILENO, buf) / 32;
    let r = agreeing(buf, n);
    io::write_all(STDOUT_FILENO, b"vectors ");
    io::print_decimal(STDOUT_FILENO, n as u64);
    io::write_all(STDOUT_FILENO, b", agreeing ");
    io::print_decimal(STDOUT_FILENO, r as u64);
    io::write_all(STDOUT_FILENO, b"\n");
}
