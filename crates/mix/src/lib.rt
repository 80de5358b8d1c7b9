// A number from -1 to 1 made of two words, as the Rust's `mix`: 64-bit arithmetic that drops carries.
#![tactic(auto)]

ghost use Rattle.std.specs.Prelude.{◌≡◌};
ghost use Rattle.mix.specs.Noise.{times, mix_of};

// a * b without its carries, by halves of 32 digits. What the upper halves make together is dropped whole.
fn wrapping_mul(a: u64, b: u64) -> u64
    ensures { result ≡ times a b }
{
    let a_low = a % 4294967296;
    let a_high = a / 4294967296;
    let b_low = b % 4294967296;
    let b_high = b / 4294967296;
    let cross = (a_low * b_high).wrapping_add(a_high * b_low);
    (a_low * b_low).wrapping_add(cross << 32)
}

// The largest word, as a double, is 2^64.
const LARGEST: f64 = 18446744073709551616.0;

pub fn mix(a: u64, b: u64) -> f64
    ensures { result ≡ mix_of a b }
{
    let x = wrapping_mul(a, 0x9E37_79B9_7F4A_7C15) ^ wrapping_mul(b, 0xD1B5_4A32_D192_ED03);
    let y = wrapping_mul(x ^ (x >> 33), 0xFF51_AFD7_ED55_8CCD);
    let w = y ^ (y >> 33);
    std::num::nearest_u64_to_f64(w) / LARGEST * 2.0 - 1.0
}
