// Works out the injections and the Jacobian at the points of its input and compares them, and every place of the workspace, with what the input
// says (oracle/injection_vectors.py has the format).
#![tactic(auto)]

ghost use Rattle.std.specs.Prelude.{◌≡◌, ℕ, ◌+◌, ◌*◌, ◌≤◌, ◌<◌, List, length, replicate};
ghost use Rattle.network.specs.Below.{Below};
ghost use Rattle.network.specs.Columns.{triplets_in};
ghost use Rattle.layout.specs.Table.{stores};
ghost use Rattle.injections.specs.Injections.{GoodTriplets};
ghost use Rattle.vectors.specs.Words.{word_of, Tells, Found};
ghost use Rattle.injection_vectors.specs.Told.{word_told, double_told, complex_told, layout_told, vm_told, va_told, injections_told};
ghost use Rattle.injection_vectors.specs.Told.{triplets_told, place_told, Holds, Fits, injections_at, jacobian_at, Entries, Agrees};

use complex::Complex;
use injections::Injections;
use layout::{AcPfLayout, Point};
use network::TripletColumns;
use vectors::STDIN_FILENO;

// A point of the input: its bytes, how many buses and triplets it has, and the dimension of its layout.
#[derive(Clone, Copy)]
struct Record<'a> {
    s: &'a [u8],
    n: usize,
    m: usize,
    dim: usize,
}

// ---- what is told

// What a list of the input holds.
trait Value: Copy {
    // How many words of the input say one, and which of them stand for number k of the n whose list begins at a byte.
    ghost words: { ℕ };

    ghost told: { List ℕ → ℕ → ℕ → ℕ → Self };

    fn at(s: &[u8], from: usize, n: usize, k: usize) -> Self
        requires { (k < n) × (from + n * (words * 8) ≤ length s.now) }
        ensures { result ≡ told s.now from n k };
}

impl Value for usize {
    ghost words = { 1 };

    ghost told = { λ s from n k. word_told s from k };

    fn at(s: &[u8], from: usize, _n: usize, k: usize) -> usize {
        vectors::word(s, from + k * 8) as usize
    }
}

impl Value for f64 {
    ghost words = { 1 };

    ghost told = { λ s from n k. double_told s from k };

    fn at(s: &[u8], from: usize, _n: usize, k: usize) -> f64 {
        vectors::double_at(s, from + k * 8)
    }
}

// The real parts of all n come first, then the imaginary parts.
impl Value for Complex {
    ghost words = { 2 };

    ghost told = { complex_told };

    fn at(s: &[u8], from: usize, n: usize, k: usize) -> Complex {
        let re = vectors::double_at(s, from + k * 8);
        let im = vectors::double_at(s, from + n * 8 + k * 8);
        Complex::new(re, im)
    }
}

// A list of n in the first of N places; `rest` stands in the others.
fn told<T: Value, const N: usize>(s: &[u8], from: usize, n: usize, rest: T) -> [T; N]
    requires { (n ≤ N) × (from + n * (T.words * 8) ≤ length s.now) }
    ensures { result ≡ stores (T.told s.now from n) n (replicate N rest) }
{
    let mut out = [rest; N];
    for k in 0..n {
        out[k] = T::at(s, from, n, k);
    }
    out
}

// The magnitudes and angles.
fn voltages(r: Record) -> Point
    requires { Fits r.s.now r.n r.m r.dim }
    ensures { let r = r.entry in result ≡ record { vm = vm_told r.s.now r.n r.m; va = va_told r.s.now r.n r.m } }
{
    Point {
        vm: told(r.s, r.m * 32, r.n, 0.0),
        va: told(r.s, r.m * 32 + r.n * 8, r.n, 0.0),
    }
}

fn layout_at(r: Record) -> AcPfLayout
    requires { Fits r.s.now r.n r.m r.dim }
    ensures { let r = r.entry in result ≡ layout_told r.s.now (r.m * 32 + r.n * 16) r.n r.dim }
{
    AcPfLayout {
        n: r.n,
        va_of: told(r.s, r.m * 32 + r.n * 16, r.n, layout::NONE),
        vm_of: told(r.s, r.m * 32 + r.n * 16 + r.n * 8, r.n, layout::NONE),
        dim: r.dim,
    }
}

// ---- comparing

// What is compared: the same value, not only an equal one.
trait Same: Copy {
    fn same(self, other: Self) -> bool
        ensures { Tells result (self ≡ other) };
}

impl Same for f64 {
    fn same(self, other: f64) -> bool {
        vectors::same(self, other)
    }
}

impl Same for Complex {
    fn same(self, other: Complex) -> bool {
        vectors::same(self.re, other.re) & vectors::same(self.im, other.im)
    }
}

fn equal<T: Same>(xs: [T; 32], ys: [T; 32]) -> bool
    ensures { Tells result (xs ≡ ys) }
{
    for (b, &x) in xs.iter().enumerate() {
        if !x.same(ys[b]) {
            return false;
        }
    }
    true
}

fn injections_told(x: Injections, s: &[u8], from: usize, n: usize) -> bool
    requires { (n ≤ 32) × (from + n * 48 ≤ length s.now) }
    ensures { Tells result (x ≡ injections_told s.now from n) }
{
    equal(x.phasors.v, told(s, from, n, Complex::ZERO))
        & equal(x.phasors.i, told(s, from + n * 16, n, Complex::ZERO))
        & equal(x.power.p, told(s, from + n * 32, n, 0.0))
        & equal(x.power.q, told(s, from + n * 40, n, 0.0))
}

// The place i of the workspace: the block of dim rows and columns is told, row by row; every other is 0.0.
fn place(s: &[u8], from: usize, dim: usize, i: usize) -> f64
    requires { (dim ≤ 64) × (from + dim * dim * 8 ≤ length s.now) }
    ensures { result ≡ place_told s.now from dim i }
{
    let row = i / 64;
    let col = i % 64;
    if dim <= row || dim <= col {
        return 0.0;
    }
    let k = row * dim + col;
    vectors::double_at(s, from + k * 8)
}

fn space_told(w: &[f64], s: &[u8], from: usize, dim: usize) -> bool
    requires { (length w.now ≡ 4224) × (dim ≤ 64) × (from + dim * dim * 8 ≤ length s.now) }
    ensures { Tells result (Holds w.now s.now from dim) }
{
    for (i, &x) in w.iter().enumerate() {
        if !vectors::same(x, place(s, from, dim, i)) {
            return false;
        }
    }
    true
}

// ---- a point

fn injections_agree(r: Record, y: TripletColumns) -> bool
    requires { Fits r.s.now r.n r.m r.dim × (triplets_in y ≡ triplets_told r.s.now r.m) × GoodTriplets r.n (triplets_told r.s.now r.m) }
    ensures { let r = r.entry in Tells result (injections_at r.s.now r.n r.m ≡ injections_told r.s.now (r.m * 32 + r.n * 32) r.n) }
{
    let found = injections::ac_injections(r.n, y, voltages(r));
    injections_told(found, r.s, r.m * 32 + r.n * 32, r.n)
}

fn jacobian_at(w: &mut [f64], r: Record, y: TripletColumns)
    requires { (4160 ≤ length w.old) × Fits r.s.now r.n r.m r.dim × (triplets_in y ≡ triplets_told r.s.now r.m) × GoodTriplets r.n (triplets_told r.s.now r.m) }
    ensures { let r = r.entry in w.new ≡ jacobian_at r.s.now r.n r.m r.dim w.old }
{
    let p = voltages(r);
    let phasors = injections::bus_phasors(r.n, y, p);
    injections::ac_jacobian(r.n, y, p.va, phasors, layout_at(r), w);
}

fn jacobian_agrees(r: Record, y: TripletColumns) -> bool
    requires { Fits r.s.now r.n r.m r.dim × (triplets_in y ≡ triplets_told r.s.now r.m) × GoodTriplets r.n (triplets_told r.s.now r.m) }
    ensures { let r = r.entry in Tells result (Entries r.s.now r.n r.m r.dim) }
{
    let mut w = [0.0; 4224];
    jacobian_at(&mut w, r, y);
    space_told(&w, r.s, r.m * 32 + r.n * 80, r.dim)
}

// Whether each number of a column is below n.
fn below(n: usize, l: &[usize]) -> bool
    ensures { Tells result (Below n l.now) }
{
    network::first_missing(n, l).is_none()
}

fn agrees(r: Record, y: TripletColumns) -> bool
    requires { Fits r.s.now r.n r.m r.dim × (triplets_in y ≡ triplets_told r.s.now r.m) }
    ensures { let r = r.entry in Tells result (Agrees r.s.now r.n r.m r.dim) }
{
    let named = below(r.n, y.row) & below(r.n, y.col);
    if !named {
        return false;
    }
    injections_agree(r, y) && jacobian_agrees(r, y)
}

fn point(r: Record) -> bool
    requires { Fits r.s.now r.n r.m r.dim }
    ensures { let r = r.entry in Tells result (Agrees r.s.now r.n r.m r.dim) }
{
    let m = r.m;
    let row: [usize; 256] = told(r.s, 0, m, 0);
    let col: [usize; 256] = told(r.s, m * 8, m, 0);
    let re: [f64; 256] = told(r.s, m * 16, m, 0.0);
    let im: [f64; 256] = told(r.s, m * 24, m, 0.0);
    agrees(
        r,
        TripletColumns {
            row: &row[..m],
            col: &col[..m],
            re: &re[..m],
            im: &im[..m],
        },
    )
}

// Whether one point agrees; None where the input has no whole point left.
fn next(head: &mut [u8; 24], body: &mut [u8; 43520]) -> Option<bool>
    ensures { Found result (Agrees body.new (word_of 0 head.new) (word_of 8 head.new) (word_of 16 head.new)) }
{
    if !vectors::read(STDIN_FILENO, head, 24) {
        return None;
    }
    let n = vectors::word(head, 0) as usize;
    let m = vectors::word(head, 8) as usize;
    let dim = vectors::word(head, 16) as usize;
    if n > 32 || m > 256 || dim > 64 {
        return None;
    }
    if !vectors::read(STDIN_FILENO, body, m * 32 + n * 80 + dim * dim * 8) {
        return None;
    }
    Some(point(Record { s: body, n, m, dim }))
}

fn main() {
    let mut head = [0u8; 24];
    // room for the largest point
    let mut body = [0u8; 43520];
    vectors::read(STDIN_FILENO, &mut head, 8);
    let count = vectors::word(&head, 0);
    vectors::compare(b"points", count, || next(&mut head, &mut body));
}
