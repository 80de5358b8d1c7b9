// Solves the systems of its input and compares the answer and every place of the workspace with what the input says
// (oracle/linsolve_vectors.py has the format). Places outside a system hold a mark of their own, which must stay.
#![tactic(auto)]

ghost use Rattle.std.specs.Prelude.{◌≡◌, ◌+◌, ◌*◌, ◌≤◌, ◌<◌, length, IfSome};
ghost use Rattle.vectors.specs.Words.{word_of, Tells, Found};
ghost use Rattle.linsolve_vectors.specs.Told.{size_of, slot_of, mark_of, told_of, Holds, number_of, Agrees};

use linsolve::Singular;
use vectors::STDIN_FILENO;

fn size(dim: usize) -> usize
    requires { dim ≤ 64 }
    ensures { (result ≡ size_of dim) × (result ≤ 4160) }
{
    dim * dim + dim
}

// Which place of a system the place i of the workspace is.
fn slot(dim: usize, i: usize) -> Option<usize>
    requires { dim ≤ 64 }
    ensures is { result ≡ slot_of dim i }
    ensures within { IfSome result (λ k. k < size_of dim) }
{
    let row = i / 64;
    let col = i % 64;
    if dim <= col {
        return None;
    }
    if row == 64 {
        return Some(col);
    }
    if row < dim {
        return Some(dim + row * dim + col);
    }
    None
}

fn mark(i: usize) -> f64
    requires { i < 4224 }
    ensures { result ≡ mark_of i }
{
    vectors::double(0xc330_0000_0000_0000 + i as u64)
}

fn told(s: &[u8], from: usize, dim: usize, i: usize) -> f64
    requires { (dim ≤ 64) × (i < 4224) × (from + size_of dim * 8 ≤ length s.now) }
    ensures { result ≡ told_of s.now from dim i }
{
    match slot(dim, i) {
        Some(k) => vectors::double_at(s, from + k * 8),
        None => mark(i),
    }
}

fn fill(w: &mut [f64], s: &[u8], dim: usize)
    requires { (dim ≤ 64) × (length w.old ≡ 4224) × (size_of dim * 8 ≤ length s.now) }
    ensures { Holds w.new s.now 0 dim }
{
    for (i, x) in w.iter_mut().enumerate() {
        *x = told(s, 0, dim, i);
    }
}

fn holds(w: &[f64], s: &[u8], from: usize, dim: usize) -> bool
    requires { (dim ≤ 64) × (length w.now ≡ 4224) × (from + size_of dim * 8 ≤ length s.now) }
    ensures { Tells result (Holds w.now s.now from dim) }
{
    for (i, &x) in w.iter().enumerate() {
        if !vectors::same(x, told(s, from, dim, i)) {
            return false;
        }
    }
    true
}

// The input's number of an answer: 64 for solved, a smaller one for the column without a pivot.
fn number(found: Result<(), Singular>) -> u64
    ensures { result ≡ number_of found }
{
    match found {
        Ok(()) => 64,
        Err(singular) => singular.column as u64,
    }
}

fn agrees(s: &[u8], dim: usize, answer: u64) -> bool
    requires { (dim ≤ 64) × (size_of dim * 16 ≤ length s.now) }
    ensures { Tells result (Agrees s.now dim answer) }
{
    let mut space = [0.0; 4224];
    let w: &mut [f64] = &mut space;
    fill(w, s, dim);
    let found = linsolve::solve(w, dim);
    if number(found) != answer {
        return false;
    }
    holds(w, s, size(dim) * 8, dim)
}

// Whether one system agrees; None where the input has no whole system left. Inlined into the loop over the systems it takes a quarter more time.
#[inline(never)]
fn next(head: &mut [u8; 16], body: &mut [u8; 66560]) -> Option<bool>
    ensures { Found result (Agrees body.new (word_of 0 head.new) (word_of 8 head.new)) }
{
    if !vectors::read(STDIN_FILENO, head, 16) {
        return None;
    }
    let dim = vectors::word(head, 0) as usize;
    if dim > 64 {
        return None;
    }
    if !vectors::read(STDIN_FILENO, body, size(dim) * 16) {
        return None;
    }
    Some(agrees(body, dim, vectors::word(head, 8)))
}

fn main() {
    let mut head = [0u8; 16];
    // room for the largest system, twice
    let mut body = [0u8; 66560];
    vectors::read(STDIN_FILENO, &mut head, 8);
    let count = vectors::word(&head, 0);
    vectors::compare(b"systems", count, || next(&mut head, &mut body));
}
