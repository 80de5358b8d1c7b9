// The dense linear solve of at most 64 unknowns over the lent workspace: row r, column c of the matrix stands at r * 64 + c,
// the right side of row r at 4096 + r. The solution is left in the right side's places.
#![tactic(auto)]

ghost use Rattle.std.specs.Prelude.{◌≡◌, ◌+◌, ◌-◌, ◌*◌, ◌≤◌, ◌<◌, length, unwrap_or, IfSome};
ghost use Rattle.real.specs.Literals.{nought};
ghost use Rattle.linsolve.specs.Linear.{at, zeroed, cleared, added, pivot_from, swap_rows, sub_row, after_pivot, sub_lower, outcome, reduce, less_known, substitute, solution};

// The solve failed: this is the first column without a pivot.
#[derive(Clone, Copy, Debug, PartialEq, Eq)]
pub struct Singular {
    pub column: usize,
}

fn clear_from(w: &mut [f64], start: usize, count: usize)
    requires { start + count ≤ length w.old }
    ensures { w.new ≡ zeroed count start w.old }
{
    w[start..start + count].fill(0.0);
}

// The zero matrix of dim unknowns, with its right sides.
pub fn clear(w: &mut [f64], dim: usize)
    requires { (4160 ≤ length w.old) × (dim ≤ 64) }
    ensures { w.new ≡ cleared dim w.old }
{
    for r in 0..dim {
        clear_from(w, r * 64, dim);
    }
    clear_from(w, 4096, dim);
}

pub fn add_entry(w: &mut [f64], row: usize, col: usize, x: f64)
    requires { (4160 ≤ length w.old) × (row < 64) × (col < 64) }
    ensures { w.new ≡ added row col x w.old }
{
    let i = row * 64 + col;
    w[i] = w[i] + x;
}

// The row of the pivot of a column, at or below the diagonal.
fn pivot_row(w: &[f64], dim: usize, col: usize) -> Option<usize>
    requires { (4160 ≤ length w.now) × (dim ≤ 64) × (col < dim) }
    ensures is { unwrap_or result dim ≡ pivot_from (dim - col) col col nought dim w.now }
    ensures within { IfSome result (λ p. p < dim) }
{
    let mut best = 0.0;
    let mut p = None;
    for r in col..dim {
        let i = r * 64 + col;
        let x = real::abs(w[i]);
        if x > best {
            best = x;
            p = Some(r);
        }
    }
    p
}

fn swap_rows(w: &mut [f64], dim: usize, a: usize, b: usize)
    requires { (4160 ≤ length w.old) × (dim ≤ 64) × (a < dim) × (b < dim) }
    ensures { w.new ≡ swap_rows dim 0 a b w.old }
{
    if a == b {
        return;
    }
    for c in 0..dim {
        w.swap(a * 64 + c, b * 64 + c);
    }
    w.swap(4096 + a, 4096 + b);
}

// Subtracts f times row p from row r, after column p: that column and those further left are read no more.
fn sub_row(w: &mut [f64], dim: usize, p: usize, r: usize, f: f64)
    requires { (4160 ≤ length w.old) × (dim ≤ 64) × (p < dim) × (r < dim) }
    ensures { w.new ≡ sub_row (dim - (p + 1)) (p + 1) p r f w.old }
{
    for c in p + 1..dim {
        let i = r * 64 + c;
        let j = p * 64 + c;
        w[i] = w[i] - f * w[j];
    }
    let side = 4096 + r;
    let known = 4096 + p;
    w[side] = w[side] - f * w[known];
}

fn sub_lower(w: &mut [f64], dim: usize, p: usize)
    requires { (4160 ≤ length w.old) × (dim ≤ 64) × (p < dim) }
    ensures { w.new ≡ sub_lower after_pivot (dim - (p + 1)) (p + 1) p dim w.old }
{
    for r in p + 1..dim {
        let i = r * 64 + p;
        let j = p * 64 + p;
        let f = w[i] / w[j];
        sub_row(w, dim, p, r, f);
    }
}

fn reduce_rows(w: &mut [f64], dim: usize) -> Result<(), Singular>
    requires { (4160 ≤ length w.old) × (dim ≤ 64) }
    ensures { outcome result w.new ≡ reduce after_pivot dim 0 dim w.old }
{
    for col in 0..dim {
        let Some(p) = pivot_row(w, dim, col) else {
            return Err(Singular { column: col });
        };
        swap_rows(w, dim, col, p);
        sub_lower(w, dim, col);
    }
    Ok(())
}

// The right side of row r less the products of its entries and the unknowns after it, in rising column order.
fn less_known(w: &[f64], dim: usize, r: usize) -> f64
    requires { (4160 ≤ length w.now) × (dim ≤ 64) × (r < dim) }
    ensures { result ≡ less_known (dim - (r + 1)) (r + 1) r (at w.now (4096 + r)) w.now }
{
    let side = 4096 + r;
    let mut acc = w[side];
    for c in r + 1..dim {
        let i = r * 64 + c;
        let j = 4096 + c;
        acc = acc - w[i] * w[j];
    }
    acc
}

fn substitute_back(w: &mut [f64], dim: usize)
    requires { (4160 ≤ length w.old) × (dim ≤ 64) }
    ensures { w.new ≡ substitute dim dim w.old }
{
    for r in (0..dim).rev() {
        let x = less_known(w, dim, r);
        let i = 4096 + r;
        let j = r * 64 + r;
        w[i] = x / w[j];
    }
}

pub fn solve(w: &mut [f64], dim: usize) -> Result<(), Singular>
    requires { (4160 ≤ length w.old) × (dim ≤ 64) }
    ensures { outcome result w.new ≡ solution dim w.old }
{
    reduce_rows(w, dim)?;
    substitute_back(w, dim);
    Ok(())
}
