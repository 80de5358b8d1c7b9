// Of ac.rs: the admittances of a branch, the list of the admittance matrix's entries that the branches give, and the first branch at fault.
#![tactic(auto)]

ghost use Rattle.std.specs.Prelude.{◌≡◌, ◌<◌, ◌≤◌, length, get_or, replicate};
ghost use Rattle.real.specs.First.{first_below};
ghost use Rattle.network.specs.Below.{Below};
ghost use Rattle.network.specs.Network.{branches_of};
ghost use Rattle.network.specs.Checks.{SizedBranches};
ghost use Rattle.network.specs.BranchTable.{Values, branch_table_of, SizedValues};
ghost use Rattle.network.specs.Columns.{branches_in, triplets_in, values_in};
ghost use Rattle.layout.specs.Table.{stores};
ghost use Rattle.ybus.specs.Branch.{branch_at, admittance_of};
ghost use Rattle.ybus.specs.Listed.{pairs};
ghost use Rattle.ybus.specs.Ybus.{Fit, entries_of, admittances_of, sums_to, bus_column, diagonal_parts, with_branches, list_in};
ghost use Rattle.ybus.specs.Fault.{row_fails, row_fault, fault_of};

use complex::Complex;
use network::{BranchColumns, TripletColumns, ValueColumns};

// A branch: its series admittance g + jb, the shunts at its two ends, tap and shift, and sw, which multiplies all it gives: 1.0 is on, 0.0 off.
#[derive(Clone, Copy)]
pub struct Branch {
    pub g: f64,
    pub b: f64,
    pub g_fr: f64,
    pub b_fr: f64,
    pub g_to: f64,
    pub b_to: f64,
    pub tap: f64,
    pub shift: f64,
    pub sw: f64,
}

// The four admittances of a branch: from-from, from-to, to-from, to-to.
#[derive(Clone, Copy)]
pub struct Admittance {
    pub ff: Complex,
    pub ft: Complex,
    pub tf: Complex,
    pub tt: Complex,
}

// The real and the imaginary parts of the list's entries.
#[derive(Clone, Copy)]
struct Parts {
    re: [f64; 160],
    im: [f64; 160],
}

// The list as four columns, of which the first `count` places are its entries.
#[derive(Clone, Copy)]
pub struct Entries {
    pub count: usize,
    pub row: [usize; 160],
    pub col: [usize; 160],
    pub re: [f64; 160],
    pub im: [f64; 160],
}

// What is at fault in a row: 14, its tap is not above zero, or 15, it joins a bus to itself.
#[derive(Clone, Copy, Debug, PartialEq, Eq)]
pub enum Fault {
    Tap(usize),
    Ends(usize),
}

// ---- a branch

pub fn branch_admittance(x: Branch) -> Admittance
    ensures { result ≡ admittance_of x }
{
    let y = Complex::new(x.g, x.b);
    let t = Complex::polar(x.tap, x.shift);
    let y_fr = Complex::new(x.g_fr, x.b_fr);
    let y_to = Complex::new(x.g_to, x.b_to);
    let against = t.conjugate();
    let ff = (y + y_fr) / (x.tap * x.tap) * x.sw;
    let ft = -y / against * x.sw;
    let tf = -y / t * x.sw;
    let tt = (y + y_to) * x.sw;
    Admittance { ff, ft, tf, tt }
}

// ---- all branches

// Row e of the columns.
fn branch_at(e: usize, v: ValueColumns) -> Branch
    requires within { let w : Values = values_in v in (e < length w.g) × SizedValues (length w.g) w }
    ensures { result ≡ branch_at (values_in v.entry) e }
{
    Branch {
        g: v.g[e],
        b: v.b[e],
        g_fr: v.g_fr[e],
        b_fr: v.b_fr[e],
        g_to: v.g_to[e],
        b_to: v.b_to[e],
        tap: v.tap[e],
        shift: v.shift[e],
        sw: v.sw[e],
    }
}

pub fn admittances(v: ValueColumns) -> [Admittance; 64]
    requires { let w : Values = values_in v in (length w.g ≤ 64) × SizedValues (length w.g) w }
    ensures { let w : Values = values_in v.entry in result ≡ admittances_of (length w.g) w }
{
    let zero = Complex::ZERO;
    let mut all = [Admittance {
        ff: zero,
        ft: zero,
        tf: zero,
        tt: zero,
    }; 64];
    for e in 0..v.g.len() {
        all[e] = branch_admittance(branch_at(e, v));
    }
    all
}

// ---- the list

// At each bus, in branch order, the sum of y_ff of the branches from it and of y_tt of those to it.
fn diagonals(ends: BranchColumns, y: [Admittance; 64]) -> [Complex; 32]
    requires { SizedBranches (branches_in ends) × Below 32 ends.from.now × Below 32 ends.to.now }
    ensures { result ≡ sums_to (length ends.entry.from.now) (branches_in ends.entry) y }
{
    let mut d = [Complex::ZERO; 32];
    for e in 0..ends.from.len() {
        let i = ends.from[e];
        let k = ends.to[e];
        d[i] = d[i] + y[e].ff;
        d[k] = d[k] + y[e].tt;
    }
    d
}

// Each bus number at its own place.
fn bus_numbers(n: usize) -> [usize; 160]
    requires { n ≤ 32 }
    ensures { result ≡ stores (λ b. b) n (replicate 160 0) }
{
    let mut l = [0usize; 160];
    for b in 0..n {
        l[b] = b;
    }
    l
}

// After the places of n buses, a and b of each branch.
fn with_ends(n: usize, a: &[usize], b: &[usize], l: [usize; 160]) -> [usize; 160]
    requires { (n ≤ 32) × SizedBranches (branches_of a.now b.now) }
    ensures { result ≡ pairs n (length a.now) (λ e. get_or a.now e 0) (λ e. get_or b.now e 0) l }
{
    let mut out = l;
    for e in 0..a.len() {
        let at = n + 2 * e;
        out[at] = a[e];
        out[at + 1] = b[e];
    }
    out
}

// The rows or the columns of the list: each bus, then a and b of each branch.
fn bus_column(n: usize, a: &[usize], b: &[usize]) -> [usize; 160]
    requires { (n ≤ 32) × SizedBranches (branches_of a.now b.now) }
    ensures { result ≡ bus_column n a.now b.now }
{
    let l = bus_numbers(n);
    with_ends(n, a, b, l)
}

// The sum of each bus at its place.
fn diagonal_parts(n: usize, d: [Complex; 32]) -> Parts
    requires { n ≤ 32 }
    ensures { result ≡ diagonal_parts n d }
{
    let mut re = [0.0; 160];
    let mut im = [0.0; 160];
    for b in 0..n {
        re[b] = d[b].re;
        im[b] = d[b].im;
    }
    Parts { re, im }
}

// After the places of n buses, y_ft and y_tf of each of m branches.
fn with_branches(n: usize, m: usize, y: [Admittance; 64], parts: Parts) -> Parts
    requires { (n ≤ 32) × (m ≤ 64) }
    ensures { result ≡ with_branches n m y parts }
{
    let mut re = parts.re;
    let mut im = parts.im;
    for e in 0..m {
        let at = n + 2 * e;
        re[at] = y[e].ft.re;
        re[at + 1] = y[e].tf.re;
        im[at] = y[e].ft.im;
        im[at + 1] = y[e].tf.im;
    }
    Parts { re, im }
}

// The list of entries that the branches make: a diagonal entry for each bus, then two entries for each branch.
pub fn build_ybus(n: usize, ends: BranchColumns, values: ValueColumns) -> Entries
    requires { Fit n (branch_table_of (branches_in ends) (values_in values)) }
    ensures { result ≡ entries_of n (branch_table_of (branches_in ends.entry) (values_in values.entry)) }
{
    let m = ends.from.len();
    let y = admittances(values);
    let d = diagonals(ends, y);
    let row = bus_column(n, ends.from, ends.to);
    let col = bus_column(n, ends.to, ends.from);
    let parts = with_branches(n, m, y, diagonal_parts(n, d));
    let re = parts.re;
    let im = parts.im;
    Entries {
        count: n + 2 * m,
        row,
        col,
        re,
        im,
    }
}

impl Entries {
    // The list: the first places of each column.
    pub fn triplets(&self) -> TripletColumns<'_>
        requires { self.now.count ≤ 160 }
        ensures { triplets_in result ≡ list_in self.now }
    {
        TripletColumns {
            row: &self.row[..self.count],
            col: &self.col[..self.count],
            re: &self.re[..self.count],
            im: &self.im[..self.count],
        }
    }
}

// ---- refusals 14 and 15

// The first row at fault, one way or the other.
fn first_fault(ends: BranchColumns, tap: &[f64]) -> Option<usize>
    requires { (length ends.to.now ≡ length ends.from.now) × (length tap.now ≡ length ends.from.now) }
    ensures { result ≡ first_below (length ends.entry.from.now) (row_fails (branches_in ends.entry) tap.now) }
{
    for e in 0..ends.from.len() {
        if !(tap[e] > 0.0) | (ends.from[e] == ends.to[e]) {
            return Some(e);
        }
    }
    None
}

// The fault of a row at fault: its tap's first.
fn row_fault(row: usize, tap: f64) -> Fault
    ensures { result ≡ row_fault row tap }
{
    if tap > 0.0 {
        return Fault::Ends(row);
    }
    Fault::Tap(row)
}

// The lowest branch at fault, if any: its tap is not above zero, or its ends are one bus.
pub fn branch_fault(ends: BranchColumns, tap: &[f64]) -> Option<Fault>
    requires { (length ends.to.now ≡ length ends.from.now) × (length tap.now ≡ length ends.from.now) }
    ensures { result ≡ fault_of (branches_in ends.entry) tap.now }
{
    let row = first_fault(ends, tap)?;
    Some(row_fault(row, tap[row]))
}
