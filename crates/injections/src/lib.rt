// Of pf_ac.rs: the injections that voltages give, and the Jacobian of the power flow, added into the workspace.
#![tactic(auto)]

ghost use Rattle.std.specs.Prelude.{◌≡◌, ◌<◌, ◌≤◌, length, get_or};
ghost use Rattle.network.specs.Below.{Below};
ghost use Rattle.network.specs.Network.{Triplets};
ghost use Rattle.network.specs.Columns.{triplets_in};
ghost use Rattle.injections.specs.Injections.{GoodTriplets, voltages_of, currents_to, phasors_of, injected_of, injections_of};
ghost use Rattle.injections.specs.Jacobian.{angle_on, angle_off, magnitude_part, on_diagonal, off_diagonal, derivatives_of, entered, entered_row, entered_all, jacobian_of};

use complex::Complex;
use layout::{AcPfLayout, Point};
use network::TripletColumns;

// The voltage and the current of each bus.
#[derive(Clone, Copy)]
pub struct Phasors {
    pub v: [Complex; 32],
    pub i: [Complex; 32],
}

// Active and reactive power of each bus.
#[derive(Clone, Copy)]
pub struct Injected {
    pub p: [f64; 32],
    pub q: [f64; 32],
}

#[derive(Clone, Copy)]
pub struct Injections {
    pub phasors: Phasors,
    pub power: Injected,
}

// The derivatives of a bus's power by an angle and by a magnitude.
#[derive(Clone, Copy)]
struct Derivatives {
    dva: Complex,
    dvm: Complex,
}

// The row of a triplet: its bus, and the voltage and the current there.
#[derive(Clone, Copy)]
struct Row {
    bus: usize,
    v: Complex,
    i: Complex,
}

// The column of a triplet: its bus, the voltage there, and the voltage of magnitude one at its angle.
#[derive(Clone, Copy)]
struct Column {
    bus: usize,
    v: Complex,
    unit: Complex,
}

// ---- injections

// The bus number of triplet t, of a column of triplets.
fn bus(buses: &[usize], t: usize, n: usize) -> usize
    requires { (t < length buses.now) × (n ≤ 32) × Below n buses.now }
    ensures { (result ≡ get_or buses.now t 0) × (result < n) × (result < 32) }
{
    buses[t]
}

fn voltages(n: usize, p: Point) -> [Complex; 32]
    requires { n ≤ 32 }
    ensures { result ≡ voltages_of n p.vm p.va }
{
    let mut v = [Complex::ZERO; 32];
    for b in 0..n {
        v[b] = Complex::polar(p.vm[b], p.va[b]);
    }
    v
}

fn currents(n: usize, y: TripletColumns, v: [Complex; 32]) -> [Complex; 32]
    requires { GoodTriplets n (triplets_in y) }
    ensures { let y : Triplets = triplets_in y.entry in result ≡ currents_to (length y.row) y v }
{
    let mut i = [Complex::ZERO; 32];
    for t in 0..y.row.len() {
        let b = bus(y.row, t, n);
        let k = bus(y.col, t, n);
        let x = Complex::new(y.re[t], y.im[t]) * v[k];
        i[b] = i[b] + x;
    }
    i
}

// Voltages from magnitudes and angles, and the currents that they drive.
pub fn bus_phasors(n: usize, y: TripletColumns, p: Point) -> Phasors
    requires { GoodTriplets n (triplets_in y) }
    ensures { result ≡ phasors_of n (triplets_in y.entry) p.vm p.va }
{
    let v = voltages(n, p);
    let i = currents(n, y, v);
    Phasors { v, i }
}

// S = v conj(i) at each bus.
pub fn bus_powers(n: usize, s: Phasors) -> Injected
    requires { n ≤ 32 }
    ensures { result ≡ injected_of n s }
{
    let mut p = [0.0; 32];
    let mut q = [0.0; 32];
    for b in 0..n {
        let against = s.i[b].conjugate();
        let x = s.v[b] * against;
        p[b] = x.re;
        q[b] = x.im;
    }
    Injected { p, q }
}

pub fn ac_injections(n: usize, y: TripletColumns, p: Point) -> Injections
    requires { GoodTriplets n (triplets_in y) }
    ensures { result ≡ injections_of n (triplets_in y.entry) p.vm p.va }
{
    let phasors = bus_phasors(n, y, p);
    let power = bus_powers(n, phasors);
    Injections { phasors, power }
}

// ---- the Jacobian

// By an angle: v is the bus's voltage, c its current.
fn angle_on_diagonal(y: Complex, v: Complex, c: Complex) -> Complex
    ensures { result ≡ angle_on y v c }
{
    let against = (c - y * v).conjugate();
    Complex::I * v * against
}

// v is the voltage at the triplet's row, vk that at its column.
fn angle_off_diagonal(y: Complex, v: Complex, vk: Complex) -> Complex
    ensures { result ≡ angle_off y v vk }
{
    let against = (y * vk).conjugate();
    -Complex::I * v * against
}

// By a magnitude: u is the voltage of magnitude one at the triplet's column.
fn magnitude_part(y: Complex, v: Complex, u: Complex) -> Complex
    ensures { result ≡ magnitude_part y v u }
{
    let y_conj = y.conjugate();
    let u_conj = u.conjugate();
    v * y_conj * u_conj
}

fn on_diagonal(y: Complex, v: Complex, c: Complex, u: Complex) -> Derivatives
    ensures { result ≡ on_diagonal y v c u }
{
    let dva = angle_on_diagonal(y, v, c);
    let own = magnitude_part(y, v, u);
    let dvm = own + c.conjugate() * u;
    Derivatives { dva, dvm }
}

fn off_diagonal(y: Complex, v: Complex, vk: Complex, u: Complex) -> Derivatives
    ensures { result ≡ off_diagonal y v vk u }
{
    let dva = angle_off_diagonal(y, v, vk);
    let dvm = magnitude_part(y, v, u);
    Derivatives { dva, dvm }
}

// The derivatives of the power at the row's bus by the angle and the magnitude at the column's, as far as one triplet gives them.
fn derivatives_at(y: Complex, row: Row, col: Column) -> Derivatives
    ensures { result ≡ derivatives_of row.bus col.bus y row.v row.i col.v col.unit }
{
    if row.bus == col.bus {
        return on_diagonal(y, row.v, row.i, col.unit);
    }
    off_diagonal(y, row.v, col.v, col.unit)
}

// Adds an entry where its row and its column exist.
fn enter(w: &mut [f64], row: usize, col: usize, x: f64)
    requires { 4160 ≤ length w.old }
    ensures { w.new ≡ entered row col x w.old }
{
    if row < layout::NONE && col < layout::NONE {
        linsolve::add_entry(w, row, col, x);
    }
}

// The entries of one row: x in the angle's column, then y in the magnitude's.
fn enter_row(w: &mut [f64], row: usize, va: usize, vm: usize, x: f64, y: f64)
    requires { 4160 ≤ length w.old }
    ensures { w.new ≡ entered_row row va vm x y w.old }
{
    enter(w, row, va, x);
    enter(w, row, vm, y);
}

// The entries of a triplet, active row first: p and q are its rows, va and vm its columns.
fn enter_all(w: &mut [f64], p: usize, q: usize, va: usize, vm: usize, d: Derivatives)
    requires { 4160 ≤ length w.old }
    ensures { w.new ≡ entered_all p q va vm d w.old }
{
    enter_row(w, p, va, vm, d.dva.re, d.dvm.re);
    enter_row(w, q, va, vm, d.dva.im, d.dvm.im);
}

pub fn ac_jacobian(
    n: usize,
    y: TripletColumns,
    va: [f64; 32],
    s: Phasors,
    layout: AcPfLayout,
    w: &mut [f64],
)
    requires { GoodTriplets n (triplets_in y) × (4160 ≤ length w.old) }
    ensures { w.new ≡ jacobian_of (triplets_in y.entry) va s layout w.old }
{
    // Voltages of magnitude one, once for each bus and not for each triplet.
    let unit = voltages(n, Point { vm: [1.0; 32], va });
    for t in 0..y.row.len() {
        let i = bus(y.row, t, n);
        let k = bus(y.col, t, n);
        let entry = Complex::new(y.re[t], y.im[t]);
        let row = Row {
            bus: i,
            v: s.v[i],
            i: s.i[i],
        };
        let col = Column {
            bus: k,
            v: s.v[k],
            unit: unit[k],
        };
        let d = derivatives_at(entry, row, col);
        let p_row = layout.va_of[i];
        let q_row = layout.vm_of[i];
        let va_col = layout.va_of[k];
        let vm_col = layout.vm_of[k];
        enter_all(w, p_row, q_row, va_col, vm_col, d);
    }
}
