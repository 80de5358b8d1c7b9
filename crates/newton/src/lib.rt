// Of pf_ac.rs: take_step and newton. Newton's steps at one typing of the buses, from a start, with a search for the step's length.
#![tactic(auto)]

ghost use Rattle.std.specs.Prelude.{◌≡◌, ◌≤◌, length};
ghost use Rattle.real.specs.Literals.{one};
ghost use Rattle.linsolve.specs.Linear.{outcome};
ghost use Rattle.network.specs.Columns.{triplets_in};
ghost use Rattle.injections.specs.Injections.{GoodTriplets};
ghost use Rattle.newton.specs.Step.{moved_by, step_of, unfit_at, unfit_to};
ghost use Rattle.newton.specs.Newton.{problem_in, GoodProblem, measured_of, sides_to, direction_of, attempt_of, tries_from, ended, last_ending, run, newton_of};

use injections::Phasors;
use layout::{AcPfLayout, NONE, Point, PowerColumns};
use linsolve::Singular;
use network::TripletColumns;
use real::TOL;

// What stays the same through a run: the triplets, the layout, demands and scheduled generation.
#[derive(Clone, Copy)]
pub struct NewtonProblem<'a> {
    pub y: TripletColumns<'a>,
    pub layout: AcPfLayout,
    pub pd: &'a [f64],
    pub qd: &'a [f64],
    pub pg: &'a [f64],
    pub qg: [f64; 32],
}

// What was worked out at a point: voltages and currents, the mismatch at each row, and its norm.
#[derive(Clone, Copy)]
pub struct Measured {
    pub phasors: Phasors,
    pub r: [f64; 64],
    pub residual: f64,
}

// A trial that was taken: the new point, with what was worked out there.
#[derive(Clone, Copy)]
struct Trial {
    point: Point,
    at: Measured,
}

// How the steps ended: below the tolerance, at a column without a pivot, no length helped, or all were spent.
#[derive(Clone, Copy, Debug, PartialEq, Eq)]
pub enum Ending {
    Converged,
    Singular(usize),
    Stuck,
    Spent,
}

// The point where the steps ended, how many were accepted, what was worked out there, and why they ended.
#[derive(Clone, Copy)]
pub struct Ended {
    pub point: Point,
    pub phasors: Phasors,
    pub iterations: usize,
    pub residual: f64,
    pub ending: Ending,
}

// ---- a trial point

// x + alpha * dx, with dx as the solve left it; x where there is no column.
#[tactic(auto, unfolding(crate::specs::Step::moved_by))]
fn moved(x: f64, c: usize, alpha: f64, w: &[f64]) -> f64
    requires { 4160 ≤ length w.now }
    ensures { result ≡ moved_by x c alpha w.now }
{
    if c < NONE { x + alpha * w[4096 + c] } else { x }
}

#[tactic(auto, unfolding(layout::specs::Table::stores, crate::specs::Step::step_of))]
fn take_step(layout: AcPfLayout, p: Point, w: &[f64], alpha: f64) -> Point
    requires { (layout.n ≤ 32) × (4160 ≤ length w.now) }
    ensures { result ≡ step_of layout p w.now alpha }
{
    let mut t = p;
    for b in 0..layout.n {
        t.va[b] = moved(p.va[b], layout.va_of[b], alpha, w);
        t.vm[b] = moved(p.vm[b], layout.vm_of[b], alpha, w);
    }
    t
}

// A magnitude that is NaN or not above zero, or an angle that is NaN.
#[tactic(auto, unfolding(crate::specs::Step::unfit_at))]
fn unfit_at(m: f64, a: f64) -> bool
    ensures { result ≡ unfit_at m a }
{
    real::is_nan(m) || m <= 0.0 || real::is_nan(a)
}

#[tactic(auto, unfolding(real::specs::Any::any_below))]
fn unfit(n: usize, p: Point) -> bool
    requires { n ≤ 32 }
    ensures { result ≡ unfit_to n p }
{
    let mut bad = false;
    for b in 0..n {
        bad |= unfit_at(p.vm[b], p.va[b]);
    }
    bad
}

// ---- a point measured

#[tactic(auto, unfolding(crate::specs::Newton::measured_of))]
fn measure(g: &NewtonProblem, p: Point) -> Measured
    requires { GoodProblem (problem_in g.now) }
    ensures { result ≡ measured_of (problem_in g.now) p }
{
    let found = injections::ac_injections(g.layout.n, g.y, p);
    let qg = g.qg;
    let p = found.power.p;
    let q = found.power.q;
    let w = PowerColumns {
        pd: g.pd,
        qd: g.qd,
        pg: g.pg,
        qg,
        p,
        q,
    };
    let r = g.layout.residual(&w);
    let residual = real::inf_norm(g.layout.dim, &r);
    Measured {
        phasors: found.phasors,
        r,
        residual,
    }
}

// ---- the direction

// The mismatch as the right side.
fn load_sides(dim: usize, r: [f64; 64], w: &mut [f64])
    requires { (dim ≤ 64) × (4160 ≤ length w.old) }
    ensures { w.new ≡ sides_to dim r w.old }
{
    w[4096..4096 + dim].copy_from_slice(&r[..dim]);
}

// Solves for the step at a point. It stands in the right side's places.
#[tactic(auto, unfolding(crate::specs::Newton::direction_of))]
fn direction(g: &NewtonProblem, va: [f64; 32], m: Measured, w: &mut [f64]) -> Result<(), Singular>
    requires { GoodTriplets g.now.layout.n (triplets_in g.now.y) × (g.now.layout.dim ≤ 64) × (4160 ≤ length w.old) }
    ensures { outcome result w.new ≡ direction_of (triplets_in g.now.y) g.now.layout va m w.old }
{
    let dim = g.layout.dim;
    linsolve::clear(w, dim);
    injections::ac_jacobian(g.layout.n, g.y, va, m.phasors, g.layout, w);
    load_sides(dim, m.r, w);
    linsolve::solve(w, dim)
}

// ---- the length

// One length: taken only if the trial is fit and its norm strictly lower.
#[tactic(auto, unfolding(crate::specs::Newton::attempt_of))]
fn attempt(g: &NewtonProblem, p: Point, m: Measured, w: &[f64], alpha: f64) -> Option<Trial>
    requires { GoodProblem (problem_in g.now) × (4160 ≤ length w.now) }
    ensures { result ≡ attempt_of (measured_of (problem_in g.now)) g.now.layout p m w.now alpha }
{
    let t = take_step(g.layout, p, w, alpha);
    if unfit(g.layout.n, t) {
        return None;
    }
    let tm = measure(g, t);
    if tm.residual < m.residual {
        return Some(Trial { point: t, at: tm });
    }
    None
}

// Twelve lengths from 1, halving.
fn search(g: &NewtonProblem, p: Point, m: Measured, w: &[f64]) -> Option<Trial>
    requires { GoodProblem (problem_in g.now) × (4160 ≤ length w.now) }
    ensures { result ≡ tries_from 12 (measured_of (problem_in g.now)) g.now.layout p m w.now one }
{
    let mut alpha = 1.0;
    for _ in 0usize..12 {
        let t = attempt(g, p, m, w, alpha);
        if t.is_some() {
            return t;
        }
        alpha *= 0.5;
    }
    None
}

// ---- the steps

fn last_ending(residual: f64) -> Ending
    ensures { result ≡ last_ending residual }
{
    if residual < TOL {
        Ending::Converged
    } else {
        Ending::Spent
    }
}

impl Ended {
    // The end at a point, with what was worked out there.
    fn at(point: Point, iterations: usize, m: Measured, ending: Ending) -> Ended
        ensures { result ≡ ended point iterations m ending }
    {
        Ended {
            point,
            phasors: m.phasors,
            iterations,
            residual: m.residual,
            ending,
        }
    }
}

// At most 50 steps. What the accepted trial has worked out is carried on.
pub fn newton(g: &NewtonProblem, start: Point, w: &mut [f64]) -> Ended
    requires { GoodProblem (problem_in g.now) × (4160 ≤ length w.old) }
    ensures { run result w.new ≡ newton_of (problem_in g.now) start w.old }
{
    let mut p = start;
    let mut m = measure(g, p);
    for it in 0..50 {
        if m.residual < TOL {
            return Ended::at(p, it, m, Ending::Converged);
        }
        if let Err(singular) = direction(g, p.va, m, w) {
            return Ended::at(p, it, m, Ending::Singular(singular.column));
        }
        let Some(t) = search(g, p, m, w) else {
            return Ended::at(p, it, m, Ending::Stuck);
        };
        p = t.point;
        m = t.at;
    }
    Ended::at(p, 49, m, last_ending(m.residual))
}
