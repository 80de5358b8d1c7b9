// Of pf_ac.rs: ac_pf_with_start. The starts in turn, each through the limit rounds; the best result is kept, and the first below the tolerance ends it.
#![tactic(auto)]

ghost use Rattle.std.specs.Prelude.{◌≡◌, ◌≤◌, false, length};
ghost use Rattle.network.specs.Columns.{network_in};
ghost use Rattle.network.specs.Checks.{WellIndexed};
ghost use Rattle.qlim.specs.Rounds.{study_in, GoodStudy};
ghost use Rattle.starts.specs.References.{SlacksBelow};
ghost use Rattle.pf_ac.specs.Search.{better_of, first_start, nth_start, start_count, searched, verdict_of, search_of};
ghost use Rattle.pf_ac.specs.WithStart.{ac_pf_of};

use layout::{BusKind, Point};
use network::{BusColumns, Tables};
use qlim::{QlimStudy, Settled};
use real::TOL;
use starts::{AcStart, References};

// Solved with its residual, or not converged with the best mismatch.
#[derive(Clone, Copy, Debug, PartialEq)]
pub enum AcPf {
    Solved { iterations: usize, residual: f64 },
    NotConverged { mismatch: f64, starts: usize },
}

// The outcome, and the result that was kept.
#[derive(Clone, Copy)]
pub struct Kept {
    pub found: AcPf,
    pub best: Settled,
}

// ---- the starts

fn first_start(start: AcStart, n: usize, buses: BusColumns, r: References, flat: Point) -> Point
    requires { (n ≤ 32) × (n ≤ length buses.vm_set.now) × (n ≤ length buses.vm_case.now) × (n ≤ length buses.va_case.now) × SlacksBelow n r }
    ensures { result ≡ first_start start n buses.entry.vm_set.now buses.entry.vm_case.now buses.entry.va_case.now r flat }
{
    match start {
        AcStart::Flat => flat,
        AcStart::Case => starts::case_start(n, buses, r),
    }
}

// The first start, and then those from the flat one on.
#[tactic(auto, unfolding(crate::specs::Search::nth_start))]
fn start_at(
    start: AcStart,
    n: usize,
    kinds: [BusKind; 32],
    first: Point,
    flat: Point,
    i: usize,
) -> Point
    requires { (n ≤ 32) × (i ≤ 32) }
    ensures { result ≡ nth_start start n kinds first flat i }
{
    if i == 0 {
        return first;
    }
    match start {
        AcStart::Flat => starts::from_flat(n, kinds, flat, i),
        AcStart::Case => starts::from_flat(n, kinds, flat, i - 1),
    }
}

fn start_count(start: AcStart) -> usize
    ensures { (result ≡ start_count start) × (result ≤ 6) }
{
    match start {
        AcStart::Flat => 5,
        AcStart::Case => 6,
    }
}

// ---- the search

// Any result replaces the one kept that is no NaN and is smaller or follows a NaN.
#[tactic(auto, unfolding(crate::specs::Search::better_of))]
fn better(best: f64, res: f64) -> bool
    ensures { result ≡ better_of false best res }
{
    !real::is_nan(res) && (real::is_nan(best) || res < best)
}

// What the residual and the iterations of the result kept make of the search: solved, or not yet.
fn verdict(residual: f64, iterations: usize, starts: usize) -> AcPf
    ensures { result ≡ verdict_of residual iterations starts }
{
    if residual < TOL {
        return AcPf::Solved {
            iterations,
            residual,
        };
    }
    AcPf::NotConverged {
        mismatch: residual,
        starts,
    }
}

fn search(
    start: AcStart,
    s: &QlimStudy,
    kinds: [BusKind; 32],
    first: Point,
    flat: Point,
    w: &mut [f64],
) -> Kept
    requires { GoodStudy (study_in s.now) × (4160 ≤ length w.old) }
    ensures { searched result.found result.best w.new ≡ search_of start (study_in s.now) kinds first flat w.old }
{
    let count = start_count(start);
    let mut best = qlim::solve_qlim(s, kinds, first, w);
    for i in 1..count {
        if best.residual < TOL {
            break;
        }
        let p = start_at(start, s.n, kinds, first, flat, i);
        let next = qlim::solve_qlim(s, kinds, p, w);
        if better(best.residual, next.residual) {
            best = next;
        }
    }
    let found = verdict(best.residual, best.ended.iterations, count);
    Kept { found, best }
}

// ---- all of it

pub fn ac_pf_with_start(t: Tables, start: AcStart, w: &mut [f64]) -> Kept
    requires { WellIndexed (network_in t) × (4160 ≤ length w.old) }
    ensures { searched result.found result.best w.new ≡ ac_pf_of start (network_in t.entry) w.old }
{
    let n = t.buses.kind.len();
    let kinds = layout::default_kinds(n, t.buses.kind, t.slacks.bus);
    let limits = layout::aggregate_q(t.generators);
    let references = starts::island_references(n, t.slacks, t.branches);
    let flat = starts::flat_start(n, t.buses.vm_set, references);
    let first = first_start(start, n, t.buses, references, flat);
    let qg = layout::column(n, 0.0, t.buses.qg);
    let hold = layout::column(n, 0.0, t.buses.vm_set);
    let s = QlimStudy {
        n,
        y: t.triplets,
        pd: t.buses.pd,
        qd: t.buses.qd,
        pg: t.buses.pg,
        qg,
        limits,
        hold,
    };
    search(start, &s, kinds, first, flat, w)
}
