// Of pf_ac.rs: solve_qlim. Rounds of Newton's steps, after each of which buses with generators past their reactive limits are converted, and converted ones
// that could hold their voltage reverted.
#![tactic(auto)]

ghost use Rattle.std.specs.Prelude.{◌≡◌, ◌≤◌, length};
ghost use Rattle.newton.specs.Newton.{run, newton_of};
ghost use Rattle.qlim.specs.Rounds.{study_in, GoodStudy, settle_of, problem_for, moves_at, moves_after, done, qlim_of};

use layout::{AcPfLayout, BusKind, Limits, Point};
use moves::{Move, Track};
use network::TripletColumns;
use newton::{Ended, NewtonProblem};
use real::TOL;

// What stays the same through the rounds: the triplets, demands, scheduled generation, the limits and the held voltages of the n buses.
#[derive(Clone, Copy)]
pub struct QlimStudy<'a> {
    pub n: usize,
    pub y: TripletColumns<'a>,
    pub pd: &'a [f64],
    pub qd: &'a [f64],
    pub pg: &'a [f64],
    pub qg: [f64; 32],
    pub limits: Limits,
    pub hold: [f64; 32],
}

// The last round: Newton's end, the kinds and the schedule that it ran under. The residual is that of the end, or infinity where no kinds settled.
#[derive(Clone, Copy)]
pub struct Settled {
    pub ended: Ended,
    pub kinds: [BusKind; 32],
    pub schedule: [f64; 32],
    pub residual: f64,
}

// Newton's end under these kinds and schedules, with a residual.
fn settle(n: usize, kinds: [BusKind; 32], qsched: [f64; 32], e: Ended, residual: f64) -> Settled
    requires { n ≤ 32 }
    ensures { result ≡ settle_of n kinds qsched e residual }
{
    Settled {
        ended: e,
        kinds: moves::kept_kinds(n, kinds),
        schedule: moves::schedule(n, kinds, qsched),
        residual,
    }
}

// ---- a round

// Newton's steps under these kinds and schedules.
fn steps(s: &QlimStudy, kinds: [BusKind; 32], t: Track, p: Point, w: &mut [f64]) -> Ended
    requires { GoodStudy (study_in s.now) × (4160 ≤ length w.old) }
    ensures { run result w.new ≡ newton_of (problem_for (study_in s.now) kinds t) p w.old }
{
    let layout = AcPfLayout::with_kinds(s.n, kinds);
    let qg = t.qsched;
    let g = NewtonProblem {
        y: s.y,
        layout,
        pd: s.pd,
        qd: s.qd,
        pg: s.pg,
        qg,
    };
    newton::newton(&g, p, w)
}

// The moves at their end: all buses are tested against the one set of figures there.
fn moves_at_end(s: &QlimStudy, kinds: [BusKind; 32], t: Track, e: Ended) -> [Move; 32]
    requires { GoodStudy (study_in s.now) }
    ensures { result ≡ moves_at (study_in s.now) kinds t e }
{
    // Only a bus with a generator moves; without one no power is asked for.
    if !moves::any_generator(s.n, s.limits.has_gen) {
        return [Move::Keep; 32];
    }
    let power = injections::bus_powers(s.n, e.phasors);
    moves::moves(s.n, kinds, s.limits, t, s.qd, power.q, e.point.vm, s.hold)
}

// Those moves, unless they end the rounds: a residual does that is not small enough, and a round after which no bus moves.
#[tactic(auto, unfolding(crate::specs::Rounds::moves_after))]
fn moves_after(s: &QlimStudy, kinds: [BusKind; 32], t: Track, e: Ended) -> Option<[Move; 32]>
    requires { GoodStudy (study_in s.now) }
    ensures { result ≡ moves_after (study_in s.now) kinds t e }
{
    if e.residual >= TOL {
        return None;
    }
    let ms = moves_at_end(s, kinds, t, e);
    if moves::any_move(s.n, ms) {
        Some(ms)
    } else {
        None
    }
}

// ---- all rounds

// The kinds that come in are those of default_kinds. A bus that moves even after the twelfth round means that no kinds settled: infinity.
pub fn solve_qlim(s: &QlimStudy, default: [BusKind; 32], start: Point, w: &mut [f64]) -> Settled
    requires { GoodStudy (study_in s.now) × (4160 ≤ length w.old) }
    ensures { done result w.new ≡ qlim_of (study_in s.now) default start w.old }
{
    let mut kinds = default;
    let mut t = Track {
        qsched: s.qg,
        converted: [None; 32],
        reverted: [false; 32],
    };
    let mut p = moves::pin(s.n, default, s.hold, start);
    for _ in 0usize..11 {
        let e = steps(s, kinds, t, p, w);
        let Some(ms) = moves_after(s, kinds, t, e) else {
            return settle(s.n, kinds, t.qsched, e, e.residual);
        };
        let next = moves::kinds_after(s.n, kinds, ms);
        kinds = next;
        t = moves::track_after(s.n, t, s.limits, s.qg, ms);
        p = moves::pin(s.n, next, s.hold, e.point);
    }
    let e = steps(s, kinds, t, p, w);
    let moved = moves_after(s, kinds, t, e);
    let residual = if moved.is_some() {
        1.0 / 0.0
    } else {
        e.residual
    };
    settle(s.n, kinds, t.qsched, e, residual)
}
