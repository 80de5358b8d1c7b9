// Of solve_qlim in pf_ac.rs: what becomes of each bus between two rounds. Every bus is tested against the figures of Newton's end, and then all move at once.
#![tactic(auto)]

ghost use Rattle.std.specs.Prelude.{◌≡◌, ◌≤◌, length};
ghost use Rattle.moves.specs.Moves.{move_pv, move_pq, move_of, kind_after, tracked_after, pin_of, sched_at};
ghost use Rattle.moves.specs.Moves.{moves_of, any_generator, any_move, kinds_after, track_after, pinned, schedule_of, kept_kinds, letters_of};

use layout::{BusKind, Limits, Point};
use real::{Q_TOL, V_BACK};

// What a bus does after a round: it is kept, converted to Q at a limit, or reverted to V.
#[derive(Clone, Copy, Debug, PartialEq, Eq)]
pub enum Move {
    Keep,
    AtMax,
    AtMin,
    Revert,
}

// The limit at which a converted bus is fixed: qmax or qmin.
#[derive(Clone, Copy, Debug, PartialEq, Eq)]
pub enum Limit {
    Max,
    Min,
}

// What a round changes beside the kinds: each bus's schedule, the limit at which it is fixed if it is converted, and whether it has been reverted.
// Tables of their own, since the schedules are handed to Newton by themselves.
#[derive(Clone, Copy)]
pub struct Track {
    pub qsched: [f64; 32],
    pub converted: [Option<Limit>; 32],
    pub reverted: [bool; 32],
}

// ---- one bus

// A bus at Newton's end: what it is, its reactive generation and limits, what earlier rounds made of it, its voltage and the one it is to hold.
#[derive(Clone, Copy)]
struct BusAtEnd {
    kind: BusKind,
    has_gen: bool,
    q: f64,
    qmin: f64,
    qmax: f64,
    converted: Option<Limit>,
    reverted: bool,
    v: f64,
    hold: f64,
}

impl BusAtEnd {
    #[tactic(auto, unfolding(crate::specs::Moves::move_pv))]
    fn move_pv(self) -> Move
        ensures { result ≡ move_pv self.q self.qmin self.qmax }
    {
        if self.q > self.qmax + Q_TOL {
            Move::AtMax
        } else if self.q < self.qmin - Q_TOL {
            Move::AtMin
        } else {
            Move::Keep
        }
    }

    // A converted bus that could hold its voltage within the limit is reverted, once at most.
    #[tactic(auto, unfolding(crate::specs::Moves::move_pq))]
    fn move_pq(self) -> Move
        ensures { result ≡ move_pq self.converted self.reverted self.v self.hold }
    {
        if self.reverted {
            return Move::Keep;
        }
        let holds = match self.converted {
            Some(Limit::Max) => self.v > self.hold + V_BACK,
            Some(Limit::Min) => self.v < self.hold - V_BACK,
            None => false,
        };
        if holds { Move::Revert } else { Move::Keep }
    }

    #[tactic(auto, unfolding(crate::specs::Moves::move_of))]
    fn next_move(self) -> Move
        ensures { result ≡ move_of self.kind self.has_gen self.q self.qmin self.qmax self.converted self.reverted self.v self.hold }
    {
        if !self.has_gen {
            return Move::Keep;
        }
        match self.kind {
            BusKind::Slack => Move::Keep,
            BusKind::Pv => self.move_pv(),
            BusKind::Pq => self.move_pq(),
        }
    }
}

impl Move {
    fn kind_after(self, k: BusKind) -> BusKind
        ensures { result ≡ kind_after self k }
    {
        match self {
            Move::Keep => k,
            Move::AtMax | Move::AtMin => BusKind::Pq,
            Move::Revert => BusKind::Pv,
        }
    }
}

// What a round changes of one bus beside its kind.
#[derive(Clone, Copy)]
struct Tracked {
    qsched: f64,
    converted: Option<Limit>,
    reverted: bool,
}

impl Tracked {
    fn after(self, m: Move, qmin: f64, qmax: f64, qg: f64) -> Tracked
        ensures { result ≡ tracked_after m self qmin qmax qg }
    {
        match m {
            Move::Keep => self,
            Move::AtMax => Tracked {
                qsched: qmax,
                converted: Some(Limit::Max),
                reverted: self.reverted,
            },
            Move::AtMin => Tracked {
                qsched: qmin,
                converted: Some(Limit::Min),
                reverted: self.reverted,
            },
            Move::Revert => Tracked {
                qsched: qg,
                converted: None,
                reverted: true,
            },
        }
    }
}

fn pin_of(k: BusKind, v: f64, hold: f64) -> f64
    ensures { result ≡ pin_of k v hold }
{
    if k == BusKind::Pq { v } else { hold }
}

fn sched_at(k: BusKind, q: f64) -> f64
    ensures { result ≡ sched_at k q }
{
    if k == BusKind::Pq { q } else { 0.0 }
}

// ---- all buses

#[tactic(auto, unfolding(layout::specs::Table::stores, crate::specs::Moves::moves_of))]
pub fn moves(
    n: usize,
    kinds: [BusKind; 32],
    limits: Limits,
    t: Track,
    qd: &[f64],
    q_calc: [f64; 32],
    vm: [f64; 32],
    vm_hold: [f64; 32],
) -> [Move; 32]
    requires { (n ≤ 32) × (n ≤ length qd.now) }
    ensures { result ≡ moves_of n kinds limits t qd.now q_calc vm vm_hold }
{
    let mut ms = [Move::Keep; 32];
    for b in 0..n {
        let bus = BusAtEnd {
            kind: kinds[b],
            has_gen: limits.has_gen[b],
            q: q_calc[b] + qd[b],
            qmin: limits.qmin[b],
            qmax: limits.qmax[b],
            converted: t.converted[b],
            reverted: t.reverted[b],
            v: vm[b],
            hold: vm_hold[b],
        };
        ms[b] = bus.next_move();
    }
    ms
}

pub fn any_move(n: usize, ms: [Move; 32]) -> bool
    requires { n ≤ 32 }
    ensures { result ≡ any_move n ms }
{
    ms[..n].iter().any(|&m| m != Move::Keep)
}

#[tactic(auto, unfolding(layout::specs::Table::stores, crate::specs::Moves::kinds_after))]
pub fn kinds_after(n: usize, kinds: [BusKind; 32], ms: [Move; 32]) -> [BusKind; 32]
    requires { n ≤ 32 }
    ensures { result ≡ kinds_after n kinds ms }
{
    let mut next = kinds;
    for b in 0..n {
        next[b] = ms[b].kind_after(kinds[b]);
    }
    next
}

#[tactic(auto, unfolding(layout::specs::Table::stores, crate::specs::Moves::track_after))]
pub fn track_after(n: usize, t: Track, limits: Limits, qg: [f64; 32], ms: [Move; 32]) -> Track
    requires { n ≤ 32 }
    ensures { result ≡ track_after n t limits qg ms }
{
    let mut next = t;
    for b in 0..n {
        let was = Tracked {
            qsched: t.qsched[b],
            converted: t.converted[b],
            reverted: t.reverted[b],
        };
        let bus = was.after(ms[b], limits.qmin[b], limits.qmax[b], qg[b]);
        next.qsched[b] = bus.qsched;
        next.converted[b] = bus.converted;
        next.reverted[b] = bus.reverted;
    }
    next
}

// Generator buses regulate to the held voltage.
#[tactic(auto, unfolding(layout::specs::Table::stores, crate::specs::Moves::pinned))]
pub fn pin(n: usize, kinds: [BusKind; 32], vm_hold: [f64; 32], p: Point) -> Point
    requires { n ≤ 32 }
    ensures { result ≡ pinned n kinds vm_hold p }
{
    let mut t = p;
    for b in 0..n {
        t.vm[b] = pin_of(kinds[b], p.vm[b], vm_hold[b]);
    }
    t
}

// What is scheduled at the Q buses: no other bus's figure is read by Newton.
#[tactic(auto, unfolding(layout::specs::Table::stores, crate::specs::Moves::schedule_of))]
pub fn schedule(n: usize, kinds: [BusKind; 32], qsched: [f64; 32]) -> [f64; 32]
    requires { n ≤ 32 }
    ensures { result ≡ schedule_of n kinds qsched }
{
    let mut t = [0.0; 32];
    for b in 0..n {
        t[b] = sched_at(kinds[b], qsched[b]);
    }
    t
}

// The kinds of the n buses; the places past them are slack.
pub fn kept_kinds(n: usize, kinds: [BusKind; 32]) -> [BusKind; 32]
    requires { n ≤ 32 }
    ensures { result ≡ kept_kinds n kinds }
{
    layout::column(n, BusKind::Slack, &kinds)
}

#[tactic(auto, unfolding(layout::specs::Table::stores, crate::specs::Moves::letters_of))]
pub fn letters(n: usize, kinds: [BusKind; 32]) -> [u8; 32]
    requires { n ≤ 32 }
    ensures { result ≡ letters_of n kinds }
{
    let mut ls = [0u8; 32];
    for b in 0..n {
        ls[b] = kinds[b].letter();
    }
    ls
}

pub fn any_generator(n: usize, has_gen: [bool; 32]) -> bool
    requires { n ≤ 32 }
    ensures { result ≡ any_generator n has_gen }
{
    has_gen[..n].iter().any(|&has| has)
}
