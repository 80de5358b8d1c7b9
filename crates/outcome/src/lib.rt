// What a solve over tables answers, and what it writes: the refusals, the five answer columns, the workspace.
#![tactic(auto)]

ghost use Rattle.std.specs.Prelude.{◌≡◌, ◌≤◌, ◌++◌, take, drop, length};
ghost use Rattle.network.specs.Columns.{triplets_in};
ghost use Rattle.injections.specs.Injections.{GoodTriplets};
ghost use Rattle.outcome.specs.Outcome.{paper_of, outs_in, outs_lent, SameOuts, OnePerBus, lengths_in, roomy, row_refusal, bus_refusal, with_answer, zeros, written, write_of};

use layout::{BusKind, Point};
use network::{MissingBus, Naming, TripletColumns};
use pf_ac::AcPf;

// A solved answer: the steps that Newton accepted, and the mismatch that is left.
#[derive(Clone, Copy, Debug, PartialEq)]
pub struct Solved {
    pub iterations: usize,
    pub residual: f64,
}

// The papers' refusals: Counts is 7, Room 9, Slack 8, Generator 11, Branch 12, Triplet 13, Tap 14, Ends 15, NotConverged 10. A row is the lowest of its
// table that is at fault, a field the first of that row that names a missing bus, 0 or 1. Triplet is for tables with triplets alone, Tap and Ends for tables
// of branches.
#[derive(Clone, Copy, Debug, PartialEq)]
pub enum Refusal {
    Counts,
    Room,
    Slack { row: usize },
    Generator { row: usize },
    Branch { row: usize, field: usize },
    Triplet { row: usize, field: usize },
    Tap { row: usize },
    Ends { row: usize },
    NotConverged { mismatch: f64, starts: usize },
}

// The five answer columns, lent for writing.
#[derive(Drop)]
pub struct AnswerColumnsMut<'a> {
    pub vm: &'a mut [f64],
    pub va: &'a mut [f64],
    pub p: &'a mut [f64],
    pub q: &'a mut [f64],
    pub kinds: &'a mut [u8],
}

// The same, lent for reading.
#[derive(Clone, Copy)]
pub struct AnswerColumns<'a> {
    pub vm: &'a [f64],
    pub va: &'a [f64],
    pub p: &'a [f64],
    pub q: &'a [f64],
    pub kinds: &'a [u8],
}

// How many places each of them has.
#[derive(Clone, Copy)]
pub struct Lengths {
    pub vm: usize,
    pub va: usize,
    pub p: usize,
    pub q: usize,
    pub kinds: usize,
}

// ---- the checks

impl AnswerColumnsMut<'_> {
    // What was written, for reading.
    pub fn read(&self) -> AnswerColumns<'_>
        ensures { outs_in result ≡ outs_lent self.now }
    {
        AnswerColumns {
            vm: self.vm,
            va: self.va,
            p: self.p,
            q: self.q,
            kinds: self.kinds,
        }
    }

    // How many places each column has.
    pub fn lengths(&self) -> Lengths
        ensures { result ≡ lengths_in (outs_lent self.now) }
    {
        Lengths {
            vm: self.vm.len(),
            va: self.va.len(),
            p: self.p.len(),
            q: self.q.len(),
            kinds: self.kinds.len(),
        }
    }
}

impl Lengths {
    // Whether each column has a place for each of n buses, and the workspace its w places: refusal 9, where not.
    #[tactic(auto, unfolding(real::specs::Tests::both, crate::specs::Outcome::roomy))]
    pub fn roomy(self, n: usize, w: usize) -> bool
        ensures { result ≡ roomy n self w }
    {
        (n <= self.vm)
            & ((n <= self.va)
                & ((n <= self.p) & ((n <= self.q) & ((n <= self.kinds) & (6144 <= w)))))
    }
}

// The refusal of a row that names a missing bus, by its table: 8, 11, 12 or 13.
impl From<MissingBus> for Refusal {
    ghost from_gives = { λ m r. r ≡ row_refusal m.table m.row m.field };

    fn from(m: MissingBus) -> Refusal {
        let row = m.row;
        let field = m.field;
        match m.table {
            Naming::Slack => Refusal::Slack { row },
            Naming::Generator => Refusal::Generator { row },
            Naming::Branch => Refusal::Branch { row, field },
            Naming::Triplet => Refusal::Triplet { row, field },
        }
    }
}

// The refusal of a missing bus, or none.
pub fn bus_refusal(m: Option<MissingBus>) -> Result<(), Refusal>
    ensures { result ≡ bus_refusal m }
{
    match m {
        Some(at) => Err(Refusal::from(at)),
        None => Ok(()),
    }
}

// ---- what is written

// One place per bus, and none past them.
fn fill<T: Copy>(n: usize, from: &[T], out: &mut [T])
    requires { (n ≤ length from.now) × (n ≤ length out.old) }
    ensures { out.new ≡ take n from.now ++ drop n out.old }
{
    out[..n].copy_from_slice(&from[..n]);
}

// The five answer columns, with the powers that the voltages carry.
fn write_answer(
    n: usize,
    y: TripletColumns,
    point: Point,
    kept: [BusKind; 32],
    out: &mut AnswerColumnsMut,
)
    requires { GoodTriplets n (triplets_in y) × OnePerBus n (lengths_in (outs_lent out.old)) }
    ensures written { outs_lent out.new ≡ with_answer n (triplets_in y.entry) point kept (outs_lent out.old) }
    ensures same_columns { SameOuts out.old out.new }
{
    let letters = moves::letters(n, kept);
    let power = injections::ac_injections(n, y, point).power;
    fill(n, &point.vm, out.vm);
    fill(n, &point.va, out.va);
    fill(n, &power.p, out.p);
    fill(n, &power.q, out.q);
    fill(n, &letters, out.kinds);
}

// The whole workspace, however long, is zeros.
#[tactic(auto, unfolding(crate::specs::Outcome::zeros))]
pub fn zero(w: &mut [f64])
    ensures { w.new ≡ zeros w.old }
{
    w.fill(0.0);
}

// Answers, and writes the columns of a solved one.
pub fn write(
    n: usize,
    y: TripletColumns,
    found: AcPf,
    point: Point,
    kept: [BusKind; 32],
    out: &mut AnswerColumnsMut,
) -> Result<Solved, Refusal>
    requires { GoodTriplets n (triplets_in y) × OnePerBus n (lengths_in (outs_lent out.old)) }
    ensures written { written (paper_of result) (outs_lent out.new) ≡ write_of n (triplets_in y.entry) found point kept (outs_lent out.old) }
    ensures same_columns { SameOuts out.old out.new }
{
    match found {
        AcPf::Solved {
            iterations,
            residual,
        } => {
            write_answer(n, y, point, kept, out);
            Ok(Solved {
                iterations,
                residual,
            })
        }
        AcPf::NotConverged { mismatch, starts } => Err(Refusal::NotConverged { mismatch, starts }),
    }
}
