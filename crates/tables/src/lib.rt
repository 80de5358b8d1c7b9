// The solve over tables: the public call. Counts, lengths and bus numbers are checked, in that order, before anything is written.
#![tactic(auto)]

ghost use Rattle.std.specs.Prelude.{◌≡◌, ◌≤◌, length};
ghost use Rattle.network.specs.Network.{Network, bus_count};
ghost use Rattle.network.specs.Columns.{network_in};
ghost use Rattle.network.specs.Checks.{WellIndexed};
ghost use Rattle.outcome.specs.Outcome.{paper_of, outs_lent, SameOuts, OnePerBus, lengths_in};
ghost use Rattle.tables.specs.Tables.{checked_of, ran, run_of, answer, after_run, solve_of};

use network::Tables;
use outcome::{AnswerColumnsMut, Lengths, Refusal, Solved};
use pf_ac::Kept;
use starts::AcStart;

// Refusals 7, 9, 8, 11, 12 and 13, in that order, where the answer columns have so many places, and the workspace w of them.
pub fn check(t: Tables, out: Lengths, w: usize) -> Result<(), Refusal>
    ensures { result ≡ checked_of (network_in t.entry) out w }
{
    if !t.counted() {
        return Err(Refusal::Counts);
    }
    let n = t.buses.kind.len();
    if !out.roomy(n, w) {
        return Err(Refusal::Room);
    }
    outcome::bus_refusal(network::missing_bus(
        n,
        t.slacks.bus,
        t.generators.bus,
        t.branches,
        t.triplets,
    ))
}

// From ready tables to the result kept, with the workspace cleared.
pub fn run(t: Tables, start: AcStart, w: &mut [f64]) -> Kept
    requires { WellIndexed (network_in t) × (6144 ≤ length w.old) }
    ensures { ran result.found result.best w.new ≡ run_of start (network_in t.entry) w.old }
{
    let r = pf_ac::ac_pf_with_start(t, start, w);
    outcome::zero(w);
    r
}

// The answer to ready tables. The solve over branches ends with it too.
pub fn solve_ready(
    t: Tables,
    start: AcStart,
    out: &mut AnswerColumnsMut,
    w: &mut [f64],
) -> Result<Solved, Refusal>
    requires { let m : Network = network_in t in
        WellIndexed m × OnePerBus (bus_count m) (lengths_in (outs_lent out.old)) × (6144 ≤ length w.old) }
    ensures answer { let m : Network = network_in t.entry in
        answer (paper_of result) (outs_lent out.new) w.new ≡ after_run m (outs_lent out.old) (run_of start m w.old) }
    ensures same_columns { SameOuts out.old out.new }
{
    let r = run(t, start, w);
    let found = r.found;
    let point = r.best.ended.point;
    let kept = r.best.kinds;
    outcome::write(t.buses.kind.len(), t.triplets, found, point, kept, out)
}

// ---- the call

pub fn solve(
    t: Tables,
    start: AcStart,
    out: &mut AnswerColumnsMut,
    w: &mut [f64],
) -> Result<Solved, Refusal>
    ensures answer { answer (paper_of result) (outs_lent out.new) w.new ≡ solve_of start (network_in t.entry) (outs_lent out.old) w.old }
    ensures same_columns { SameOuts out.old out.new }
{
    check(t, out.lengths(), w.len())?;
    solve_ready(t, start, out, w)
}
