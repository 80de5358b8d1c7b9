// The solve over tables of branches: the public call. The list of the admittance matrix's entries is built from the branches, the tables with that list as their
// triplets are solved as those of the first edition are, and a solved answer is given the flows of its branches.
#![tactic(auto)]

ghost use Rattle.std.specs.Prelude.{◌≡◌, length};
ghost use Rattle.network.specs.Columns.{branch_network_in};
ghost use Rattle.outcome.specs.Outcome.{outs_lent, SameOuts, lengths_in, paper_of};
ghost use Rattle.flows.specs.Flows.{flows_lent, SameFlows, flows_room};
ghost use Rattle.tables.specs.Tables.{answer};
ghost use Rattle.branch_checks.specs.BranchChecks.{checked_branches_of};
ghost use Rattle.branch_tables.specs.BranchTables.{ReadyBranches, branch_answer, ran_branches, solve_branches_of};

use flows::FlowColumnsMut;
use network::{BranchTables, TripletColumns};
use outcome::{AnswerColumnsMut, Refusal, Solved};
use starts::AcStart;

// ---- the checks

// The refusals before 10, in their order.
fn check_branches(
    t: BranchTables,
    out: &AnswerColumnsMut,
    flows: &FlowColumnsMut,
    w: &[f64],
) -> Result<(), Refusal>
    ensures { result ≡ checked_branches_of (branch_network_in t.entry) (lengths_in (outs_lent out.now)) (flows_room (flows_lent flows.now)) (length w.now) }
{
    let m = t.ends.from.len();
    let bare = t.with_triplets(TripletColumns::none());
    let counts = t.values.counted(m) & bare.counted();
    if !counts {
        return Err(Refusal::Counts);
    }
    let n = t.buses.kind.len();
    let room = out.lengths().roomy(n, w.len()) & (m <= flows.room());
    if !room {
        return Err(Refusal::Room);
    }
    branch_checks::check_rows(n, t.slacks.bus, t.generators.bus, t.ends, t.values.tap)
}

// ---- the solve of ready tables

// With the list built from the branches, and the flows where it is solved.
fn solve_built(
    t: BranchTables,
    start: AcStart,
    out: &mut AnswerColumnsMut,
    flows: &mut FlowColumnsMut,
    w: &mut [f64],
) -> Result<Solved, Refusal>
    requires { ReadyBranches (branch_network_in t) (lengths_in (outs_lent out.old)) (flows_room (flows_lent flows.old)) (length w.old) }
    ensures answer { branch_answer (answer (paper_of result) (outs_lent out.new) w.new) (flows_lent flows.new)
        ≡ ran_branches start (branch_network_in t.entry) (outs_lent out.old) (flows_lent flows.old) w.old }
    ensures same_columns { SameOuts out.old out.new × SameFlows flows.old flows.new }
{
    let y = ybus::build_ybus(t.buses.kind.len(), t.ends, t.values);
    let built = t.with_triplets(y.triplets());
    let solved = tables::solve_ready(built, start, out, w)?;
    let all = ybus::admittances(t.values);
    let a = out.read();
    flows::write_flows(t.ends, all, a.vm, a.va, flows);
    Ok(solved)
}

// ---- the call

pub fn solve(
    t: BranchTables,
    start: AcStart,
    out: &mut AnswerColumnsMut,
    flows: &mut FlowColumnsMut,
    w: &mut [f64],
) -> Result<Solved, Refusal>
    ensures answer { branch_answer (answer (paper_of result) (outs_lent out.new) w.new) (flows_lent flows.new)
        ≡ solve_branches_of start (branch_network_in t.entry) (outs_lent out.old) (flows_lent flows.old) w.old }
    ensures same_columns { SameOuts out.old out.new × SameFlows flows.old flows.new }
{
    check_branches(t, out, flows, w)?;
    solve_built(t, start, out, flows, w)
}
