// Of sens/ac.rs: the power that enters a branch at each of its ends, and what the branch loses.
#![tactic(auto)]

ghost use Rattle.std.specs.Prelude.{◌≡◌, length, ◌<◌};
ghost use Rattle.network.specs.Below.{Below};
ghost use Rattle.network.specs.Columns.{branches_in};
ghost use Rattle.network.specs.Checks.{SizedBranches};
ghost use Rattle.injections.specs.Injections.{voltage_at};
ghost use Rattle.ybus.specs.Ybus.{admittance_at};
ghost use Rattle.flows.specs.Flows.{flow_of, flows_lent, SameFlows, flows_room, blank_flows, OnePerBranch, with_flows_by};

use complex::Complex;
use network::BranchColumns;
use ybus::Admittance;

// What enters one branch: active and reactive power at its from end and at its to end; and the loss.
#[derive(Clone, Copy)]
pub struct Flow {
    pub pf: f64,
    pub qf: f64,
    pub pt: f64,
    pub qt: f64,
    pub loss: f64,
}

// The same of up to 64 branches, in the columns in which they are lent and printed.
#[derive(Clone, Copy)]
pub struct Flows {
    pub pf: [f64; 64],
    pub qf: [f64; 64],
    pub pt: [f64; 64],
    pub qt: [f64; 64],
    pub loss: [f64; 64],
}

// Five columns of flows, lent for writing.
#[derive(Drop)]
pub struct FlowColumnsMut<'a> {
    pub pf: &'a mut [f64],
    pub qf: &'a mut [f64],
    pub pt: &'a mut [f64],
    pub qt: &'a mut [f64],
    pub loss: &'a mut [f64],
}

impl FlowColumnsMut<'_> {
    // How many branches there is room for: the fewest places that a column has.
    pub fn room(&self) -> usize
        ensures { result ≡ flows_room (flows_lent self.now) }
    {
        let from = self.pf.len().min(self.qf.len());
        let to = self.pt.len().min(self.qt.len());
        from.min(to).min(self.loss.len())
    }
}

// Zeros.
pub fn blank() -> Flows
    ensures { result ≡ blank_flows }
{
    let zeros = [0.0; 64];
    Flows {
        pf: zeros,
        qf: zeros,
        pt: zeros,
        qt: zeros,
        loss: zeros,
    }
}

// ---- a branch

// From its admittances and the voltages of its ends.
fn branch_flow(y: Admittance, from: Complex, to: Complex) -> Flow
    ensures { result ≡ flow_of y from to }
{
    let i_from = y.ff * from + y.ft * to;
    let i_to = y.tf * from + y.tt * to;
    let against_from = i_from.conjugate();
    let against_to = i_to.conjugate();
    let s_from = from * against_from;
    let s_to = to * against_to;
    Flow {
        pf: s_from.re,
        qf: s_from.im,
        pt: s_to.re,
        qt: s_to.im,
        loss: s_from.re + s_to.re,
    }
}

// The voltage of bus b.
fn voltage(b: usize, vm: &[f64], va: &[f64]) -> Complex
    requires { (b < length vm.now) × (b < length va.now) }
    ensures { result ≡ voltage_at vm.now va.now b }
{
    Complex::polar(vm[b], va[b])
}

// ---- all branches

// The flows of all branches, whose admittances are y, at the voltages of a solved answer: one place per branch in each column, and none past them.
pub fn write_flows(
    ends: BranchColumns,
    y: [Admittance; 64],
    vm: &[f64],
    va: &[f64],
    out: &mut FlowColumnsMut,
)
    requires sized_branches { SizedBranches (branches_in ends) × OnePerBranch (length ends.from.now) (flows_lent out.old) }
    requires below { Below (length vm.now) ends.from.now × Below (length va.now) ends.from.now × Below (length vm.now) ends.to.now × Below (length va.now) ends.to.now }
    ensures flows { flows_lent out.new
        ≡ with_flows_by (branches_in ends.entry) (admittance_at y) vm.now va.now (flows_lent out.old) }
    ensures same_columns { SameFlows out.old out.new }
{
    for e in 0..ends.from.len() {
        let v_from = voltage(ends.from[e], vm, va);
        let v_to = voltage(ends.to[e], vm, va);
        let f = branch_flow(y[e], v_from, v_to);
        out.pf[e] = f.pf;
        out.qf[e] = f.qf;
        out.pt[e] = f.pt;
        out.qt[e] = f.qt;
        out.loss[e] = f.loss;
    }
}
