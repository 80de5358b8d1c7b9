// What is checked of the rows of tables of branches: bus numbers, then taps and ends.
#![tactic(auto)]

ghost use Rattle.std.specs.Prelude.{◌≡◌, length};
ghost use Rattle.network.specs.Columns.{branches_in};
ghost use Rattle.branch_checks.specs.BranchChecks.{fault_refusal, checked_rows};

use network::{BranchColumns, TripletColumns};
use outcome::Refusal;
use ybus::Fault;

// The refusal of a branch at fault, or none: 14 or 15.
fn fault_refusal(f: Option<Fault>) -> Result<(), Refusal>
    ensures { result ≡ fault_refusal f }
{
    match f {
        Some(Fault::Tap(row)) => Err(Refusal::Tap { row }),
        Some(Fault::Ends(row)) => Err(Refusal::Ends { row }),
        None => Ok(()),
    }
}

// 8, 11 and 12 of rows that name a missing bus, then 14 and 15.
pub fn check_rows(
    n: usize,
    slacks: &[usize],
    gen_bus: &[usize],
    ends: BranchColumns,
    tap: &[f64],
) -> Result<(), Refusal>
    requires { (length ends.to.now ≡ length ends.from.now) × (length tap.now ≡ length ends.from.now) }
    ensures { result ≡ checked_rows n slacks.now gen_bus.now (branches_in ends.entry) tap.now }
{
    let none = TripletColumns::none();
    outcome::bus_refusal(network::missing_bus(n, slacks, gen_bus, ends, none))?;
    fault_refusal(ybus::branch_fault(ends, tap))
}
