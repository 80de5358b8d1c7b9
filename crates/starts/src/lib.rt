// Of pf_ac.rs: AcStart, island_references, case_start and the other starts of ac_pf_with_start.
#![tactic(auto)]

ghost use Rattle.std.specs.Prelude.{◌≡◌, ◌≤◌, ◌<◌, ℕ, Some, length};
ghost use Rattle.network.specs.Below.{Below};
ghost use Rattle.islands.specs.Islands.{Ends};
ghost use Rattle.starts.specs.References.{Numbered, SlacksBelow, by_island, references_of};
ghost use Rattle.starts.specs.Starts.{finite_or, magnitude_for, slack_angle, angle_for, case_of, flat_of, nudged, scaled, perturbed_of, from_flat};

use layout::{BusKind, Point};
use network::{BranchColumns, BusColumns, SlackColumns};

// Where the iteration starts: flat, or the stored case state first.
#[derive(Clone, Copy, Debug, PartialEq, Eq)]
pub enum AcStart {
    Flat,
    Case,
}

// Of each bus: the slack of its island, if there is one, and the reference angle. Tables of their own, since the angles are those of the flat start.
#[derive(Clone, Copy)]
pub struct References {
    pub slack: [Option<usize>; 32],
    pub va: [f64; 32],
}

// ---- references

// The reference of each island, by its label: the later slack row sets it.
fn by_island(slacks: SlackColumns, labels: [usize; 32]) -> References
    requires { (length slacks.angle.now ≡ length slacks.bus.now) × Below 32 slacks.bus.now × Numbered slacks.bus.now labels }
    ensures { result ≡ by_island slacks.entry.bus.now slacks.entry.angle.now labels }
{
    let mut slack = [None; 32];
    let mut va = [0.0; 32];
    for i in 0..slacks.bus.len() {
        let bus = slacks.bus[i];
        let l = labels[bus];
        slack[l] = Some(bus);
        va[l] = slacks.angle[i];
    }
    References { slack, va }
}

// Each bus's island slack and that slack's reference angle.
pub fn island_references(n: usize, slacks: SlackColumns, branches: BranchColumns) -> References
    requires { (n ≤ 32) × (length slacks.angle.now ≡ length slacks.bus.now) × Below n slacks.bus.now × Ends n branches.from.now branches.to.now }
    ensures { result ≡ references_of n slacks.entry.bus.now slacks.entry.angle.now branches.entry.from.now branches.entry.to.now }
{
    let labels = islands::dense_islands(n, branches.from, branches.to);
    let island = by_island(slacks, labels);
    let mut slack = [None; 32];
    let mut va = [0.0; 32];
    for b in 0..n {
        let l = labels[b];
        slack[b] = island.slack[l];
        va[b] = island.va[l];
    }
    References { slack, va }
}

// ---- the flat start

pub fn flat_start(n: usize, vm_set: &[f64], r: References) -> Point
    requires { (n ≤ 32) × (n ≤ length vm_set.now) }
    ensures { result ≡ flat_of n vm_set.now r }
{
    let vm = layout::column(n, 0.0, vm_set);
    let va = layout::column(n, 0.0, &r.va);
    Point { vm, va }
}

// ---- the case start

#[tactic(auto, unfolding(crate::specs::Starts::finite_or))]
fn finite_or(x: f64) -> f64
    ensures { result ≡ finite_or x }
{
    if real::is_finite(x) { x } else { 0.0 }
}

// The stored magnitude where it is one, else the set one.
#[tactic(auto, unfolding(crate::specs::Starts::magnitude_for))]
fn magnitude_for(stored: f64, set: f64) -> f64
    ensures { result ≡ magnitude_for stored set }
{
    if real::is_finite(stored) && stored > 0.0 {
        stored
    } else {
        set
    }
}

// The stored angle of the slack, if there is one.
#[tactic(auto, unfolding(crate::specs::Starts::slack_angle))]
fn slack_angle(va_case: &[f64], slack: Option<usize>) -> f64
    requires { (s : ℕ) → slack ≡ Some s → s < length va_case.now }
    ensures { result ≡ slack_angle va_case.now slack }
{
    match slack {
        Some(s) => finite_or(va_case[s]),
        None => 0.0,
    }
}

#[tactic(auto, unfolding(crate::specs::Starts::angle_for))]
fn angle_for(reference: f64, stored: f64, slack: f64) -> f64
    ensures { result ≡ angle_for reference stored slack }
{
    reference + finite_or(stored - slack)
}

// The stored state: angles relative to the island's slack, shifted to its reference.
#[tactic(auto, unfolding(layout::specs::Table::stores, crate::specs::Starts::case_of))]
pub fn case_start(n: usize, buses: BusColumns, r: References) -> Point
    requires { (n ≤ 32) × (n ≤ length buses.vm_set.now) × (n ≤ length buses.vm_case.now) × (n ≤ length buses.va_case.now) × SlacksBelow n r }
    ensures { result ≡ case_of n buses.entry.vm_set.now buses.entry.vm_case.now buses.entry.va_case.now r }
{
    let mut vm = [0.0; 32];
    let mut va = [0.0; 32];
    for b in 0..n {
        vm[b] = magnitude_for(buses.vm_case[b], buses.vm_set[b]);
        let s = slack_angle(buses.va_case, r.slack[b]);
        va[b] = angle_for(r.va[b], buses.va_case[b], s);
    }
    Point { vm, va }
}

// ---- the perturbed starts

fn nudge(k: BusKind, x: f64, bus: usize, r: usize) -> f64
    ensures { result ≡ nudged k x bus r }
{
    if k == BusKind::Slack {
        return x;
    }
    x + 0.10 * mix::mix(bus as u64, r as u64)
}

fn scale(k: BusKind, x: f64, bus: usize, r: usize) -> f64
    requires { r ≤ 32 }
    ensures { result ≡ scaled k x bus r }
{
    if k == BusKind::Slack {
        return x;
    }
    x * (1.0 + 0.03 * mix::mix(bus as u64, r as u64 + 1000))
}

// The free unknowns moved: up to 0.1 rad, up to 3 percent.
#[tactic(auto, unfolding(layout::specs::Table::stores, crate::specs::Starts::perturbed_of))]
fn perturbed(n: usize, kinds: [BusKind; 32], flat: Point, r: usize) -> Point
    requires { (n ≤ 32) × (r ≤ 32) }
    ensures { result ≡ perturbed_of n kinds flat r }
{
    let mut vm = [0.0; 32];
    let mut va = [0.0; 32];
    for b in 0..n {
        vm[b] = scale(kinds[b], flat.vm[b], b, r);
        va[b] = nudge(kinds[b], flat.va[b], b, r);
    }
    Point { vm, va }
}

// The flat start, then its perturbations.
#[tactic(auto, unfolding(crate::specs::Starts::from_flat))]
pub fn from_flat(n: usize, kinds: [BusKind; 32], flat: Point, i: usize) -> Point
    requires { (n ≤ 32) × (i ≤ 32) }
    ensures { result ≡ from_flat n kinds flat i }
{
    if i == 0 {
        return flat;
    }
    perturbed(n, kinds, flat, i)
}
