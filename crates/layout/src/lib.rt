// Of pf_ac.rs: bus kinds, the layout of unknowns and equations, the residual, the summed limits.
#![tactic(auto)]

ghost use Rattle.std.specs.Prelude.{◌≡◌, ◌+◌, ◌<◌, ◌≤◌, length, get_or};
ghost use Rattle.network.specs.Below.{Below};
ghost use Rattle.layout.specs.Table.{table};
ghost use Rattle.layout.specs.Kinds.{kind_letter, flag_kind, kinds_of};
ghost use Rattle.layout.specs.Layout.{none, has, number, after, count_to, number_at, layout_of, va_col, vm_col, p_row, q_row, kind_in};
ghost use Rattle.layout.specs.Residual.{powers_in, missing, at_row, residual_of};
ghost use Rattle.layout.specs.Limits.{limits_of};
ghost use Rattle.layout.specs.declared.BusKind.TheVariants.{Pq};

use network::GeneratorColumns;

// Bus role in the power flow: the reference slack, a voltage-regulating generator bus, or a load bus.
#[derive(Clone, Copy, Debug, PartialEq, Eq)]
pub enum BusKind {
    Slack,
    Pv,
    Pq,
}

// What may be unknown of a bus.
#[derive(Clone, Copy, Debug, PartialEq, Eq)]
pub enum Unknown {
    Angle,
    Magnitude,
}

// A missing column or row: a marked number, as 01 has it.
pub const NONE: usize = 64;

// The unknowns and equations of each bus. Columns: angles of non-slack buses, then magnitudes of Pq buses. Rows match, so one number is a bus's
// angle column and its active row, and one its magnitude column and its reactive row.
#[derive(Clone, Copy)]
pub struct AcPfLayout {
    pub n: usize,
    pub va_of: [usize; 32],
    pub vm_of: [usize; 32],
    pub dim: usize,
}

// Magnitudes and angles of the buses, by bus number.
#[derive(Clone, Copy)]
pub struct Point {
    pub vm: [f64; 32],
    pub va: [f64; 32],
}

// What a residual is made of: demands, generation, and what the voltages give.
#[derive(Clone, Copy)]
pub struct PowerColumns<'a> {
    pub pd: &'a [f64],
    pub qd: &'a [f64],
    pub pg: &'a [f64],
    pub qg: [f64; 32],
    pub p: [f64; 32],
    pub q: [f64; 32],
}

// The reactive limits of each bus, and whether it has a generator.
#[derive(Clone, Copy)]
pub struct Limits {
    pub qmin: [f64; 32],
    pub qmax: [f64; 32],
    pub has_gen: [bool; 32],
}

// ---- tables

// The first n places of a list in a table, and z past them.
pub fn column<T: Copy>(n: usize, z: T, l: &[T]) -> [T; 32]
    requires { (n ≤ 32) × (n ≤ length l.now) }
    ensures { (d : T) → result ≡ table n z (λ b. get_or l.now b d) }
{
    let mut t = [z; 32];
    t[..n].copy_from_slice(&l[..n]);
    t
}

// ---- kinds

impl BusKind {
    // Its letter's byte.
    pub fn letter(self) -> u8
        ensures { result ≡ kind_letter self }
    {
        match self {
            BusKind::Slack => b'S',
            BusKind::Pv => b'V',
            BusKind::Pq => b'Q',
        }
    }
}

fn flag_kind(byte: u8) -> BusKind
    ensures { result ≡ flag_kind byte }
{
    if byte == b'V' {
        BusKind::Pv
    } else {
        BusKind::Pq
    }
}

#[tactic(auto, unfolding(crate::specs::Table::stores))]
fn flagged(n: usize, kind: &[u8]) -> [BusKind; 32]
    requires { (n ≤ 32) × (n ≤ length kind.now) }
    ensures { result ≡ table n Pq (λ b. flag_kind (get_or kind.now b 0)) }
{
    let mut kinds = [BusKind::Pq; 32];
    for b in 0..n {
        kinds[b] = flag_kind(kind[b]);
    }
    kinds
}

// Q, then V where flagged, then slack where listed.
pub fn default_kinds(n: usize, kind: &[u8], slacks: &[usize]) -> [BusKind; 32]
    requires { (n ≤ 32) × (n ≤ length kind.now) × Below n slacks.now }
    ensures { result ≡ kinds_of n kind.now slacks.now }
{
    let mut kinds = flagged(n, kind);
    for &b in slacks {
        kinds[b] = BusKind::Slack;
    }
    kinds
}

// ---- columns

impl Unknown {
    // Whether it has to be found at a bus of this kind.
    fn is_at(self, kind: BusKind) -> bool
        ensures { result ≡ has self kind }
    {
        match kind {
            BusKind::Slack => false,
            BusKind::Pv => self == Unknown::Angle,
            BusKind::Pq => true,
        }
    }
}

// The column of an unknown, or none.
fn number(has: bool, col: usize) -> usize
    ensures { result ≡ number has col }
{
    if has { col } else { NONE }
}

// The next column.
fn after(has: bool, col: usize) -> usize
    requires { col ≤ 64 }
    ensures { (result ≡ after has col) × (result ≤ col + 1) }
{
    if has { col + 1 } else { col }
}

// The columns of one unknown, and the first after them.
#[derive(Clone, Copy)]
struct Columns {
    of: [usize; 32],
    next: usize,
}

// Gives the buses that have this unknown their columns, in bus order from first on.
#[tactic(auto, unfolding(crate::specs::Table::stores, crate::specs::Layout::count_to))]
fn numbers(u: Unknown, n: usize, kinds: [BusKind; 32], first: usize) -> Columns
    requires { (n ≤ 32) × (first ≤ 32) }
    ensures { (result.of ≡ table n none (number_at u kinds first)) × (result.next ≡ count_to u kinds first n) × (result.next ≤ first + n) }
{
    let mut of = [NONE; 32];
    let mut col = first;
    for b in 0..n {
        let h = u.is_at(kinds[b]);
        of[b] = number(h, col);
        col = after(h, col);
    }
    Columns { of, next: col }
}

// ---- rows

// Scheduled generation less demand, less what the voltages give.
fn missing_power(g: f64, d: f64, calc: f64) -> f64
    ensures { result ≡ missing g d calc }
{
    (g - d) - calc
}

#[tactic(auto, unfolding(crate::specs::Residual::at_row))]
fn put(r: &mut [f64; 64], row: usize, x: f64)
    ensures { r.new ≡ at_row r.old row x }
{
    if row < NONE {
        r[row] = x;
    }
}

// ---- the layout

impl AcPfLayout {
    #[tactic(auto, unfolding(crate::specs::Layout::layout_of))]
    pub fn with_kinds(n: usize, kinds: [BusKind; 32]) -> AcPfLayout
        requires { n ≤ 32 }
        ensures { result ≡ layout_of n kinds }
    {
        let a = numbers(Unknown::Angle, n, kinds, 0);
        let m = numbers(Unknown::Magnitude, n, kinds, a.next);
        let va_of = a.of;
        let vm_of = m.of;
        AcPfLayout {
            n,
            va_of,
            vm_of,
            dim: m.next,
        }
    }

    pub fn dim(self) -> usize
        ensures { result ≡ self.dim }
    {
        self.dim
    }

    // The kind of a bus, from its columns.
    pub fn kind(self, bus: usize) -> BusKind
        requires { bus < 32 }
        ensures { result ≡ kind_in self bus }
    {
        let va = self.va_of[bus];
        let vm = self.vm_of[bus];
        if va == NONE {
            BusKind::Slack
        } else if vm == NONE {
            BusKind::Pv
        } else {
            BusKind::Pq
        }
    }

    pub fn va_col(self, bus: usize) -> usize
        requires { bus < 32 }
        ensures { result ≡ va_col self bus }
    {
        self.va_of[bus]
    }

    pub fn vm_col(self, bus: usize) -> usize
        requires { bus < 32 }
        ensures { result ≡ vm_col self bus }
    {
        self.vm_of[bus]
    }

    // A row has the number of its column.
    pub fn p_row(self, bus: usize) -> usize
        requires { bus < 32 }
        ensures { result ≡ p_row self bus }
    {
        self.va_col(bus)
    }

    pub fn q_row(self, bus: usize) -> usize
        requires { bus < 32 }
        ensures { result ≡ q_row self bus }
    {
        self.vm_col(bus)
    }

    // The mismatch at each row that exists. The other places are 0.0.
    #[tactic(auto, unfolding(crate::specs::Residual::residual_to))]
    pub fn residual(self, w: &PowerColumns) -> [f64; 64]
        requires { (self.n ≤ 32) × (self.n ≤ length w.now.pd.now) × (self.n ≤ length w.now.qd.now) × (self.n ≤ length w.now.pg.now) }
        ensures { result ≡ residual_of self (powers_in w.now) }
    {
        let mut r = [0.0; 64];
        for b in 0..self.n {
            let x = missing_power(w.pg[b], w.pd[b], w.p[b]);
            put(&mut r, self.va_of[b], x);
            let y = missing_power(w.qg[b], w.qd[b], w.q[b]);
            put(&mut r, self.vm_of[b], y);
        }
        r
    }
}

// ---- limits

// The limits of all generators at a bus, summed in generator order.
#[tactic(auto, unfolding(crate::specs::Table::stores, crate::specs::Limits::sum_at, crate::specs::Limits::limits_of, real::specs::Any::any_below))]
pub fn aggregate_q(gens: GeneratorColumns) -> Limits
    requires { (length gens.qmin.now ≡ length gens.bus.now) × (length gens.qmax.now ≡ length gens.bus.now) × Below 32 gens.bus.now }
    ensures { result ≡ limits_of gens.entry.bus.now gens.entry.qmin.now gens.entry.qmax.now }
{
    let mut qmin = [0.0; 32];
    let mut qmax = [0.0; 32];
    let mut has_gen = [false; 32];
    for g in 0..gens.bus.len() {
        let b = gens.bus[g];
        qmin[b] += gens.qmin[g];
        qmax[b] += gens.qmax[g];
        has_gen[b] = true;
    }
    Limits {
        qmin,
        qmax,
        has_gen,
    }
}
