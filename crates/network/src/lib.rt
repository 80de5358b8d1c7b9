// The tables of a case: their columns, how many rows each has, and what 01 asks of them before anything is worked out.
#![tactic(auto)]

ghost use Rattle.std.specs.Prelude.{◌≡◌, ◌||◌, eqb, leb, length, zip};
ghost use Rattle.std.specs.List.{list_all, position};
ghost use Rattle.network.specs.Network.{fits_of, buses_room, slacks_room, generators_room, branches_room, triplets_room, row_counts, RoomFor, first_rows};
ghost use Rattle.network.specs.Network.{RoomBuses, RoomSlacks, RoomGenerators, RoomBranches, RoomTriplets, first_buses, first_slacks, first_generators, first_branches, first_triplets};
ghost use Rattle.network.specs.Columns.{buses_in, slacks_in, generators_in, branches_in, triplets_in, network_in, values_in, branch_network_in};
ghost use Rattle.network.specs.Columns.{buses_lent, slacks_lent, generators_lent, branches_lent, triplets_lent, values_lent, branch_table_lent};
ghost use Rattle.network.specs.Checks.{buses_counted, slacks_counted, generators_counted, branches_counted, triplets_counted, counted};
ghost use Rattle.network.specs.BranchTable.{values_counted, values_room, branch_table_room, RoomValues, RoomForBranches, first_values, first_branch_rows, with_triplets, no_triplets};
ghost use Rattle.network.specs.Missing.{in_column, first_field, in_ends, missing_by};

// ---- the columns of a case, lent for reading

// `B kind vm_set pd qd pg qg vm_case va_case`: the columns of the buses.
#[derive(Clone, Copy)]
pub struct BusColumns<'a> {
    pub kind: &'a [u8],
    pub vm_set: &'a [f64],
    pub pd: &'a [f64],
    pub qd: &'a [f64],
    pub pg: &'a [f64],
    pub qg: &'a [f64],
    pub vm_case: &'a [f64],
    pub va_case: &'a [f64],
}

// `R bus angle`: those of the slack rows.
#[derive(Clone, Copy)]
pub struct SlackColumns<'a> {
    pub bus: &'a [usize],
    pub angle: &'a [f64],
}

// `G bus qmin qmax`: those of the generators.
#[derive(Clone, Copy)]
pub struct GeneratorColumns<'a> {
    pub bus: &'a [usize],
    pub qmin: &'a [f64],
    pub qmax: &'a [f64],
}

// `L from to`: the ends of the branches.
#[derive(Clone, Copy)]
pub struct BranchColumns<'a> {
    pub from: &'a [usize],
    pub to: &'a [usize],
}

// `Y row col re im`: the entries of the admittance matrix.
#[derive(Clone, Copy)]
pub struct TripletColumns<'a> {
    pub row: &'a [usize],
    pub col: &'a [usize],
    pub re: &'a [f64],
    pub im: &'a [f64],
}

// `K .. g b g_fr b_fr g_to b_to tap shift sw`: the numbers of the branches beside their ends.
#[derive(Clone, Copy)]
pub struct ValueColumns<'a> {
    pub g: &'a [f64],
    pub b: &'a [f64],
    pub g_fr: &'a [f64],
    pub b_fr: &'a [f64],
    pub g_to: &'a [f64],
    pub b_to: &'a [f64],
    pub tap: &'a [f64],
    pub shift: &'a [f64],
    pub sw: &'a [f64],
}

// The tables of a case of the first edition.
#[derive(Clone, Copy)]
pub struct Tables<'a> {
    pub buses: BusColumns<'a>,
    pub slacks: SlackColumns<'a>,
    pub generators: GeneratorColumns<'a>,
    pub branches: BranchColumns<'a>,
    pub triplets: TripletColumns<'a>,
}

// Those of the second: the branches have numbers, and there are no triplets.
#[derive(Clone, Copy)]
pub struct BranchTables<'a> {
    pub buses: BusColumns<'a>,
    pub slacks: SlackColumns<'a>,
    pub generators: GeneratorColumns<'a>,
    pub ends: BranchColumns<'a>,
    pub values: ValueColumns<'a>,
}

// ---- the same, lent for writing

#[derive(Drop)]
pub struct BusColumnsMut<'a> {
    pub kind: &'a mut [u8],
    pub vm_set: &'a mut [f64],
    pub pd: &'a mut [f64],
    pub qd: &'a mut [f64],
    pub pg: &'a mut [f64],
    pub qg: &'a mut [f64],
    pub vm_case: &'a mut [f64],
    pub va_case: &'a mut [f64],
}

#[derive(Drop)]
pub struct SlackColumnsMut<'a> {
    pub bus: &'a mut [usize],
    pub angle: &'a mut [f64],
}

#[derive(Drop)]
pub struct GeneratorColumnsMut<'a> {
    pub bus: &'a mut [usize],
    pub qmin: &'a mut [f64],
    pub qmax: &'a mut [f64],
}

#[derive(Drop)]
pub struct BranchColumnsMut<'a> {
    pub from: &'a mut [usize],
    pub to: &'a mut [usize],
}

#[derive(Drop)]
pub struct TripletColumnsMut<'a> {
    pub row: &'a mut [usize],
    pub col: &'a mut [usize],
    pub re: &'a mut [f64],
    pub im: &'a mut [f64],
}

#[derive(Drop)]
pub struct ValueColumnsMut<'a> {
    pub g: &'a mut [f64],
    pub b: &'a mut [f64],
    pub g_fr: &'a mut [f64],
    pub b_fr: &'a mut [f64],
    pub g_to: &'a mut [f64],
    pub b_to: &'a mut [f64],
    pub tap: &'a mut [f64],
    pub shift: &'a mut [f64],
    pub sw: &'a mut [f64],
}

// The tables that both editions have.
#[derive(Drop)]
pub struct SourcesMut<'a> {
    pub buses: BusColumnsMut<'a>,
    pub slacks: SlackColumnsMut<'a>,
    pub generators: GeneratorColumnsMut<'a>,
}

// Those of the first edition alone.
#[derive(Drop)]
pub struct LinesMut<'a> {
    pub branches: BranchColumnsMut<'a>,
    pub triplets: TripletColumnsMut<'a>,
}

// That of the second alone.
#[derive(Drop)]
pub struct BranchTableMut<'a> {
    pub ends: BranchColumnsMut<'a>,
    pub values: ValueColumnsMut<'a>,
}

// ---- how many rows

// A number of rows for each table.
#[derive(Clone, Copy, Debug, PartialEq, Eq)]
pub struct Rows {
    pub buses: usize,
    pub slacks: usize,
    pub generators: usize,
    pub branches: usize,
    pub triplets: usize,
}

// Whether the rows of each table are at most those that there is room for.
#[tactic(auto, unfolding(real::specs::Tests::both))]
pub fn fits(r: Rows, room: Rows) -> bool
    ensures { result ≡ fits_of r room }
{
    (r.buses <= room.buses)
        & ((r.slacks <= room.slacks)
            & ((r.generators <= room.generators)
                & ((r.branches <= room.branches) & (r.triplets <= room.triplets))))
}

// ---- refusal 7: a count over its size, or columns of one table that differ in length

// Whether each of these lengths is n.
fn same<const N: usize>(n: usize, lengths: [usize; N]) -> bool
    ensures { result ≡ list_all (λ k. eqb k n) lengths.entry }
{
    lengths.iter().all(|&k| k == n)
}

impl<'a> BusColumns<'a> {
    #[tactic(auto, unfolding(real::specs::Tests::both))]
    fn counted(self) -> bool
        ensures { result ≡ buses_counted (buses_in self.entry) }
    {
        let n = self.kind.len();
        let equal = same(
            n,
            [
                self.vm_set.len(),
                self.pd.len(),
                self.qd.len(),
                self.pg.len(),
                self.qg.len(),
                self.vm_case.len(),
                self.va_case.len(),
            ],
        );
        (n <= 32) & equal
    }

    // The first n rows.
    pub fn first(self, n: usize) -> BusColumns<'a>
        requires { RoomBuses n (buses_in self) }
        ensures { buses_in result ≡ first_buses n (buses_in self.entry) }
    {
        BusColumns {
            kind: &self.kind[..n],
            vm_set: &self.vm_set[..n],
            pd: &self.pd[..n],
            qd: &self.qd[..n],
            pg: &self.pg[..n],
            qg: &self.qg[..n],
            vm_case: &self.vm_case[..n],
            va_case: &self.va_case[..n],
        }
    }
}

impl BusColumnsMut<'_> {
    // The same columns, for reading.
    pub fn read(&self) -> BusColumns<'_>
        ensures { buses_in result ≡ buses_lent self.now }
    {
        BusColumns {
            kind: self.kind,
            vm_set: self.vm_set,
            pd: self.pd,
            qd: self.qd,
            pg: self.pg,
            qg: self.qg,
            vm_case: self.vm_case,
            va_case: self.va_case,
        }
    }

    // How many rows there is room for.
    pub fn room(&self) -> usize
        ensures { result ≡ buses_room (buses_lent self.now) }
    {
        self.kind
            .len()
            .min(self.vm_set.len())
            .min(self.pd.len().min(self.qd.len()))
            .min(
                self.pg
                    .len()
                    .min(self.qg.len())
                    .min(self.vm_case.len().min(self.va_case.len())),
            )
    }
}

impl<'a> SlackColumns<'a> {
    #[tactic(auto, unfolding(real::specs::Tests::both))]
    fn counted(self) -> bool
        ensures { result ≡ slacks_counted (slacks_in self.entry) }
    {
        (self.bus.len() <= 32) & (self.angle.len() == self.bus.len())
    }

    // The first n rows.
    pub fn first(self, n: usize) -> SlackColumns<'a>
        requires { RoomSlacks n (slacks_in self) }
        ensures { slacks_in result ≡ first_slacks n (slacks_in self.entry) }
    {
        SlackColumns {
            bus: &self.bus[..n],
            angle: &self.angle[..n],
        }
    }
}

impl SlackColumnsMut<'_> {
    // The same columns, for reading.
    pub fn read(&self) -> SlackColumns<'_>
        ensures { slacks_in result ≡ slacks_lent self.now }
    {
        SlackColumns {
            bus: self.bus,
            angle: self.angle,
        }
    }

    // How many rows there is room for.
    pub fn room(&self) -> usize
        ensures { result ≡ slacks_room (slacks_lent self.now) }
    {
        self.bus.len().min(self.angle.len())
    }
}

impl<'a> GeneratorColumns<'a> {
    #[tactic(auto, unfolding(real::specs::Tests::both))]
    fn counted(self) -> bool
        ensures { result ≡ generators_counted (generators_in self.entry) }
    {
        let n = self.bus.len();
        (n <= 32) & same(n, [self.qmin.len(), self.qmax.len()])
    }

    // The first n rows.
    pub fn first(self, n: usize) -> GeneratorColumns<'a>
        requires { RoomGenerators n (generators_in self) }
        ensures { generators_in result ≡ first_generators n (generators_in self.entry) }
    {
        GeneratorColumns {
            bus: &self.bus[..n],
            qmin: &self.qmin[..n],
            qmax: &self.qmax[..n],
        }
    }
}

impl GeneratorColumnsMut<'_> {
    // The same columns, for reading.
    pub fn read(&self) -> GeneratorColumns<'_>
        ensures { generators_in result ≡ generators_lent self.now }
    {
        GeneratorColumns {
            bus: self.bus,
            qmin: self.qmin,
            qmax: self.qmax,
        }
    }

    // How many rows there is room for.
    pub fn room(&self) -> usize
        ensures { result ≡ generators_room (generators_lent self.now) }
    {
        self.bus.len().min(self.qmin.len()).min(self.qmax.len())
    }
}

impl<'a> BranchColumns<'a> {
    #[tactic(auto, unfolding(real::specs::Tests::both))]
    fn counted(self) -> bool
        ensures { result ≡ branches_counted (branches_in self.entry) }
    {
        (self.from.len() <= 64) & (self.to.len() == self.from.len())
    }

    // The first n rows.
    pub fn first(self, n: usize) -> BranchColumns<'a>
        requires { RoomBranches n (branches_in self) }
        ensures { branches_in result ≡ first_branches n (branches_in self.entry) }
    {
        BranchColumns {
            from: &self.from[..n],
            to: &self.to[..n],
        }
    }
}

impl BranchColumnsMut<'_> {
    // The same columns, for reading.
    pub fn read(&self) -> BranchColumns<'_>
        ensures { branches_in result ≡ branches_lent self.now }
    {
        BranchColumns {
            from: self.from,
            to: self.to,
        }
    }

    // How many rows there is room for.
    pub fn room(&self) -> usize
        ensures { result ≡ branches_room (branches_lent self.now) }
    {
        self.from.len().min(self.to.len())
    }
}

impl<'a> TripletColumns<'a> {
    // No triplets at all.
    pub fn none() -> TripletColumns<'a>
        ensures { triplets_in result ≡ no_triplets }
    {
        TripletColumns {
            row: &[],
            col: &[],
            re: &[],
            im: &[],
        }
    }

    #[tactic(auto, unfolding(real::specs::Tests::both))]
    fn counted(self) -> bool
        ensures { result ≡ triplets_counted (triplets_in self.entry) }
    {
        let n = self.row.len();
        (n <= 256) & same(n, [self.col.len(), self.re.len(), self.im.len()])
    }

    // The first n rows.
    pub fn first(self, n: usize) -> TripletColumns<'a>
        requires { RoomTriplets n (triplets_in self) }
        ensures { triplets_in result ≡ first_triplets n (triplets_in self.entry) }
    {
        TripletColumns {
            row: &self.row[..n],
            col: &self.col[..n],
            re: &self.re[..n],
            im: &self.im[..n],
        }
    }
}

impl TripletColumnsMut<'_> {
    // The same columns, for reading.
    pub fn read(&self) -> TripletColumns<'_>
        ensures { triplets_in result ≡ triplets_lent self.now }
    {
        TripletColumns {
            row: self.row,
            col: self.col,
            re: self.re,
            im: self.im,
        }
    }

    // How many rows there is room for.
    pub fn room(&self) -> usize
        ensures { result ≡ triplets_room (triplets_lent self.now) }
    {
        self.row
            .len()
            .min(self.col.len())
            .min(self.re.len().min(self.im.len()))
    }
}

impl<'a> ValueColumns<'a> {
    // Whether each has n numbers.
    #[tactic(auto, unfolding(real::specs::Tests::both, crate::specs::BranchTable::values_counted))]
    pub fn counted(self, n: usize) -> bool
        ensures { result ≡ values_counted n (values_in self.entry) }
    {
        same(
            n,
            [
                self.g.len(),
                self.b.len(),
                self.g_fr.len(),
                self.b_fr.len(),
                self.g_to.len(),
                self.b_to.len(),
                self.tap.len(),
                self.shift.len(),
                self.sw.len(),
            ],
        )
    }

    // The first n rows.
    pub fn first(self, n: usize) -> ValueColumns<'a>
        requires { RoomValues n (values_in self) }
        ensures { values_in result ≡ first_values n (values_in self.entry) }
    {
        ValueColumns {
            g: &self.g[..n],
            b: &self.b[..n],
            g_fr: &self.g_fr[..n],
            b_fr: &self.b_fr[..n],
            g_to: &self.g_to[..n],
            b_to: &self.b_to[..n],
            tap: &self.tap[..n],
            shift: &self.shift[..n],
            sw: &self.sw[..n],
        }
    }
}

impl ValueColumnsMut<'_> {
    // The same columns, for reading.
    pub fn read(&self) -> ValueColumns<'_>
        ensures { values_in result ≡ values_lent self.now }
    {
        ValueColumns {
            g: self.g,
            b: self.b,
            g_fr: self.g_fr,
            b_fr: self.b_fr,
            g_to: self.g_to,
            b_to: self.b_to,
            tap: self.tap,
            shift: self.shift,
            sw: self.sw,
        }
    }

    // How many rows there is room for.
    pub fn room(&self) -> usize
        ensures { result ≡ values_room (values_lent self.now) }
    {
        self.g
            .len()
            .min(self.b.len())
            .min(self.g_fr.len().min(self.b_fr.len()))
            .min(
                self.g_to
                    .len()
                    .min(self.b_to.len())
                    .min(self.tap.len().min(self.shift.len())),
            )
            .min(self.sw.len())
    }
}

impl<'a> Tables<'a> {
    #[tactic(auto, unfolding(real::specs::Tests::both, crate::specs::Checks::counted))]
    pub fn counted(self) -> bool
        ensures { result ≡ counted (network_in self.entry) }
    {
        self.buses.counted()
            & (self.slacks.counted()
                & (self.generators.counted() & (self.branches.counted() & self.triplets.counted())))
    }

    // The first rows of each.
    pub fn first(self, rows: Rows) -> Tables<'a>
        requires { RoomFor rows (network_in self) }
        ensures { network_in result ≡ first_rows rows (network_in self.entry) }
    {
        Tables {
            buses: self.buses.first(rows.buses),
            slacks: self.slacks.first(rows.slacks),
            generators: self.generators.first(rows.generators),
            branches: self.branches.first(rows.branches),
            triplets: self.triplets.first(rows.triplets),
        }
    }
}

impl SourcesMut<'_> {
    // How many rows of each there is room for, beside so many branches and triplets.
    pub fn room(&self, branches: usize, triplets: usize) -> Rows
        ensures { result ≡ row_counts (buses_room (buses_lent self.now.buses)) (slacks_room (slacks_lent self.now.slacks)) (generators_room (generators_lent self.now.generators)) branches triplets }
    {
        Rows {
            buses: self.buses.room(),
            slacks: self.slacks.room(),
            generators: self.generators.room(),
            branches,
            triplets,
        }
    }
}

impl<'a> BranchTables<'a> {
    // The first rows of each.
    pub fn first(self, rows: Rows) -> BranchTables<'a>
        requires { RoomForBranches rows (branch_network_in self) }
        ensures { branch_network_in result ≡ first_branch_rows rows (branch_network_in self.entry) }
    {
        BranchTables {
            buses: self.buses.first(rows.buses),
            slacks: self.slacks.first(rows.slacks),
            generators: self.generators.first(rows.generators),
            ends: self.ends.first(rows.branches),
            values: self.values.first(rows.branches),
        }
    }

    // The same case with these triplets, as the first edition has it.
    pub fn with_triplets(self, triplets: TripletColumns<'a>) -> Tables<'a>
        ensures { network_in result ≡ with_triplets (branch_network_in self.entry) (triplets_in triplets.entry) }
    {
        Tables {
            buses: self.buses,
            slacks: self.slacks,
            generators: self.generators,
            branches: self.ends,
            triplets,
        }
    }
}

impl BranchTableMut<'_> {
    // How many rows there is room for.
    pub fn room(&self) -> usize
        ensures { result ≡ branch_table_room (branch_table_lent self.now) }
    {
        self.ends.room().min(self.values.room())
    }
}

// ---- refusals 8, 11, 12 and 13: a row that names a bus which is not there

// The tables whose rows name buses, in the order in which they are looked at.
#[derive(Clone, Copy, Debug, PartialEq, Eq)]
pub enum Naming {
    Slack,
    Generator,
    Branch,
    Triplet,
}

// Where a missing bus is named first: the table, its row, and which of the row's bus numbers it is, 0 or 1; a row with one has 0.
#[derive(Clone, Copy, Debug, PartialEq, Eq)]
pub struct MissingBus {
    pub table: Naming,
    pub row: usize,
    pub field: usize,
}

// The first row of a column whose bus is missing: its number is not below n.
pub fn first_missing(n: usize, l: &[usize]) -> Option<usize>
    ensures { result ≡ position (λ bus. leb n bus) l.now }
{
    l.iter().position(|&bus| n <= bus)
}

// The same of rows that name two buses.
fn first_missing_end(n: usize, a: &[usize], b: &[usize]) -> Option<usize>
    requires { length b.now ≡ length a.now }
    ensures { result ≡ position (λ ends. leb n ends.0 || leb n ends.1) (zip a.now b.now) }
{
    a.iter()
        .zip(b)
        .position(|(&from, &to)| n <= from || n <= to)
}

// The first row at fault of a table whose rows name one bus.
fn in_column(n: usize, table: Naming, l: &[usize]) -> Option<MissingBus>
    ensures { result ≡ in_column n table l.now }
{
    let row = first_missing(n, l)?;
    Some(MissingBus {
        table,
        row,
        field: 0,
    })
}

// The first field at fault of a row whose first bus number is this.
fn first_field(n: usize, bus: usize) -> usize
    ensures { result ≡ first_field n bus }
{
    if n <= bus { 0 } else { 1 }
}

// The first row at fault of a table whose rows name two.
fn in_ends(n: usize, table: Naming, a: &[usize], b: &[usize]) -> Option<MissingBus>
    requires { length b.now ≡ length a.now }
    ensures { result ≡ in_ends n table a.now b.now }
{
    let row = first_missing_end(n, a, b)?;
    Some(MissingBus {
        table,
        row,
        field: first_field(n, a[row]),
    })
}

// The first row at fault of the first table that has one: slack rows, generators, branches, triplets. There are n buses; of the triplets only the rows and
// columns are read.
pub fn missing_bus(
    n: usize,
    slacks: &[usize],
    gen_bus: &[usize],
    ends: BranchColumns,
    y: TripletColumns,
) -> Option<MissingBus>
    requires { (length ends.to.now ≡ length ends.from.now) × (length y.col.now ≡ length y.row.now) }
    ensures { result ≡ missing_by n slacks.now gen_bus.now ends.entry.from.now ends.entry.to.now y.entry.row.now y.entry.col.now }
{
    let r = in_column(n, Naming::Slack, slacks);
    let g = in_column(n, Naming::Generator, gen_bus);
    let l = in_ends(n, Naming::Branch, ends.from, ends.to);
    let y = in_ends(n, Naming::Triplet, y.row, y.col);
    r.or(g.or(l.or(y)))
}
