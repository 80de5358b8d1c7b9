// The columns of a case text: field j of each line of a section goes to one place per row. A section comes as its bytes, l, and was found good;
// a column has a place for each of its rows.
#![tactic(auto)]

ghost use Rattle.std.specs.Prelude.{◌≡◌, ℕ, ◌+◌, ◌≤◌, ◌<◌, List, [], length, get_or};
ghost use Rattle.fields.specs.Cut.{pieces};
ghost use Rattle.network.specs.Network.{RoomBuses, RoomSlacks, RoomGenerators, RoomBranches, RoomTriplets};
ghost use Rattle.network.specs.BranchTable.{RoomValues};
ghost use Rattle.network.specs.Columns.{buses_lent, slacks_lent, generators_lent, branches_lent, triplets_lent, values_lent};
ghost use Rattle.network.specs.Columns.{SameBuses, SameSlacks, SameGenerators, SameBranches, SameTriplets, SameValues};
ghost use Rattle.columns.specs.Columns.{row_count, cell_of, filled, real_value, number_value, kind_value};
ghost use Rattle.columns.specs.Columns.{filled_buses, filled_slacks, filled_generators, filled_branches, filled_triplets, filled_values};

use network::{
    BranchColumnsMut, BusColumnsMut, GeneratorColumnsMut, SlackColumnsMut, TripletColumnsMut,
    ValueColumnsMut,
};

// Piece n between the spaces of a line, empty where there is none. Inlined it makes the search for the line's end in `fill` take nine instructions a byte
// in place of five.
#[inline(never)]
fn piece(l: &[u8], n: usize) -> &[u8]
    ensures { result.now ≡ get_or (pieces 32 l.now) n [] }
{
    let e = l.len();
    let mut i: usize = 0;
    // By `find` and not `split`: the laws on pieces speak of the place found.
    for _k in 0..n {
        let q = fields::find(l, i, e, b' ');
        if q == e {
            return &l[e..];
        }
        i = q + 1;
    }
    let q = fields::find(l, i, e, b' ');
    &l[i..q]
}

// What a column holds: the value of a field that was found good.
trait Cell: Copy {
    // Of the field's bytes.
    ghost value: { List ℕ → Self };

    fn read(f: &[u8]) -> Self
        ensures { result ≡ value f.now };
}

// A real, or `?`.
impl Cell for f64 {
    ghost value = { real_value };

    fn read(f: &[u8]) -> f64 {
        fields::real_or_nan(f).unwrap_or(0.0)
    }
}

// A bus number.
impl Cell for usize {
    ghost value = { number_value };

    fn read(f: &[u8]) -> usize {
        fields::read_bus(f).unwrap_or(0)
    }
}

// A kind, as its letter.
impl Cell for u8 {
    ghost value = { kind_value };

    fn read(f: &[u8]) -> u8 {
        match f {
            [b, ..] => *b,
            [] => 0,
        }
    }
}

// Field j of a line.
fn cell_at<T: Cell>(l: &[u8], j: usize) -> T
    requires { j < 16 }
    ensures { result ≡ T.value (cell_of j l.now) }
{
    T::read(piece(l, j + 1))
}

// Field j of each line of a section.
fn fill<T: Cell>(l: &[u8], j: usize, out: &mut [T])
    requires { (j < 16) × (row_count l.now ≤ length out.old) }
    ensures { out.new ≡ filled (λ r. T.value (cell_of j r)) l.now out.old }
{
    let e = l.len();
    let mut i: usize = 0;
    // By `find` and not `split`: the laws on a section's rows speak of the place found.
    for x in out.iter_mut() {
        let p = fields::find(l, i, e, b'\n');
        if p == e {
            return;
        }
        *x = cell_at(&l[i..p], j);
        i = p + 1;
    }
}

// `B kind vm_set pd qd pg qg vm_case va_case`.
pub fn fill_buses(l: &[u8], out: &mut BusColumnsMut)
    requires { RoomBuses (row_count l.now) (buses_lent out.old) }
    ensures filled { buses_lent out.new ≡ filled_buses l.now (buses_lent out.old) }
    ensures same_columns { SameBuses out.old out.new }
{
    fill(l, 0, out.kind);
    fill(l, 1, out.vm_set);
    fill(l, 2, out.pd);
    fill(l, 3, out.qd);
    fill(l, 4, out.pg);
    fill(l, 5, out.qg);
    fill(l, 6, out.vm_case);
    fill(l, 7, out.va_case);
}

// `R bus angle`.
pub fn fill_slacks(l: &[u8], out: &mut SlackColumnsMut)
    requires { RoomSlacks (row_count l.now) (slacks_lent out.old) }
    ensures filled { slacks_lent out.new ≡ filled_slacks l.now (slacks_lent out.old) }
    ensures same_columns { SameSlacks out.old out.new }
{
    fill(l, 0, out.bus);
    fill(l, 1, out.angle);
}

// `G bus qmin qmax`.
pub fn fill_generators(l: &[u8], out: &mut GeneratorColumnsMut)
    requires { RoomGenerators (row_count l.now) (generators_lent out.old) }
    ensures filled { generators_lent out.new ≡ filled_generators l.now (generators_lent out.old) }
    ensures same_columns { SameGenerators out.old out.new }
{
    fill(l, 0, out.bus);
    fill(l, 1, out.qmin);
    fill(l, 2, out.qmax);
}

// `L from to`, and the ends of a `K` line.
pub fn fill_branches(l: &[u8], out: &mut BranchColumnsMut)
    requires { RoomBranches (row_count l.now) (branches_lent out.old) }
    ensures filled { branches_lent out.new ≡ filled_branches l.now (branches_lent out.old) }
    ensures same_columns { SameBranches out.old out.new }
{
    fill(l, 0, out.from);
    fill(l, 1, out.to);
}

// `Y row col re im`.
pub fn fill_triplets(l: &[u8], out: &mut TripletColumnsMut)
    requires { RoomTriplets (row_count l.now) (triplets_lent out.old) }
    ensures filled { triplets_lent out.new ≡ filled_triplets l.now (triplets_lent out.old) }
    ensures same_columns { SameTriplets out.old out.new }
{
    fill(l, 0, out.row);
    fill(l, 1, out.col);
    fill(l, 2, out.re);
    fill(l, 3, out.im);
}

// `K from to g b g_fr b_fr g_to b_to tap shift sw`: the numbers beside the ends.
pub fn fill_values(l: &[u8], out: &mut ValueColumnsMut)
    requires { RoomValues (row_count l.now) (values_lent out.old) }
    ensures filled { values_lent out.new ≡ filled_values l.now (values_lent out.old) }
    ensures same_columns { SameValues out.old out.new }
{
    fill(l, 2, out.g);
    fill(l, 3, out.b);
    fill(l, 4, out.g_fr);
    fill(l, 5, out.b_fr);
    fill(l, 6, out.g_to);
    fill(l, 7, out.b_to);
    fill(l, 8, out.tap);
    fill(l, 9, out.shift);
    fill(l, 10, out.sw);
}
