// Runs read_case on the texts of its input, good and damaged, and compares the answer and every place of every column with what the input says
// (oracle/text_vectors.py has the format). Before each reading a column holds a mark in every place, and it must still do so past the rows.
#![tactic(auto)]

ghost use Rattle.std.specs.Prelude.{◌≡◌, ℕ, ◌+◌, ◌*◌, ◌≤◌, ◌<◌, take};
ghost use Rattle.std.specs.Float.{binary64};
ghost use Rattle.std.specs.Float.Ieee.{of_bits};
ghost use Rattle.vectors.specs.Words.{pair_of, Tells, Found};
ghost use Rattle.network.specs.Columns.{buses_in, slacks_in, generators_in, branches_in, triplets_in, values_in, network_lent, branch_table_lent};
ghost use Rattle.trailer.specs.Trailer.{flat_letter, mode_of};
ghost use Rattle.real.specs.Each.{each};
ghost use Rattle.real.specs.Paper.{given};
ghost use Rattle.case_text.specs.Answer.{paper_of};
ghost use Rattle.reader.specs.Reader.{columns_of, read_of};
ghost use Rattle.text_vectors.specs.Told.{refusal, rows_in, branch_rows, triplet_rows, rows_told, edition_by, paper_told, width_told, word_told};
ghost use Rattle.text_vectors.specs.Told.{buses_told, slacks_told, generators_told, branches_told, triplets_told, values_told, outcome_told, Agrees};

use case_text::{Contents, Refusal};
use network::{
    BranchColumns, BranchColumnsMut, BranchTableMut, BusColumns, BusColumnsMut, GeneratorColumns,
    GeneratorColumnsMut, LinesMut, Rows, SlackColumns, SlackColumnsMut, SourcesMut, TripletColumns,
    TripletColumnsMut, ValueColumns, ValueColumnsMut,
};
use starts::AcStart;
use trailer::Edition;
use vectors::STDIN_FILENO;

// The record is s throughout, with room for any: a start and rows of two bytes each lead no further than 65,535 + 65,536 * 8. j counts the columns in read_case's order.

fn rows(s: &[u8; 600000], j: usize) -> usize
    requires { j < 30 }
    ensures { (result ≡ rows_in s.now j) × (result < 65536) }
{
    vectors::pair(s, 10 + j * 4)
}

// How many places of each column are lent: as many as the record asks, so that refusal 9 can be met.
fn width(s: &[u8; 600000]) -> usize
    ensures { (result ≡ width_told s.now) × (result ≤ 258) }
{
    vectors::pair(s, 6).min(258)
}

// What the input says of place i of column j.
#[tactic(auto, unfolding(crate::specs::Told::word_told))]
fn told(s: &[u8; 600000], j: usize, i: usize) -> u64
    requires { j < 30 }
    ensures { result ≡ word_told s.now j i }
{
    let k = i.min(rows(s, j));
    vectors::word(s, vectors::pair(s, 8 + j * 4) + k * 8)
}

// What a column holds, each place as a word of the input says it.
trait Cell: Copy {
    ghost said: { ℕ → Self };

    fn is(self, w: u64) -> bool
        ensures { Tells result (self ≡ said w) };
}

impl Cell for u8 {
    ghost said = { λ w. w };

    fn is(self, w: u64) -> bool {
        u64::from(self) == w
    }
}

impl Cell for usize {
    ghost said = { λ w. w };

    fn is(self, w: u64) -> bool {
        self as u64 == w
    }
}

impl Cell for f64 {
    ghost said = { of_bits binary64 };

    fn is(self, w: u64) -> bool {
        vectors::same(self, vectors::double(w))
    }
}

// Whether the lent places of column j hold what the input says.
fn holds<T: Cell>(s: &[u8; 600000], j: usize, col: &[T]) -> bool
    requires { j < 30 }
    ensures { Tells result (col.now ≡ each (width_told s.now) (λ i. T.said (word_told s.now j i))) }
{
    if col.len() != width(s) {
        return false;
    }
    for (i, &x) in col.iter().enumerate() {
        if !x.is(told(s, j, i)) {
            return false;
        }
    }
    true
}

// Whether the input says this refusal. Refusal 9 has no place.
fn refused(s: &[u8; 600000], n: usize, at: usize) -> bool
    requires { 0 < n }
    ensures { Tells result (refusal n at ≡ paper_told s.now) }
{
    (vectors::pair(s, 0) == n) & ((n == 9) | (at == vectors::pair(s, 2)))
}

// The edition of a letter of the trailer: the second has f and c.
fn edition(letter: usize) -> Edition
    ensures { result ≡ edition_by letter }
{
    if letter == usize::from(b'f') || letter == usize::from(b'c') {
        Edition::Second
    } else {
        Edition::First
    }
}

fn flat_letter(e: Edition) -> usize
    ensures { result ≡ flat_letter e }
{
    match e {
        Edition::First => usize::from(b'F'),
        Edition::Second => usize::from(b'f'),
    }
}

fn start(e: Edition, letter: usize) -> AcStart
    ensures { result ≡ mode_of e letter }
{
    if letter == flat_letter(e) {
        AcStart::Flat
    } else {
        AcStart::Case
    }
}

fn branch_rows(s: &[u8; 600000], e: Edition) -> usize
    ensures { result ≡ branch_rows e s.now }
{
    match e {
        Edition::First => rows(s, 13),
        Edition::Second => rows(s, 19),
    }
}

fn triplet_rows(s: &[u8; 600000], e: Edition) -> usize
    ensures { result ≡ triplet_rows e s.now }
{
    match e {
        Edition::First => rows(s, 15),
        Edition::Second => 0,
    }
}

// The rows of the tables: a table's are those of its first column.
fn rows_told(s: &[u8; 600000], e: Edition) -> Rows
    ensures { result ≡ rows_told e s.now }
{
    Rows {
        buses: rows(s, 0),
        slacks: rows(s, 8),
        generators: rows(s, 10),
        branches: branch_rows(s, e),
        triplets: triplet_rows(s, e),
    }
}

fn good(s: &[u8; 600000], c: Contents) -> bool
    ensures { Tells result (given c ≡ paper_told s.now) }
{
    let letter = vectors::pair(s, 4);
    let e = edition(letter);
    (vectors::pair(s, 0) == 0)
        & (c.edition == e)
        & (c.start == start(e, letter))
        & (c.rows == rows_told(s, e))
}

fn answered(s: &[u8; 600000], v: Result<Contents, Refusal>) -> bool
    ensures { Tells result (paper_of v ≡ paper_told s.now) }
{
    match v {
        Ok(c) => good(s, c),
        Err(r) => refused(s, r.number(), r.place().unwrap_or(0)),
    }
}

// ---- each table, column by column

fn buses_agree(s: &[u8; 600000], c: BusColumns) -> bool
    ensures { Tells result (buses_in c.entry ≡ buses_told s.now) }
{
    holds(s, 0, c.kind)
        & holds(s, 1, c.vm_set)
        & holds(s, 2, c.pd)
        & holds(s, 3, c.qd)
        & holds(s, 4, c.pg)
        & holds(s, 5, c.qg)
        & holds(s, 6, c.vm_case)
        & holds(s, 7, c.va_case)
}

fn slacks_agree(s: &[u8; 600000], c: SlackColumns) -> bool
    ensures { Tells result (slacks_in c.entry ≡ slacks_told s.now) }
{
    holds(s, 8, c.bus) & holds(s, 9, c.angle)
}

fn generators_agree(s: &[u8; 600000], c: GeneratorColumns) -> bool
    ensures { Tells result (generators_in c.entry ≡ generators_told s.now) }
{
    holds(s, 10, c.bus) & holds(s, 11, c.qmin) & holds(s, 12, c.qmax)
}

// The ends of the lines L or K: j is the first of their two columns.
fn branches_agree(s: &[u8; 600000], j: usize, c: BranchColumns) -> bool
    requires { j + 1 < 30 }
    ensures { Tells result (branches_in c.entry ≡ branches_told s.now j) }
{
    holds(s, j, c.from) & holds(s, j + 1, c.to)
}

fn triplets_agree(s: &[u8; 600000], c: TripletColumns) -> bool
    ensures { Tells result (triplets_in c.entry ≡ triplets_told s.now) }
{
    holds(s, 15, c.row) & holds(s, 16, c.col) & holds(s, 17, c.re) & holds(s, 18, c.im)
}

fn values_agree(s: &[u8; 600000], c: ValueColumns) -> bool
    ensures { Tells result (values_in c.entry ≡ values_told s.now) }
{
    holds(s, 21, c.g)
        & holds(s, 22, c.b)
        & holds(s, 23, c.g_fr)
        & holds(s, 24, c.b_fr)
        & holds(s, 25, c.g_to)
        & holds(s, 26, c.b_to)
        & holds(s, 27, c.tap)
        & holds(s, 28, c.shift)
        & holds(s, 29, c.sw)
}

// ---- the whole

// Reads a text into these columns. Whether the answer and what the columns then hold is as the record says.
fn columns_agree(
    text: &[u8],
    s: &[u8; 600000],
    sources: &mut SourcesMut,
    lines: &mut LinesMut,
    table: &mut BranchTableMut,
) -> bool
    ensures { let old = columns_of (network_lent sources.old lines.old) (branch_table_lent table.old) in
        Tells result (read_of text.now old ≡ outcome_told s.now) }
{
    let v = reader::read_case(text, sources, lines, table);
    answered(s, v)
        & buses_agree(s, sources.buses.read())
        & slacks_agree(s, sources.slacks.read())
        & generators_agree(s, sources.generators.read())
        & branches_agree(s, 13, lines.branches.read())
        & triplets_agree(s, lines.triplets.read())
        & branches_agree(s, 19, table.ends.read())
        & values_agree(s, table.values.read())
}

// Whether the reading of a text, into the first places of columns of marks, is as the record says.
fn agrees(text: &[u8], s: &[u8; 600000]) -> bool
    ensures { Tells result (Agrees text.now s.now) }
{
    let m = width(s);
    let mut kind = [251u8; 258];
    let mut vm_set = [1e300; 258];
    let mut pd = [1e300; 258];
    let mut qd = [1e300; 258];
    let mut pg = [1e300; 258];
    let mut qg = [1e300; 258];
    let mut vm_case = [1e300; 258];
    let mut va_case = [1e300; 258];
    let mut slack_bus = [251usize; 258];
    let mut angle = [1e300; 258];
    let mut gen_bus = [251usize; 258];
    let mut qmin = [1e300; 258];
    let mut qmax = [1e300; 258];
    let mut sources = SourcesMut {
        buses: BusColumnsMut {
            kind: &mut kind[..m],
            vm_set: &mut vm_set[..m],
            pd: &mut pd[..m],
            qd: &mut qd[..m],
            pg: &mut pg[..m],
            qg: &mut qg[..m],
            vm_case: &mut vm_case[..m],
            va_case: &mut va_case[..m],
        },
        slacks: SlackColumnsMut {
            bus: &mut slack_bus[..m],
            angle: &mut angle[..m],
        },
        generators: GeneratorColumnsMut {
            bus: &mut gen_bus[..m],
            qmin: &mut qmin[..m],
            qmax: &mut qmax[..m],
        },
    };
    let mut line_from = [251usize; 258];
    let mut line_to = [251usize; 258];
    let mut row = [251usize; 258];
    let mut col = [251usize; 258];
    let mut re = [1e300; 258];
    let mut im = [1e300; 258];
    let mut lines = LinesMut {
        branches: BranchColumnsMut {
            from: &mut line_from[..m],
            to: &mut line_to[..m],
        },
        triplets: TripletColumnsMut {
            row: &mut row[..m],
            col: &mut col[..m],
            re: &mut re[..m],
            im: &mut im[..m],
        },
    };
    let mut from = [251usize; 258];
    let mut to = [251usize; 258];
    let mut g = [1e300; 258];
    let mut b = [1e300; 258];
    let mut g_fr = [1e300; 258];
    let mut b_fr = [1e300; 258];
    let mut g_to = [1e300; 258];
    let mut b_to = [1e300; 258];
    let mut tap = [1e300; 258];
    let mut shift = [1e300; 258];
    let mut sw = [1e300; 258];
    let mut table = BranchTableMut {
        ends: BranchColumnsMut {
            from: &mut from[..m],
            to: &mut to[..m],
        },
        values: ValueColumnsMut {
            g: &mut g[..m],
            b: &mut b[..m],
            g_fr: &mut g_fr[..m],
            b_fr: &mut b_fr[..m],
            g_to: &mut g_to[..m],
            b_to: &mut b_to[..m],
            tap: &mut tap[..m],
            shift: &mut shift[..m],
            sw: &mut sw[..m],
        },
    };
    columns_agree(text, s, &mut sources, &mut lines, &mut table)
}

// Whether the reading of one text agrees; None where the input has no whole record left.
fn next(head: &mut [u8; 4], text: &mut [u8; 65536], s: &mut [u8; 600000]) -> Option<bool>
    ensures { Found result (Agrees (take (pair_of 0 head.new) text.new) s.new) }
{
    if !vectors::read(STDIN_FILENO, head, 4) {
        return None;
    }
    let n = vectors::pair(head, 0);
    if !vectors::read(STDIN_FILENO, text, n) {
        return None;
    }
    if !vectors::read(STDIN_FILENO, s, vectors::pair(head, 2)) {
        return None;
    }
    let read: &[u8] = text;
    Some(agrees(&read[..n], s))
}

fn main() {
    let mut head = [0u8; 4];
    let mut text = io::large_buffer();
    let mut s = [0u8; 600000];
    vectors::read(STDIN_FILENO, &mut head, 2);
    let count = vectors::pair(&head, 0);
    vectors::compare(
        b"texts",
        count as u64,
        || next(&mut head, &mut text, &mut s),
    );
}
