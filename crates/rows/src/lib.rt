// The lines of a case text, and its sections. A check that tells a place looks at what stands from a up to e.
#![tactic(auto)]

ghost use Rattle.std.specs.Prelude.{◌≡◌, ◌≤◌, length};
ghost use Rattle.std.proofs.Math.Seq.{slice};
ghost use Rattle.fields.specs.Cut.{pieces};
ghost use Rattle.rows.specs.Asked.{section_letter, field_count, size_of, want_of, good_of};
ghost use Rattle.rows.specs.Line.{spaced_of, form_of, fields_of, line_of};
ghost use Rattle.rows.specs.Rows.{check_of};

// The sections of a case text, of either edition.
#[derive(Clone, Copy, Debug, PartialEq, Eq)]
pub enum Section {
    B,
    R,
    G,
    L,
    Y,
    K,
}

// What a field holds: a real, a real or `?`, a bus number, a kind.
#[derive(Clone, Copy, Debug, PartialEq, Eq)]
pub enum Want {
    Plain,
    Stored,
    Bus,
    Kind,
}

// A refusal of a section, with its place: 6, more rows than the table has, 4, a line's form, and 5, a field.
#[derive(Clone, Copy, Debug, PartialEq, Eq)]
pub enum Fault {
    Rows(usize),
    Form(usize),
    Field(usize),
}

impl Section {
    fn letter(self) -> u8
        ensures { result ≡ section_letter self }
    {
        match self {
            Section::B => b'B',
            Section::R => b'R',
            Section::G => b'G',
            Section::L => b'L',
            Section::Y => b'Y',
            Section::K => b'K',
        }
    }

    // How many fields its lines have.
    fn count(self) -> usize
        ensures { result ≡ field_count self }
    {
        match self {
            Section::B => 8,
            Section::R | Section::L => 2,
            Section::G => 3,
            Section::Y => 4,
            Section::K => 11,
        }
    }

    // How many rows its table has.
    fn size(self) -> usize
        ensures { result ≡ size_of self }
    {
        match self {
            Section::B | Section::R | Section::G => 32,
            Section::L | Section::K => 64,
            Section::Y => 256,
        }
    }

    // What field j of its lines holds, counted from 0.
    fn wanted(self, j: usize) -> Want
        ensures { result ≡ want_of self j }
    {
        match self {
            Section::B => match j {
                0 => Want::Kind,
                1..=5 => Want::Plain,
                _ => Want::Stored,
            },
            Section::R | Section::G => match j {
                0 => Want::Bus,
                _ => Want::Plain,
            },
            Section::L => Want::Bus,
            Section::Y | Section::K => match j {
                0..=1 => Want::Bus,
                _ => Want::Plain,
            },
        }
    }
}

// Whether the field is what w asks.
fn good(f: &[u8], w: Want) -> bool
    ensures { result ≡ good_of w f.now }
{
    match w {
        Want::Plain => fields::read_real(f).is_some(),
        Want::Stored => fields::real_or_nan(f).is_some(),
        Want::Bus => fields::read_bus(f).is_some(),
        Want::Kind => fields::is_byte(f, b'V') || fields::is_byte(f, b'Q'),
    }
}

// Whether there are n fields, none empty, with one space between.
fn spaced(f: &[u8], n: usize) -> bool
    ensures { result ≡ spaced_of 0 n (pieces 32 f.now) }
{
    let e = f.len();
    let mut i: usize = 0;
    let mut k: usize = 0;
    // By `find` and not `split`: the laws on pieces speak of the place found.
    loop {
        let q = fields::find(f, i, e, b' ');
        if q == i {
            return false;
        }
        k += 1;
        if q == e {
            return k == n;
        }
        i = q + 1;
    }
}

// Whether the line has the form that its section asks.
fn form(l: &[u8], z: Section) -> bool
    ensures { result ≡ form_of z (pieces 32 l.now) }
{
    let e = l.len();
    let p = fields::find(l, 0, e, b' ');
    p < e && fields::is_byte(&l[..p], z.letter()) && spaced(&l[p + 1..], z.count())
}

// The first wrong field, left to right.
fn check_fields(s: &[u8], a: usize, e: usize, z: Section) -> Result<(), Fault>
    requires { (a ≤ e) × (e ≤ length s.now) }
    ensures { result ≡ fields_of z 0 a (pieces 32 (slice a e s.now)) }
{
    let mut i = a;
    let mut j: usize = 0;
    // By `find` and not `split`: a refusal tells the field's place.
    loop {
        let q = fields::find(s, i, e, b' ');
        if !good(&s[i..q], z.wanted(j)) {
            return Err(Fault::Field(i));
        }
        if q == e {
            return Ok(());
        }
        i = q + 1;
        j += 1;
    }
}

// A line, its LF not counted.
fn check_line(s: &[u8], a: usize, e: usize, z: Section) -> Result<(), Fault>
    requires { (a ≤ e) × (e ≤ length s.now) }
    ensures { result ≡ line_of z a (slice a e s.now) }
{
    if !form(&s[a..e], z) {
        return Err(Fault::Form(a));
    }
    check_fields(s, a + 2, e, z)
}

// A section, line by line: 6, then 4, then 5. A good one is answered with the number of its rows.
pub fn check_section(s: &[u8], a: usize, e: usize, z: Section) -> Result<usize, Fault>
    requires { (a ≤ e) × (e ≤ length s.now) }
    ensures { result ≡ check_of z a (slice a e s.now) }
{
    let mut i = a;
    let mut r: usize = 0;
    // By `find` and not `split`: a refusal tells the line's place.
    while i < e {
        if z.size() <= r {
            return Err(Fault::Rows(i));
        }
        let p = fields::find(s, i, e, b'\n');
        if p == e {
            return Err(Fault::Form(i));
        }
        check_line(s, i, p, z)?;
        i = p + 1;
        r += 1;
    }
    Ok(r)
}
