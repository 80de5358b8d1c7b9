// What a case text of either edition is answered: its length, its trailer, its alphabet, its sections in turn, and the room in the columns.
#![tactic(auto)]

ghost use Rattle.std.specs.Prelude.{◌≡◌, true, ◌+◌, ◌<◌, ◌≤◌, [], ◌∷◌, length, MatchOption};
ghost use Rattle.std.proofs.Math.Seq.{slice};
ghost use Rattle.real.specs.declared.Value.TheVariants.{Whole};
ghost use Rattle.fields.specs.Cut.{has};
ghost use Rattle.trailer.specs.Trailer.{trailer_length, trailer_of, Starts};
ghost use Rattle.case_text.specs.Alphabet.{alphabet, alphabet_of, known_of};
ghost use Rattle.case_text.specs.Text.{refusal_of, part_of, triplet_part_of, body_of, checked_text};
ghost use Rattle.case_text.specs.Answer.{judged_of, refusal_number, refusal_values};

use network::Rows;
use rows::{Fault, Section};
use starts::AcStart;
use trailer::Edition;

// What a good text holds: its edition, its start, and the rows of each table. A second-edition text has no triplets, and its branches are the rows of K.
#[derive(Clone, Copy)]
pub struct Contents {
    pub edition: Edition,
    pub start: AcStart,
    pub rows: Rows,
}

// Why a text is refused: one of the refusals 1, 2, 3, 6, 4, 5 with its place, or 9.
#[derive(Clone, Copy, Debug, PartialEq, Eq)]
pub enum Refusal {
    Length(usize),
    Trailer(usize),
    Byte(usize),
    Rows(usize),
    Form(usize),
    Field(usize),
    Room,
}

impl Refusal {
    // Its number.
    pub fn number(self) -> usize
        ensures { result ≡ refusal_number self }
    {
        match self {
            Refusal::Length(_) => 1,
            Refusal::Trailer(_) => 2,
            Refusal::Byte(_) => 3,
            Refusal::Rows(_) => 6,
            Refusal::Form(_) => 4,
            Refusal::Field(_) => 5,
            Refusal::Room => 9,
        }
    }

    // Its place, which refusal 9 has not.
    pub fn place(self) -> Option<usize>
        ensures { MatchOption result (refusal_values self ≡ []) (λ at. refusal_values self ≡ Whole at ∷ []) }
    {
        match self {
            Refusal::Length(at)
            | Refusal::Trailer(at)
            | Refusal::Byte(at)
            | Refusal::Rows(at)
            | Refusal::Form(at)
            | Refusal::Field(at) => Some(at),
            Refusal::Room => None,
        }
    }
}

// A section's fault is the text's.
impl From<Fault> for Refusal {
    ghost from_gives = { λ v r. r ≡ refusal_of v };

    fn from(v: Fault) -> Refusal {
        match v {
            Fault::Rows(at) => Refusal::Rows(at),
            Fault::Form(at) => Refusal::Form(at),
            Fault::Field(at) => Refusal::Field(at),
        }
    }
}

// Whether a byte is of the first edition's alphabet. Most bytes of a text are digits, so these are looked for first.
fn known_first(b: u8) -> bool
    ensures { result ≡ has b alphabet }
{
    let all = b"\n -.0123456789?BRGLYVQ";
    b.is_ascii_digit() || all.contains(&b)
}

// Whether a byte is of an edition's alphabet.
fn known(b: u8, x: Edition) -> bool
    ensures { result ≡ has b (alphabet_of x) }
{
    match x {
        Edition::First => known_first(b),
        Edition::Second => known_first(b) || b == b'K',
    }
}

// The place of the first byte before e that is not of the alphabet.
fn stranger(s: &[u8], e: usize, x: Edition) -> Option<usize>
    requires { e ≤ length s.now }
    ensures { MatchOption result (e ≤ known_of x (slice 0 e s.now)) (λ p. (p ≡ known_of x (slice 0 e s.now)) × (p < e)) }
{
    s[..e].iter().position(|&b| !known(b, x))
}

// A section of an edition.
fn check_part(s: &[u8], t: usize, x: Edition, z: Section) -> Result<usize, Fault>
    requires { (t + trailer_length x ≤ length s.now) × (trailer_of x s.now t ≡ true) × Starts x z }
    ensures { result ≡ part_of z s.now t }
{
    rows::check_section(s, trailer::start_of(s, t, z), trailer::end_of(s, t, z), z)
}

// The section Y, of which the second edition has no lines.
fn check_triplets(s: &[u8], t: usize, x: Edition) -> Result<usize, Fault>
    requires { (t + trailer_length x ≤ length s.now) × (trailer_of x s.now t ≡ true) }
    ensures { result ≡ triplet_part_of x s.now t }
{
    match x {
        Edition::First => check_part(s, t, Edition::First, Section::Y),
        Edition::Second => Ok(0),
    }
}

// The sections in turn.
fn body(s: &[u8], t: usize, x: Edition) -> Result<Contents, Refusal>
    requires { (t + trailer_length x ≤ length s.now) × (trailer_of x s.now t ≡ true) }
    ensures { result ≡ body_of x s.now t }
{
    let buses = check_part(s, t, x, Section::B)?;
    let slacks = check_part(s, t, x, Section::R)?;
    let generators = check_part(s, t, x, Section::G)?;
    let branches = check_part(s, t, x, x.behind_g())?;
    let triplets = check_triplets(s, t, x)?;
    let rows = Rows {
        buses,
        slacks,
        generators,
        branches,
        triplets,
    };
    Ok(Contents {
        edition: x,
        start: x.mode(s[t]),
        rows,
    })
}

// The whole text by an edition's rules: all that is checked before the columns are looked at.
fn check_text(s: &[u8], x: Edition) -> Result<Contents, Refusal>
    ensures { result ≡ checked_text x s.now }
{
    let n = s.len();
    let w = x.width();
    if n < w {
        return Err(Refusal::Length(n));
    }
    if 32768 < n {
        return Err(Refusal::Length(32768));
    }
    let t = n - w;
    if !trailer::is_trailer(s, t, x) {
        return Err(Refusal::Trailer(t));
    }
    if let Some(p) = stranger(s, t, x) {
        return Err(Refusal::Byte(p));
    }
    body(s, t, x)
}

// The answer: the whole text, and then refusal 9.
pub fn judge(s: &[u8], x: Edition, room: Rows) -> Result<Contents, Refusal>
    ensures { result ≡ judged_of x s.now room }
{
    let c = check_text(s, x)?;
    if !network::fits(c.rows, room) {
        return Err(Refusal::Room);
    }
    Ok(c)
}
