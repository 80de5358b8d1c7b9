// The trailer of a case text: of which edition the text is, which start it asks for, and where its sections stand.
#![tactic(auto)]

ghost use Rattle.std.specs.Prelude.{◌≡◌, ◌+◌, ◌*◌, ◌≤◌, ◌<◌, length};
ghost use Rattle.trailer.specs.Trailer.{groups_of, width_of, trailer_length, trailer_start, group_at, group_number, rising_of, mode_of, asked_of, edition_of};
ghost use Rattle.trailer.specs.Trailer.{trailer_by, trailer_of, index_of, behind_g, last_of, section_start, section_end, places_of};

use rows::Section;
use starts::AcStart;

// The editions of the case text: with lines and triplets, and with branches.
#[derive(Clone, Copy, Debug, PartialEq, Eq)]
pub enum Edition {
    First,
    Second,
}

// Where the sections start, and the trailer: B, R, G, then the lines L or K, then the triplets Y, of which the second edition has none.
#[derive(Clone, Copy)]
pub struct Places {
    pub b: usize,
    pub r: usize,
    pub g: usize,
    pub lines: usize,
    pub triplets: usize,
    pub t: usize,
}

// What the editions differ in.
impl Edition {
    // The groups of a trailer.
    fn groups(self) -> usize
        ensures { (result ≡ groups_of self) × (0 < result) × (result ≤ 6) }
    {
        match self {
            Edition::First => 6,
            Edition::Second => 5,
        }
    }

    // The bytes of a trailer: its flag, its groups of six bytes each, and LF.
    pub fn width(self) -> usize
        ensures { result ≡ trailer_length self }
    {
        1 + 6 * self.groups() + 1
    }

    // The start that a trailer asks for by its flag, if the byte is a flag.
    pub fn start(self, flag: u8) -> Option<AcStart>
        ensures { result ≡ asked_of self flag }
    {
        match (self, flag) {
            (Edition::First, b'F') | (Edition::Second, b'f') => Some(AcStart::Flat),
            (Edition::First, b'C') | (Edition::Second, b'c') => Some(AcStart::Case),
            _ => None,
        }
    }

    // The start that a good trailer asks for by its flag; of a byte that is no flag it is the case start.
    pub fn mode(self, flag: u8) -> AcStart
        ensures { result ≡ mode_of self flag }
    {
        self.start(flag).unwrap_or(AcStart::Case)
    }

    // The section behind G.
    pub fn behind_g(self) -> Section
        ensures { result ≡ behind_g self }
    {
        match self {
            Edition::First => Section::L,
            Edition::Second => Section::K,
        }
    }

    // The last section.
    fn last(self) -> Section
        ensures { result ≡ last_of self }
    {
        match self {
            Edition::First => Section::Y,
            Edition::Second => Section::K,
        }
    }
}

// ---- the trailer

// The text and the place from which it is read on, kept together.
#[derive(Clone, Copy)]
struct Reader<'a> {
    text: &'a [u8],
    at: usize,
}

impl<'a> Reader<'a> {
    // A space and five digits.
    fn group(self) -> Option<usize>
        requires { self.at + 6 ≤ length self.text.now }
        ensures { result ≡ group_at self.entry.text.now self.entry.at }
    {
        if self.text[self.at] == b' ' {
            return fields::whole(&self.text[self.at + 1..self.at + 6], 0);
        }
        None
    }
}

// The number of group j of the trailer at t, counted from 0.
fn group_number(s: &[u8], t: usize, j: usize) -> usize
    requires { t + 1 + 6 * j + 6 ≤ length s.now }
    ensures { result ≡ group_number s.now t j }
{
    let r = Reader {
        text: s,
        at: t + 1 + 6 * j,
    };
    r.group().unwrap_or(0)
}

// Whether n groups stand from at on, whose numbers never fall, and the last is `end`.
fn rising(s: &[u8], at: usize, n: usize, end: usize) -> bool
    requires { at + 6 * n ≤ length s.now }
    ensures { result ≡ rising_of n s.now at 0 end }
{
    let mut low: usize = 0;
    for k in 0..n {
        let r = Reader {
            text: s,
            at: at + 6 * k,
        };
        let Some(m) = r.group() else {
            return false;
        };
        if m < low {
            return false;
        }
        low = m;
    }
    low == end
}

// Which edition a text is of: the second where the byte at which its trailer would start is one of its flags.
pub fn edition_of(s: &[u8]) -> Edition
    ensures { result ≡ edition_of s.now }
{
    let n = s.len();
    let w = Edition::Second.width();
    if w <= n && Edition::Second.start(s[n - w]).is_some() {
        return Edition::Second;
    }
    Edition::First
}

// Whether k groups and LF stand behind the flag at t, the first number 0, none below the one before, and the last t.
fn is_trailer_by(s: &[u8], t: usize, k: usize) -> bool
    requires { (0 < k) × (t + width_of k ≤ length s.now) }
    ensures { result ≡ trailer_by k s.now t }
{
    s[t + 1 + 6 * k] == b'\n' && group_number(s, t, 0) == 0 && rising(s, t + 1, k, t)
}

// Whether an edition's trailer stands from t on.
pub fn is_trailer(s: &[u8], t: usize, e: Edition) -> bool
    requires { t + trailer_length e ≤ length s.now }
    ensures { result ≡ trailer_of e s.now t }
{
    e.start(s[t]).is_some() && is_trailer_by(s, t, e.groups())
}

// ---- where the sections stand

// Which group has a section's start, counted from 0.
fn index(z: Section) -> usize
    ensures { (result ≡ index_of z) × (result < 5) }
{
    match z {
        Section::B => 0,
        Section::R => 1,
        Section::G => 2,
        Section::L | Section::K => 3,
        Section::Y => 4,
    }
}

// Where a section starts.
pub fn start_of(s: &[u8], t: usize, z: Section) -> usize
    requires { t + 1 + 6 * (index_of z + 2) ≤ length s.now }
    ensures { result ≡ section_start z s.now t }
{
    group_number(s, t, index(z))
}

// Where a section ends: at the next start.
pub fn end_of(s: &[u8], t: usize, z: Section) -> usize
    requires { t + 1 + 6 * (index_of z + 2) ≤ length s.now }
    ensures { result ≡ section_end z s.now t }
{
    group_number(s, t, index(z) + 1)
}

// Where the sections of a good text of an edition start, and its trailer.
pub fn section_places(s: &[u8], e: Edition) -> Places
    requires { trailer_length e ≤ length s.now }
    ensures { result ≡ places_of e s.now (trailer_start e s.now) }
{
    let t = s.len() - e.width();
    let z = e.behind_g();
    Places {
        b: start_of(s, t, Section::B),
        r: start_of(s, t, Section::R),
        g: start_of(s, t, Section::G),
        lines: start_of(s, t, z),
        triplets: end_of(s, t, z),
        t: end_of(s, t, e.last()),
    }
}
