// The answer of a case text of the first edition.
#![tactic(auto)]

ghost use Rattle.std.specs.Prelude.{◌≡◌};
ghost use Rattle.outcome.specs.Outcome.{outs_lent, SameOuts};
ghost use Rattle.flows.specs.Flows.{blank_flows};
ghost use Rattle.answered.specs.TextAnswer.{answered_with, Few, first_answer};

use answered::Read;
use case_text::Refusal;
use network::{
    BranchColumnsMut, BusColumnsMut, GeneratorColumnsMut, LinesMut, SlackColumnsMut, SourcesMut,
    Tables, TripletColumnsMut,
};
use outcome::AnswerColumnsMut;

// Reads a text by the first edition's rules and solves its tables. The columns hold a solved answer.
pub fn answer_first(text: &[u8], out: &mut AnswerColumnsMut, w: &mut [f64]) -> Result<Read, Refusal>
    ensures answer { answered_with result (outs_lent out.new) blank_flows w.new ≡ first_answer text.now (outs_lent out.old) w.old }
    ensures few { Few result }
    ensures same_columns { SameOuts out.old out.new }
{
    let mut kind = [0u8; 32];
    let mut vm_set = [0.0; 32];
    let mut pd = [0.0; 32];
    let mut qd = [0.0; 32];
    let mut pg = [0.0; 32];
    let mut qg = [0.0; 32];
    let mut vm_case = [0.0; 32];
    let mut va_case = [0.0; 32];
    let mut slack_bus = [0usize; 32];
    let mut angle = [0.0; 32];
    let mut generator_bus = [0usize; 32];
    let mut qmin = [0.0; 32];
    let mut qmax = [0.0; 32];
    let mut sources = SourcesMut {
        buses: BusColumnsMut {
            kind: &mut kind,
            vm_set: &mut vm_set,
            pd: &mut pd,
            qd: &mut qd,
            pg: &mut pg,
            qg: &mut qg,
            vm_case: &mut vm_case,
            va_case: &mut va_case,
        },
        slacks: SlackColumnsMut {
            bus: &mut slack_bus,
            angle: &mut angle,
        },
        generators: GeneratorColumnsMut {
            bus: &mut generator_bus,
            qmin: &mut qmin,
            qmax: &mut qmax,
        },
    };
    let mut from = [0usize; 64];
    let mut to = [0usize; 64];
    let mut row = [0usize; 256];
    let mut col = [0usize; 256];
    let mut re = [0.0; 256];
    let mut im = [0.0; 256];
    let mut lines = LinesMut {
        branches: BranchColumnsMut {
            from: &mut from,
            to: &mut to,
        },
        triplets: TripletColumnsMut {
            row: &mut row,
            col: &mut col,
            re: &mut re,
            im: &mut im,
        },
    };
    let c = editions::read_triplets(text, &mut sources, &mut lines)?;
    let all = Tables {
        buses: sources.buses.read(),
        slacks: sources.slacks.read(),
        generators: sources.generators.read(),
        branches: lines.branches.read(),
        triplets: lines.triplets.read(),
    };
    let outcome = tables::solve(all.first(c.rows), c.start, out, w);
    Ok(Read {
        buses: c.rows.buses,
        branches: 0,
        outcome,
    })
}
