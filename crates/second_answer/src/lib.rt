// The answer of a case text of the second edition.
#![tactic(auto)]

ghost use Rattle.std.specs.Prelude.{◌≡◌};
ghost use Rattle.outcome.specs.Outcome.{outs_lent, SameOuts};
ghost use Rattle.flows.specs.Flows.{blank_flows, flows_lent, SameFlows};
ghost use Rattle.answered.specs.TextAnswer.{answered_with, Few, second_answer};

use answered::{FlowAnswer, Read};
use case_text::Refusal;
use flows::{FlowColumnsMut, Flows};
use network::{
    BranchColumnsMut, BranchTableMut, BranchTables, BusColumnsMut, GeneratorColumnsMut,
    SlackColumnsMut, SourcesMut, ValueColumnsMut,
};
use outcome::AnswerColumnsMut;

// Reads a text by the second edition's rules and solves its tables, with the flows in columns of zeros.
fn read_and_solve(
    text: &[u8],
    out: &mut AnswerColumnsMut,
    flows: &mut FlowColumnsMut,
    w: &mut [f64],
) -> Result<Read, Refusal>
    requires { flows_lent flows.old ≡ blank_flows }
    ensures answer { answered_with result (outs_lent out.new) (flows_lent flows.new) w.new ≡ second_answer text.now (outs_lent out.old) w.old }
    ensures few { Few result }
    ensures same_columns { SameOuts out.old out.new × SameFlows flows.old flows.new }
{
    let mut kind = [0u8; 32];
    let mut vm_set = [0.0; 32];
    let mut pd = [0.0; 32];
    let mut qd = [0.0; 32];
    let mut pg = [0.0; 32];
    let mut qg = [0.0; 32];
    let mut vm_case = [0.0; 32];
    let mut va_case = [0.0; 32];
    let mut slack_bus = [0usize; 32];
    let mut angle = [0.0; 32];
    let mut generator_bus = [0usize; 32];
    let mut qmin = [0.0; 32];
    let mut qmax = [0.0; 32];
    let mut sources = SourcesMut {
        buses: BusColumnsMut {
            kind: &mut kind,
            vm_set: &mut vm_set,
            pd: &mut pd,
            qd: &mut qd,
            pg: &mut pg,
            qg: &mut qg,
            vm_case: &mut vm_case,
            va_case: &mut va_case,
        },
        slacks: SlackColumnsMut {
            bus: &mut slack_bus,
            angle: &mut angle,
        },
        generators: GeneratorColumnsMut {
            bus: &mut generator_bus,
            qmin: &mut qmin,
            qmax: &mut qmax,
        },
    };
    let mut from = [0usize; 64];
    let mut to = [0usize; 64];
    let mut g = [0.0; 64];
    let mut b = [0.0; 64];
    let mut g_fr = [0.0; 64];
    let mut b_fr = [0.0; 64];
    let mut g_to = [0.0; 64];
    let mut b_to = [0.0; 64];
    let mut tap = [0.0; 64];
    let mut shift = [0.0; 64];
    let mut sw = [0.0; 64];
    let mut table = BranchTableMut {
        ends: BranchColumnsMut {
            from: &mut from,
            to: &mut to,
        },
        values: ValueColumnsMut {
            g: &mut g,
            b: &mut b,
            g_fr: &mut g_fr,
            b_fr: &mut b_fr,
            g_to: &mut g_to,
            b_to: &mut b_to,
            tap: &mut tap,
            shift: &mut shift,
            sw: &mut sw,
        },
    };
    let c = editions::read_branches(text, &mut sources, &mut table)?;
    let all = BranchTables {
        buses: sources.buses.read(),
        slacks: sources.slacks.read(),
        generators: sources.generators.read(),
        ends: table.ends.read(),
        values: table.values.read(),
    };
    let outcome = branch_tables::solve(all.first(c.rows), c.start, out, flows, w);
    Ok(Read {
        buses: c.rows.buses,
        branches: c.rows.branches,
        outcome,
    })
}

// The answer of a text by the second edition's rules, with its flows. The columns hold a solved answer.
pub fn answer_second(text: &[u8], out: &mut AnswerColumnsMut, w: &mut [f64]) -> FlowAnswer
    ensures answer { answered_with result.answered (outs_lent out.new) result.flows w.new ≡ second_answer text.now (outs_lent out.old) w.old }
    ensures few { Few result.answered }
    ensures same_columns { SameOuts out.old out.new }
{
    let mut pf = [0.0; 64];
    let mut qf = [0.0; 64];
    let mut pt = [0.0; 64];
    let mut qt = [0.0; 64];
    let mut loss = [0.0; 64];
    let mut columns = FlowColumnsMut {
        pf: &mut pf,
        qf: &mut qf,
        pt: &mut pt,
        qt: &mut qt,
        loss: &mut loss,
    };
    let answered = read_and_solve(text, out, &mut columns, w);
    let flows = Flows {
        pf,
        qf,
        pt,
        qt,
        loss,
    };
    FlowAnswer { answered, flows }
}
