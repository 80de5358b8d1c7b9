// The report: from the bytes of a case text to the bytes that the solve program prints.
#![tactic(auto)]

ghost use Rattle.std.specs.Prelude.{◌≤◌, length, Err};
ghost use Rattle.io.specs.Counts.{IsPrefixLen};
ghost use Rattle.case_text.specs.Answer as Reader;
ghost use Rattle.outcome.specs.Outcome.{ok, paper_of, refusal_paper, outs_in};
ghost use Rattle.answered.specs.TextAnswer.{buses_in, branches_in, paper_in, Few};
ghost use Rattle.lines.specs.Lines.{Wrote};
ghost use Rattle.lines.specs.Printer.{HasRoom, Printed, OnePerBus};
ghost use Rattle.report.specs.Report.{buffer_size, printed_of, refusal_of, refused_of, report_of, FewFigures, Reported};

use answered::Read;
use flows::Flows;
use lines::Printer;
use outcome::{AnswerColumns, AnswerColumnsMut, Solved};
use real::Value;

// The buffer's bytes: enough for the longest report.
pub const BUFFER: usize = 10240;

// What is printed of a solved case: the figures of its n buses, and the flows of m branches.
#[derive(Clone, Copy)]
struct Figures<'a> {
    n: usize,
    m: usize,
    buses: AnswerColumns<'a>,
    flows: &'a Flows,
}

// What is printed of a text that the reader refuses.
fn put_unread(r: case_text::Refusal, printer: &mut Printer)
    requires { HasRoom printer.old buffer_size }
    ensures { Printed (refusal_of (Reader.paper_of (Err r))) buffer_size printer.old printer.new }
{
    match r.place() {
        Some(at) => printer.put_refused(r.number(), &[Value::Whole(at)]),
        None => printer.put_refused(r.number(), &[]),
    }
}

// What is printed of tables that the solve refuses.
fn put_unsolved(r: outcome::Refusal, printer: &mut Printer)
    requires { HasRoom printer.old buffer_size }
    ensures { Printed (refused_of (refusal_paper r)) buffer_size printer.old printer.new }
{
    match r {
        outcome::Refusal::Counts => printer.put_refused(7, &[]),
        outcome::Refusal::Room => printer.put_refused(9, &[]),
        outcome::Refusal::Slack { row } => printer.put_refused(8, &[Value::Whole(row)]),
        outcome::Refusal::Generator { row } => printer.put_refused(11, &[Value::Whole(row)]),
        outcome::Refusal::Branch { row, field } => {
            printer.put_refused(12, &[Value::Whole(row), Value::Whole(field)])
        }
        outcome::Refusal::Triplet { row, field } => {
            printer.put_refused(13, &[Value::Whole(row), Value::Whole(field)])
        }
        outcome::Refusal::Tap { row } => printer.put_refused(14, &[Value::Whole(row)]),
        outcome::Refusal::Ends { row } => printer.put_refused(15, &[Value::Whole(row)]),
        outcome::Refusal::NotConverged { mismatch, starts } => {
            printer.put_refused(10, &[Value::Real(mismatch), Value::Whole(starts)])
        }
    }
}

// What is printed of a solved case.
fn put_solved(s: Solved, f: Figures, printer: &mut Printer)
    requires { FewFigures f × HasRoom printer.old buffer_size }
    ensures { let e = f.entry in
        Printed (printed_of e.n e.m (ok s.iterations s.residual) (outs_in e.buses) e.flows.now) buffer_size printer.old printer.new }
{
    printer.put_ok(s.iterations, s.residual);
    printer.put_buses(f.n, f.buses);
    printer.put_branches(f.m, f.flows);
}

// What is printed of a solve.
fn put_outcome(r: Result<Solved, outcome::Refusal>, f: Figures, printer: &mut Printer)
    requires { FewFigures f × HasRoom printer.old buffer_size }
    ensures { let e = f.entry in
        Printed (printed_of e.n e.m (paper_of r) (outs_in e.buses) e.flows.now) buffer_size printer.old printer.new }
{
    match r {
        Ok(s) => put_solved(s, f, printer),
        Err(r) => put_unsolved(r, printer),
    }
}

// Prints an answer.
fn put_answer(
    a: Result<Read, case_text::Refusal>,
    buses: AnswerColumns,
    flows: &Flows,
    out: &mut [u8],
) -> usize
    requires { Few a × OnePerBus 32 buses × (buffer_size ≤ length out.old) }
    ensures { Wrote out.old 0 (printed_of (buses_in a) (branches_in a) (paper_in a) (outs_in buses.entry) flows.now) result out.new × (result ≤ buffer_size) }
{
    let mut printer = Printer { out, at: 0 };
    match a {
        Ok(r) => {
            let figures = Figures {
                n: r.buses,
                m: r.branches,
                buses,
                flows,
            };
            put_outcome(r.outcome, figures, &mut printer)
        }
        Err(r) => put_unread(r, &mut printer),
    }
    printer.at
}

// The report of a text. The buffer's first places, as many as are answered, hold it.
pub fn report(text: &[u8], out: &mut [u8; BUFFER], space: &mut [f64; 6144]) -> usize
    ensures reported { Reported (report_of text.now space.old) out.old result out.new space.new }
    ensures prefix_len { IsPrefixLen result out.new }
{
    let mut vm = [0.0; 32];
    let mut va = [0.0; 32];
    let mut p = [0.0; 32];
    let mut q = [0.0; 32];
    let mut kinds = [0u8; 32];
    let mut columns = AnswerColumnsMut {
        vm: &mut vm,
        va: &mut va,
        p: &mut p,
        q: &mut q,
        kinds: &mut kinds,
    };
    let r = answer::answer(text, &mut columns, space);
    put_answer(r.answered, columns.read(), &r.flows, out)
}
