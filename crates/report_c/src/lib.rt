// The report for callers in C: `report`, by the name and with the promise that the library has.
#![tactic(auto)]

ghost use Rattle.io.specs.Counts.{IsPrefixLen};
ghost use Rattle.report.specs.Report.{Reported, report_of};

// The report of a text. The buffer's first places, as many as are answered, hold it.
#[unsafe(no_mangle)]
pub extern "C" fn report(
    text: &[u8],
    out: &mut [u8; report::BUFFER],
    space: &mut [f64; 6144],
) -> usize
    ensures reported { Reported (report_of text.now space.old) out.old result out.new space.new }
    ensures prefix_len { IsPrefixLen result out.new }
{
    report::report(text, out, space)
}
