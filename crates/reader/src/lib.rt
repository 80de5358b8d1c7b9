// The reading call: a case text of either edition is told which it is, and read by that edition's rules.
#![tactic(auto)]

ghost use Rattle.std.specs.Prelude.{◌≡◌};
ghost use Rattle.network.specs.Columns.{network_lent, branch_table_lent, SameSources, SameLines, SameBranchTable};
ghost use Rattle.case_text.specs.Answer.{read_result, paper_of};
ghost use Rattle.reader.specs.Reader.{columns_of, read_of};

use case_text::{Contents, Refusal};
use network::{BranchTableMut, LinesMut, SourcesMut};
use trailer::Edition;

// Reads a case text: tells its edition and fills that edition's columns where it is good, one place per row. All other columns stay as they were, and all of
// them where it is refused.
pub fn read_case(
    text: &[u8],
    sources: &mut SourcesMut,
    lines: &mut LinesMut,
    table: &mut BranchTableMut,
) -> Result<Contents, Refusal>
    ensures read { read_result (paper_of result) (columns_of (network_lent sources.new lines.new) (branch_table_lent table.new))
        ≡ read_of text.now (columns_of (network_lent sources.old lines.old) (branch_table_lent table.old)) }
    ensures same_columns { SameSources sources.old sources.new × SameLines lines.old lines.new × SameBranchTable table.old table.new }
{
    match trailer::edition_of(text) {
        Edition::First => editions::read_triplets(text, sources, lines),
        Edition::Second => editions::read_branches(text, sources, table),
    }
}
