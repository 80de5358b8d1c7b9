// The readers of one edition each: a text by that edition's rules, into its columns.
#![tactic(auto)]

ghost use Rattle.std.specs.Prelude.{◌≡◌, ◌≤◌, length};
ghost use Rattle.std.proofs.Math.Seq.{slice};
ghost use Rattle.network.specs.Network.{RoomBuses, RoomSlacks, RoomGenerators};
ghost use Rattle.network.specs.Columns.{buses_lent, slacks_lent, generators_lent, network_lent, branch_network_lent, SameSources, SameLines, SameBranchTable};
ghost use Rattle.columns.specs.Columns.{row_count, filled_buses, filled_slacks, filled_generators};
ghost use Rattle.case_text.specs.Answer.{read_result, paper_of, read_first, read_second};

use case_text::{Contents, Refusal};
use network::{BranchTableMut, LinesMut, SourcesMut};
use trailer::{Edition, Places};

// The sections B, R and G, which both editions have.
fn fill_sources(text: &[u8], p: Places, sources: &mut SourcesMut)
    requires places { (p.b ≤ p.r) × (p.r ≤ p.g) × (p.g ≤ p.lines) × (p.lines ≤ length text.now) }
    requires room { RoomBuses (row_count (slice p.b p.r text.now)) (buses_lent sources.old.buses)
        × RoomSlacks (row_count (slice p.r p.g text.now)) (slacks_lent sources.old.slacks)
        × RoomGenerators (row_count (slice p.g p.lines text.now)) (generators_lent sources.old.generators) }
    ensures filled { (buses_lent sources.new.buses ≡ filled_buses (slice p.b p.r text.now) (buses_lent sources.old.buses))
        × (slacks_lent sources.new.slacks ≡ filled_slacks (slice p.r p.g text.now) (slacks_lent sources.old.slacks))
        × (generators_lent sources.new.generators ≡ filled_generators (slice p.g p.lines text.now) (generators_lent sources.old.generators)) }
    ensures same_columns { SameSources sources.old sources.new }
{
    columns::fill_buses(&text[p.b..p.r], &mut sources.buses);
    columns::fill_slacks(&text[p.r..p.g], &mut sources.slacks);
    columns::fill_generators(&text[p.g..p.lines], &mut sources.generators);
}

// Reads a text by the first edition's rules: all 19 columns where it is good, one place per row, and none of them where it is refused.
pub fn read_triplets(
    text: &[u8],
    sources: &mut SourcesMut,
    lines: &mut LinesMut,
) -> Result<Contents, Refusal>
    ensures read { read_result (paper_of result) (network_lent sources.new lines.new) ≡ read_first text.now (network_lent sources.old lines.old) }
    ensures same_columns { SameSources sources.old sources.new × SameLines lines.old lines.new }
{
    let room = sources.room(lines.branches.room(), lines.triplets.room());
    let contents = case_text::judge(text, Edition::First, room)?;
    let p = trailer::section_places(text, Edition::First);
    fill_sources(text, p, sources);
    columns::fill_branches(&text[p.lines..p.triplets], &mut lines.branches);
    columns::fill_triplets(&text[p.triplets..p.t], &mut lines.triplets);
    Ok(contents)
}

// The same by the second edition's rules, with 24 columns.
pub fn read_branches(
    text: &[u8],
    sources: &mut SourcesMut,
    table: &mut BranchTableMut,
) -> Result<Contents, Refusal>
    ensures read { read_result (paper_of result) (branch_network_lent sources.new table.new) ≡ read_second text.now (branch_network_lent sources.old table.old) }
    ensures same_columns { SameSources sources.old sources.new × SameBranchTable table.old table.new }
{
    let room = sources.room(table.room(), 0);
    let contents = case_text::judge(text, Edition::Second, room)?;
    let p = trailer::section_places(text, Edition::Second);
    fill_sources(text, p, sources);
    columns::fill_branches(&text[p.lines..p.triplets], &mut table.ends);
    columns::fill_values(&text[p.lines..p.triplets], &mut table.values);
    Ok(contents)
}
