// The frame run: from the bytes of a file to the turns of its constraints. Questions 1 to 6 are asked before anything is written; after
// that the tables are filled (question 7), and each island in number order is colored and its groups taken.
#![tactic(auto)]

ghost use Rattle.std.specs.Prelude.{◌≡◌, ◌≤◌, ◌+◌, ◌*◌, ◌++◌, length, take};
ghost use Rattle.frame.specs.Decodes.{Decodable};
ghost use Rattle.colored_bodies.specs.Bindings.{Known};
ghost use Rattle.frame_tables.specs.Filled.{islands_in};
ghost use Rattle.frame.specs.Lent.{SameFrame};
ghost use Rattle.frame_tables.specs.Lent.{SameByIsland};
ghost use Rattle.island.specs.Lent as island_lent;
ghost use Rattle.island_numbers.specs.Tables.{labels_of};
ghost use Rattle.plan_questions.specs.Lent as plan_lent;
ghost use Rattle.run_answer.specs.Lent.{lent_of, lent_in, with_counts, counts_room};
ghost use Rattle.frame_run.specs.Calls.{Ran};
ghost use Rattle.frame_run.specs.Sized.{Cuttable, CutTo, WornCounts, RoomySized, RanSized};

use frame::{Frame, Refusal};
use frame_tables::{ByIsland, Filling, FrameTables};
use island::IslandTables;
use island_numbers::IslandLabels;
use island_run::FilledFrame;
use plan_questions::PlanTables;
use run_answer::Report;

// How many islands are run: none after 7, so that nothing is taken.
fn count_of(filling: Result<Filling, Refusal>) -> u16
    ensures { result ≡ islands_in filling }
{
    filling.map_or(0, |filled| filled.islands)
}

// The filled tables, to be read only.
fn filled_in<'a>(
    tables: &'a FrameTables<'_>,
    labels: IslandLabels<'a>,
    numbers: &'a [u16],
) -> FilledFrame<'a>
    requires { Known tables.now.types.now }
    ensures types { result.types.now ≡ tables.now.types.now }
    ensures flags { result.flags.now ≡ tables.now.flags.now }
    ensures ends { result.ends.now ≡ tables.now.pairs.now }
    ensures counts { result.counts.now ≡ tables.now.counts.now }
    ensures labels { labels_of result.labels ≡ labels_of labels.entry }
    ensures numbers { result.numbers.now ≡ numbers.now }
{
    FilledFrame {
        types: tables.types,
        flags: tables.flags,
        ends: tables.pairs,
        counts: tables.counts,
        labels,
        numbers,
    }
}

// The run of a file that passed questions 1 to 6, on frame tables of its sizes: the tables of the constraints by island, and the plan's
// counts, are cut to them.
fn run_sized(
    asked: Frame,
    frame: &[u8],
    islands: &mut IslandTables<'_>,
    turns: &mut [u16],
    tables: &mut FrameTables<'_>,
    numbers: &mut [u16],
    island_pairs: &mut [u16],
    island_counts: &mut [u8],
    plan: &mut PlanTables<'_>,
    plan_counts: &mut [u8],
) -> Result<Report, Refusal>
    requires decodable { Decodable frame.now asked.manifolds tables.old.types.now tables.old.flags.now tables.old.pairs.now tables.old.counts.now
        tables.old.enabled.now }
    requires cut_to { CutTo frame.now asked numbers.old island_pairs.old island_counts.old plan_counts.old }
    requires roomy_sized { RoomySized frame.now (island_lent.tables_in islands.old) turns.old (take (2 * asked.manifolds + asked.joint_ends) island_pairs.old)
        (take (counts_room (with_counts asked.version) asked.manifolds asked.joints) island_counts.old) (take (asked.manifolds + asked.joints) numbers.old)
        (plan_lent.tables_in plan.old) (take (counts_room (with_counts asked.version) asked.manifolds asked.joints) plan_counts.old) }
    ensures ran { RanSized frame.now (island_lent.tables_in islands.old) turns.old (island_lent.tables_in islands.new) turns.new result }
    ensures same_islands { island_lent.SameTables islands.old islands.new }
    ensures same_frame { SameFrame tables.old tables.new }
    ensures same_plan { plan_lent.SameTables plan.old plan.new }
    ensures plan_lengths { plan_lent.lengths_of (plan_lent.tables_in plan.new) ≡ plan_lent.lengths_of (plan_lent.tables_in plan.old) }
    ensures worn_islands { WornCounts (with_counts asked.version) island_counts.old island_counts.new }
    ensures worn_plan { WornCounts (with_counts asked.version) plan_counts.old plan_counts.new }
{
    let constraints = asked.manifolds + asked.joints;
    let entries = 2 * asked.manifolds + asked.joint_ends;
    let counted = asked.counts_room();
    let filling = frame_tables::fill(
        frame,
        asked.manifolds,
        islands,
        tables,
        &mut numbers[..constraints],
        plan,
    );
    let labels = frame_parts::labels_in(islands, asked.manifolds, asked.joints);
    let filled = filled_in(tables, labels, &numbers[..constraints]);
    let tally = island_run::run_islands(
        count_of(filling),
        filled,
        &mut island_pairs[..entries],
        &mut island_counts[..counted],
        &mut plan_counts[..counted],
        plan,
        turns,
    );
    run_answer::answer_of(filling, tally)
}

// The run of a file that passed questions 1 to 6: the frame's tables are cut to its sizes. Where the constraints have no counts, the tables of
// counts are cut to nothing, and so stay as they were.
fn run_cut(
    asked: Frame,
    frame: &[u8],
    islands: &mut IslandTables<'_>,
    turns: &mut [u16],
    types: &mut [u8],
    flags: &mut [u8],
    pairs: &mut [u16],
    counts: &mut [u8],
    enabled: &mut [u8],
    by_island: &mut ByIsland<'_>,
    plan: &mut PlanTables<'_>,
    plan_counts: &mut [u8],
) -> Result<Report, Refusal>
    requires { Cuttable frame.now (lent_of (island_lent.tables_in islands.old) turns.old types.old flags.old pairs.old by_island.old.pairs.now counts.old
        by_island.old.counts.now enabled.old by_island.old.numbers.now (plan_lent.tables_in plan.old) plan_counts.old) asked }
    ensures ran { Ran frame.now
        (lent_of (island_lent.tables_in islands.old) turns.old types.old flags.old pairs.old by_island.old.pairs.now counts.old
        by_island.old.counts.now enabled.old by_island.old.numbers.now (plan_lent.tables_in plan.old) plan_counts.old)
        (lent_of (island_lent.tables_in islands.new) turns.new types.new flags.new pairs.new by_island.new.pairs.now counts.new
        by_island.new.counts.now enabled.new by_island.new.numbers.now (plan_lent.tables_in plan.new) plan_counts.new) result }
    ensures same_islands { island_lent.SameTables islands.old islands.new }
    ensures same_by_island { SameByIsland by_island.old by_island.new }
    ensures same_plan { plan_lent.SameTables plan.old plan.new }
{
    let counted = asked.counts_room();
    let (types, _) = types.split_at_mut(asked.bodies);
    let (flags, _) = flags.split_at_mut(asked.bodies);
    let (pairs, _) = pairs.split_at_mut(2 * asked.manifolds + asked.joint_ends);
    let (counts, _) = counts.split_at_mut(counted);
    let (enabled, _) = enabled.split_at_mut(asked.joints);
    let mut cut = FrameTables {
        types,
        flags,
        pairs,
        counts,
        enabled,
    };
    run_sized(
        asked,
        frame,
        islands,
        turns,
        &mut cut,
        by_island.numbers,
        by_island.pairs,
        by_island.counts,
        plan,
        plan_counts,
    )
}

// The run of a file. Refusals 1 to 6 change nothing; after 7 the turn table is kept, and the island tables stand as a refused islands
// call leaves them.
pub fn run(
    frame: &[u8],
    islands: &mut IslandTables<'_>,
    turns: &mut [u16],
    tables: &mut FrameTables<'_>,
    by_island: &mut ByIsland<'_>,
    plan: &mut PlanTables<'_>,
    plan_counts: &mut [u8],
) -> Result<Report, Refusal>
    ensures ran { Ran frame.now (lent_in islands.old turns.old tables.old by_island.old plan.old plan_counts.old)
        (lent_in islands.new turns.new tables.new by_island.new plan.new plan_counts.new) result }
    ensures same_islands { island_lent.SameTables islands.old islands.new }
    ensures same_frame { SameFrame tables.old tables.new }
    ensures same_by_island { SameByIsland by_island.old by_island.new }
    ensures same_plan { plan_lent.SameTables plan.old plan.new }
{
    let asked = run_answer::ask(frame, islands, turns, tables, by_island, plan, plan_counts)?;
    run_cut(
        asked,
        frame,
        islands,
        turns,
        tables.types,
        tables.flags,
        tables.pairs,
        tables.counts,
        tables.enabled,
        by_island,
        plan,
        plan_counts,
    )
}
