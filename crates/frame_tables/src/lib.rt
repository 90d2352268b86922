// The tables of a frame, internal to the run: the file is decoded, its islands labelled (question 7), D counted, and the constraints'
// numbers sorted by island.
#![tactic(auto)]

ghost use Rattle.std.specs.Prelude.{◌*◌, ◌≤◌, ◌≡◌, length};
ghost use Rattle.frame.specs.Decodes.{Decodable};
ghost use Rattle.frame.specs.Lent.{SameFrame};
ghost use Rattle.frame_parts.specs.Parts.{Standing};
ghost use Rattle.island.specs.Lent as island_lent;
ghost use Rattle.plan_questions.specs.Lent as plan_lent;
ghost use Rattle.frame_tables.specs.Filled.{Roomy, Fills};
ghost use Rattle.frame_tables.specs.Lent.{KeptPlan};

pub use frame::FrameTables;
use frame::{Lists, Refusal};
use island::IslandTables;
use plan_questions::PlanTables;

// The constraints island after island: their numbers, their endpoints, and their counts.
#[derive(Drop)]
pub struct ByIsland<'a> {
    pub numbers: &'a mut [u16],
    pub pairs: &'a mut [u16],
    pub counts: &'a mut [u8],
}

// The frame that stands in the tables.
fn lists_in<'a>(tables: &'a FrameTables<'_>, manifolds: usize) -> Lists<'a>
    requires { 2 * manifolds ≤ length tables.now.pairs.now }
    ensures { Standing tables.now.types.now tables.now.pairs.now manifolds tables.now.counts.now tables.now.enabled.now result }
{
    frame_parts::lists_of(
        tables.types,
        tables.pairs,
        manifolds,
        tables.counts,
        tables.enabled,
    )
}

// How many islands a frame has, and D.
#[derive(Clone, Copy, Debug, PartialEq, Eq)]
pub struct Filling {
    pub islands: u16,
    pub degree: usize,
}

// All tables of a frame that passed questions 1 to 6: `tables` and `numbers` have its sizes. After 7 the numbers are sorted as of no
// islands. Of the plan's tables four are free: the sort's keys and offsets are kept there, and the constraints on each body; the
// other nine stay as they were.
pub fn fill(
    frame: &[u8],
    manifolds: usize,
    islands: &mut IslandTables<'_>,
    tables: &mut FrameTables<'_>,
    numbers: &mut [u16],
    plan: &mut PlanTables<'_>,
) -> Result<Filling, Refusal>
    requires decodable { Decodable frame.now manifolds tables.old.types.now tables.old.flags.now tables.old.pairs.now tables.old.counts.now
        tables.old.enabled.now }
    requires roomy { Roomy frame.now (island_lent.tables_in islands.old) numbers.old plan.old.constraint_colors.now plan.old.scratch_offsets.now
        plan.old.color_offsets.now plan.old.body_stamps.now }
    ensures filled { Fills frame.now tables.new.types.now tables.new.flags.now tables.new.pairs.now tables.new.counts.now tables.new.enabled.now
        (island_lent.tables_in islands.old) (island_lent.tables_in islands.new) numbers.new result }
    ensures same_islands { island_lent.SameTables islands.old islands.new }
    ensures same_frame { SameFrame tables.old tables.new }
    ensures same_plan { plan_lent.SameTables plan.old plan.new }
    ensures plan_lengths { plan_lent.lengths_of (plan_lent.tables_in plan.new) ≡ plan_lent.lengths_of (plan_lent.tables_in plan.old) }
    ensures kept_plan { KeptPlan (plan_lent.tables_in plan.old) (plan_lent.tables_in plan.new) }
{
    frame::decode(frame, manifolds, tables);
    let joints = tables.enabled.len();
    let lists = lists_in(tables, manifolds);
    let built = frame_parts::build(lists, islands);
    let degree = frame_parts::degree_of(built, lists, plan.body_stamps);
    frame_parts::sort(
        islands,
        manifolds,
        joints,
        built.unwrap_or(0),
        plan.constraint_colors,
        plan.scratch_offsets,
        plan.color_offsets,
        numbers,
    );
    let islands = built?;
    Ok(Filling { islands, degree })
}
