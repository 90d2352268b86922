// What a run asks before it begins, and what it answers. The questions and the report of a frame that was not refused are internal: stages
// of the frame run.
#![tactic(auto)]

mod numbers;

ghost use Rattle.std.specs.Prelude.{◌≤◌, ◌≡◌, cond, eqb};
ghost use Rattle.frame.specs.Refusals.{refused_by};
ghost use Rattle.run_answer.specs.Answers.{Asks, AsksWithSizes, AnswerOf};
ghost use Rattle.run_answer.specs.Lent.{lent_in, with_counts, roomy_for};

use frame::{Frame, Refusal, Version};
use frame_tables::{ByIsland, Filling, FrameTables};
use island::IslandTables;
use plan_questions::PlanTables;
use turn_table::Tally;

// What a run carries: islands, turns, takes, and D, the largest number of constraints with an island on one body that makes conflicts.
#[derive(Clone, Copy, Debug, Default, PartialEq, Eq)]
pub struct Report {
    pub islands: usize,
    pub turns: usize,
    pub takes: usize,
    pub degree: usize,
}

// What questions 1 to 6 answer: whether a file is refused, and its sizes, also where only 6 refuses it; zeros where another does.
#[derive(Clone, Copy, Debug, PartialEq, Eq)]
pub struct Asked {
    pub refused: Result<(), Refusal>,
    pub sizes: Frame,
}

// Question 6 of a frame of these sizes.
#[tactic(auto, unfolding(crate::specs::Lent::roomy_for))]
fn has_room_for(
    asked: Frame,
    islands: &IslandTables<'_>,
    turns: &[u16],
    tables: &FrameTables<'_>,
    by_island: &ByIsland<'_>,
    plan: &PlanTables<'_>,
    plan_counts: &[u8],
) -> bool
    requires { (asked.manifolds ≤ 4096) × (asked.joints ≤ 4096) }
    ensures { result ≡ roomy_for (with_counts asked.version) asked.bodies asked.manifolds asked.joints
        (lent_in islands.now turns.now tables.now by_island.now plan.now plan_counts.now) }
{
    let bodies = asked.bodies;
    let constraints = asked.manifolds + asked.joints;
    let entries = asked.entries_for();
    let counts = asked.counts_room();
    islands.has_room_for(bodies, asked.manifolds, asked.joints)
        & (3 * constraints <= turns.len())
        & (bodies <= tables.types.len())
        & (bodies <= tables.flags.len())
        & (entries <= tables.pairs.len())
        & (entries <= by_island.pairs.len())
        & (counts <= tables.counts.len())
        & (counts <= by_island.counts.len())
        & (counts <= plan_counts.len())
        & (asked.joints <= tables.enabled.len())
        & (constraints <= by_island.numbers.len())
        & plan.has_room_for(bodies, constraints, entries)
}

// Questions 1 to 6: the refusal of reading the file, or 6.
#[tactic(auto, using(crate::proofs::Sizes::refusal_read))]
fn first_refusal(read: Result<Frame, Refusal>, room: bool) -> Result<(), Refusal>
    ensures { refused_by result ≡ cond (eqb (refused_by read) 0) (cond room 0 6) (refused_by read) }
{
    read?;
    frame::ask(room, Refusal::Room)
}

// Questions 1 to 6 of a file, on these tables; answers the refusal, and the sizes of a file that passed 1 to 5.
pub fn ask_with_sizes(
    frame: &[u8],
    islands: &IslandTables<'_>,
    turns: &[u16],
    tables: &FrameTables<'_>,
    by_island: &ByIsland<'_>,
    plan: &PlanTables<'_>,
    plan_counts: &[u8],
) -> Asked
    ensures { AsksWithSizes frame.now (λ v b m j. roomy_for v b m j
        (lent_in islands.now turns.now tables.now by_island.now plan.now plan_counts.now)) result }
{
    let read = Frame::read(frame);
    let sizes = read.unwrap_or(Frame {
        version: Version::First,
        bodies: 0,
        manifolds: 0,
        joints: 0,
        joint_ends: 0,
    });
    let room = has_room_for(sizes, islands, turns, tables, by_island, plan, plan_counts);
    Asked {
        refused: first_refusal(read, room),
        sizes,
    }
}

// Questions 1 to 6 of a file, on these tables; answers its sizes.
pub fn ask(
    frame: &[u8],
    islands: &IslandTables<'_>,
    turns: &[u16],
    tables: &FrameTables<'_>,
    by_island: &ByIsland<'_>,
    plan: &PlanTables<'_>,
    plan_counts: &[u8],
) -> Result<Frame, Refusal>
    ensures { Asks frame.now (λ v b m j. roomy_for v b m j
        (lent_in islands.now turns.now tables.now by_island.now plan.now plan_counts.now)) result }
{
    let asked = ask_with_sizes(frame, islands, turns, tables, by_island, plan, plan_counts);
    asked.refused?;
    Ok(asked.sizes)
}

// The answer by what filling the tables answered, and by the tally of the turns.
pub fn answer_of(filling: Result<Filling, Refusal>, tally: Tally) -> Result<Report, Refusal>
    ensures { AnswerOf filling tally result }
{
    let filled = filling?;
    Ok(Report {
        islands: usize::from(filled.islands),
        turns: tally.place / 3,
        takes: tally.takes,
        degree: filled.degree,
    })
}
