// The groups of one island's plan, internal to the frame run: for each group in order its bodies are bound and its members taken, and
// each take that is not refused appends a turn: island, group, constraint number.
#![tactic(auto)]

ghost use Rattle.std.specs.Prelude.{◌≡◌, [], ◌∷◌, Ok, ◌≤◌, length, get_or};
ghost use Rattle.colored_bodies.specs.Bindings.{bind_of};
ghost use Rattle.turn_table.specs.Turns.{RoomIn, AppendedTo};
ghost use Rattle.group_run.specs.Views.{plan_in, taken_from, groups_of};
ghost use Rattle.group_run.specs.Appends.{added_by, marks_of, SameLent, pair_taken, counted_taken, RankTaken, MemberTaken};

use colored_bodies::{BoundMarks, Marked};
use frame::{Frame, Refusal};
pub use planned::PlannedIsland;
use turn_table::{Turn, TurnTable};

mod planned;

// How many bodies a take of two marks hands as dynamic.
fn pair_taken(marked: Marked) -> usize
    ensures { Ok result ≡ pair_taken (Ok marked) }
{
    usize::from(marked.first_dynamic) + usize::from(marked.second_dynamic)
}

// And how many a take of two to four.
fn counted_taken(dynamic: [bool; Frame::MAX_ENDS]) -> usize
    ensures { Ok result ≡ counted_taken (Ok dynamic) }
{
    usize::from(dynamic[0])
        + usize::from(dynamic[1])
        + usize::from(dynamic[2])
        + usize::from(dynamic[3])
}

// A take of a pair: its plan's lookup is asked for its two positions.
fn take_pair(
    planned: PlannedIsland<'_>,
    rank: usize,
    marks: &mut BoundMarks<'_>,
) -> Result<usize, Refusal>
    requires { length planned.counts.now ≡ 0 }
    ensures { RankTaken (plan_in planned.entry) rank marks.old result marks.new }
{
    let places = planned
        .plan
        .body_positions_for_constraint(planned.positions, rank)?;
    let marked = marks.take(usize::from(places[0]), usize::from(places[1]))?;
    Ok(pair_taken(marked))
}

// A take of a constraint that has a count: its positions stand between its bounds.
fn take_counted(
    planned: PlannedIsland<'_>,
    rank: usize,
    marks: &mut BoundMarks<'_>,
) -> Result<usize, Refusal>
    requires { length planned.counts.now ≡ 0 → ⊥ }
    ensures { RankTaken (plan_in planned.entry) rank marks.old result marks.new }
{
    if planned.counts.len() <= rank {
        return Err(Refusal::NoConstraint);
    }
    let places = parts::part(planned.positions, planned.bounds, rank);
    let dynamic = marks.take_at(places)?;
    Ok(counted_taken(dynamic))
}

// A take asks for its constraint's positions, by its rank in the island, and takes them.
fn take_rank(
    planned: PlannedIsland<'_>,
    rank: usize,
    marks: &mut BoundMarks<'_>,
) -> Result<usize, Refusal>
    ensures { RankTaken (plan_in planned.entry) rank marks.old result marks.new }
{
    if planned.counts.len() == 0 {
        return take_pair(planned, rank, marks);
    }
    take_counted(planned, rank, marks)
}

// The number of the constraint of a rank, 0 past the last.
fn number_at(numbers: &[u16], rank: usize) -> u16
    ensures { result ≡ get_or numbers.now rank 0 }
{
    numbers.get(rank).copied().unwrap_or(0)
}

// One member of a group is taken and, if it is not refused, appended.
fn take_member(
    planned: PlannedIsland<'_>,
    group: u16,
    rank: usize,
    marks: &mut BoundMarks<'_>,
    turns: &mut TurnTable<'_>,
)
    requires { RoomIn (added_by (taken_from planned group (marks_of marks.old) (rank ∷ []))) turns.old }
    ensures { MemberTaken (plan_in planned.entry) planned.entry.numbers.now planned.entry.island group rank marks.old turns.old marks.new turns.new }
{
    let taken = take_rank(planned, rank, marks);
    let turn = Turn {
        island: planned.island,
        group,
        number: number_at(planned.numbers, rank),
    };
    turns.append(taken, turn);
}

// The members of a group, in order.
fn take_members(
    planned: PlannedIsland<'_>,
    group: u16,
    members: &[u16],
    marks: &mut BoundMarks<'_>,
    turns: &mut TurnTable<'_>,
)
    requires { RoomIn (added_by (taken_from planned group (marks_of marks.old) members.now)) turns.old }
    ensures appended { AppendedTo (added_by (taken_from planned.entry group (marks_of marks.old) members.now)) turns.old turns.new }
    ensures same { SameLent marks.old marks.new }
{
    // The members passed are taken, and their turns appended.
    for &rank in members {
        take_member(planned, group, usize::from(rank), marks, turns);
    }
}

// One group: its bodies are bound, and its members taken from that binding. The marks are a table to work in.
fn run_group(
    planned: PlannedIsland<'_>,
    group: u16,
    bodies: &[u16],
    members: &[u16],
    marks: &mut BoundMarks<'_>,
    turns: &mut TurnTable<'_>,
)
    requires { RoomIn (added_by (taken_from planned group (bind_of planned.types.now bodies.now) members.now)) turns.old }
    ensures appended { AppendedTo (added_by (taken_from planned.entry group (bind_of planned.entry.types.now bodies.now) members.now)) turns.old turns.new }
    ensures same { SameLent marks.old marks.new }
{
    marks.bind(planned.types, bodies);
    take_members(planned, group, members, marks, turns);
}

// The groups of a plan, in order.
pub fn run_groups(planned: PlannedIsland<'_>, turns: &mut TurnTable<'_>)
    requires color_count_bound { planned.plan.color_count ≤ 8192 }
    requires room { RoomIn (added_by (groups_of planned)) turns.old }
    ensures { AppendedTo (added_by (groups_of planned.entry)) turns.old turns.new }
{
    let mut table = [0u8; Frame::MAX_BODIES];
    let mut marks = BoundMarks {
        marks: &mut table,
        count: 0,
    };
    // The groups below `group` are run, and their turns appended.
    for group in 0..planned.plan.color_count {
        let bodies = planned.bodies_of(group);
        let members = planned.members_of(group);
        run_group(planned, group as u16, bodies, members, &mut marks, turns);
    }
}
