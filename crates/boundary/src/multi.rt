// The calls for C and Rust on joints and constraints of two to four bodies.
ghost use Rattle.std.specs.Prelude.{get_or};
ghost use Rattle.frame.specs.Frames.{frame_with};
ghost use Rattle.island.specs.Calls.{island_tables_of, rooms_of, multi_island_refusal, Built};
ghost use Rattle.plan_questions.specs.Plans.{tables_of};
ghost use Rattle.boundary.specs.Exports.{MultiUpdates, MultiLocates, TookAt};

use constraint_coloring::ConstraintColoring;
use frame::refusal::refusal_number;
use frame::{Frame, Lists};
use island::IslandTables;
use multi_coloring::MultiColoring;
use plan_questions::PlanTables;

// The islands of a frame whose joints have a count each, and how many; answers the refusal or 0.
#[unsafe(no_mangle)]
pub extern "C" fn engkarupi_islands_multi(
    types: &[u8],
    manifolds: &[u16],
    joint_ends: &[u16],
    joint_counts: &[u8],
    enabled: &[u8],
    parents: &mut [u16],
    sizes: &mut [u16],
    body_islands: &mut [u16],
    manifold_islands: &mut [u16],
    joint_islands: &mut [u16],
    island_count: &mut u16,
) -> u8
    ensures { Built (frame_with types.now manifolds.now joint_ends.now joint_counts.now enabled.now)
        (multi_island_refusal types.now manifolds.now joint_ends.now joint_counts.now enabled.now
        (rooms_of (island_tables_of parents.old sizes.old body_islands.old manifold_islands.old joint_islands.old)))
        (island_tables_of parents.old sizes.old body_islands.old manifold_islands.old joint_islands.old)
        (island_tables_of parents.new sizes.new body_islands.new manifold_islands.new joint_islands.new)
        result island_count.new }
{
    let lists = Lists {
        types,
        manifolds,
        joint_ends,
        joint_counts,
        enabled,
    };
    let mut tables = IslandTables {
        parents,
        sizes,
        body_islands,
        manifold_islands,
        joint_islands,
    };
    let answer = island::build_with_multi_joints(lists, &mut tables);
    *island_count = answer.unwrap_or(0);
    refusal_number(&answer)
}

// An update of a plan with counts, and 1 if it changed; answers the refusal or 0.
#[unsafe(no_mangle)]
pub extern "C" fn engkarupi_update_multi(
    plan: &mut [usize; 4],
    flags: &[u8],
    ends: &[u16],
    counts_in: &[u8],
    dynamic_bodies: &mut [u8],
    endpoints: &mut [u16],
    counts: &mut [u8],
    body_offsets: &mut [u16],
    body_constraints: &mut [u16],
    scratch_offsets: &mut [u16],
    constraint_colors: &mut [u16],
    color_stamps: &mut [u16],
    body_stamps: &mut [u16],
    color_offsets: &mut [u16],
    colored_constraints: &mut [u16],
    color_body_offsets: &mut [u16],
    color_bodies: &mut [u16],
    constraint_body_positions: &mut [u16],
    changed: &mut u8,
) -> u8
    ensures { MultiUpdates plan.old flags.now ends.now counts_in.now
        (tables_of dynamic_bodies.old endpoints.old body_offsets.old
        body_constraints.old scratch_offsets.old constraint_colors.old
        color_stamps.old body_stamps.old color_offsets.old
        colored_constraints.old color_body_offsets.old color_bodies.old constraint_body_positions.old) counts.old
        (tables_of dynamic_bodies.new endpoints.new body_offsets.new
        body_constraints.new scratch_offsets.new constraint_colors.new
        color_stamps.new body_stamps.new color_offsets.new
        colored_constraints.new color_body_offsets.new color_bodies.new constraint_body_positions.new) counts.new result changed.new plan.new }
{
    let before = MultiColoring {
        plan: ConstraintColoring::from(*plan),
    };
    let mut tables = PlanTables {
        dynamic_bodies,
        endpoints,
        body_offsets,
        body_constraints,
        scratch_offsets,
        constraint_colors,
        color_stamps,
        body_stamps,
        color_offsets,
        colored_constraints,
        color_body_offsets,
        color_bodies,
        constraint_body_positions,
    };
    let answer = before.update(flags, ends, counts_in, counts, &mut tables);
    *plan = answer.plan_after(before).plan.into();
    *changed = u8::from(answer.is_changed());
    answer.refusal()
}

// The positions of a constraint among its group's bodies, and how many; answers the refusal or 0.
#[unsafe(no_mangle)]
pub extern "C" fn engkarupi_positions_multi(
    plan: &[usize; 4],
    counts: &[u8],
    constraint_body_positions: &[u16],
    constraint: usize,
    places: &mut [u16; 4],
    count: &mut usize,
) -> u8
    ensures { MultiLocates (get_or plan.now 1 0) counts.now constraint_body_positions.now constraint result places.new count.new }
{
    let planned = MultiColoring {
        plan: ConstraintColoring::from(*plan),
    };
    let answer = planned.body_positions_for_constraint(
        counts,
        constraint_body_positions,
        constraint,
    );
    *count = answer.unwrap_or(&[]).len();
    answer_numbers::locate(answer, places)
}

// A take from a binding by two to four positions: the bodies in the order asked, each with 1 for "dynamic"; answers the refusal or 0.
#[unsafe(no_mangle)]
pub extern "C" fn engkarupi_take_multi(
    bodies: &[u16; Frame::MAX_BODIES],
    marks: &mut [u8; Frame::MAX_BODIES],
    count: usize,
    positions: &[u16],
    handed: &mut [u16; 8],
) -> u8
    ensures { TookAt (record { bodies = bodies.now; marks = marks.old; count = count }) positions.now (record { bodies = bodies.now; marks = marks.new; count = count }) result handed.new }
{
    let taken = colored_bodies::multi::take_from(bodies, marks, count, positions);
    answer_numbers::hand_taken(taken, handed)
}
