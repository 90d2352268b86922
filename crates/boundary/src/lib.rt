// The calls for C and Rust: numbers and slices only. include/engkarupi.h says what each is lent and refuses.
#![tactic(auto)]

mod multi;
mod run;

ghost use Rattle.std.specs.Prelude.{[], ◌∷◌, get_or};
ghost use Rattle.frame.specs.Frames.{frame_of};
ghost use Rattle.island.specs.Calls.{island_tables_of, rooms_of, island_refusal, Built};
ghost use Rattle.colored_bodies.specs.Answers.{Binds};
ghost use Rattle.generator.specs.Calls.{Made};
ghost use Rattle.plan_questions.specs.Plans.{tables_of};
ghost use Rattle.boundary.specs.Exports.{Updates, Found, Locates, Took};

use colored_bodies::BodyBinding;
use constraint_coloring::ConstraintColoring;
use frame::refusal::refusal_number;
use frame::{Frame, Lists};
use frame_file::Sizes;
use island::IslandTables;
use plan_questions::PlanTables;

// The islands of a frame, and how many; answers the refusal or 0.
#[unsafe(no_mangle)]
pub extern "C" fn engkarupi_islands(
    types: &[u8],
    manifolds: &[u16],
    joints: &[u16],
    enabled: &[u8],
    parents: &mut [u16],
    sizes: &mut [u16],
    body_islands: &mut [u16],
    manifold_islands: &mut [u16],
    joint_islands: &mut [u16],
    island_count: &mut u16,
) -> u8
    ensures { Built (frame_of types.now manifolds.now joints.now enabled.now)
        (island_refusal types.now manifolds.now joints.now enabled.now
        (rooms_of (island_tables_of parents.old sizes.old body_islands.old manifold_islands.old joint_islands.old)))
        (island_tables_of parents.old sizes.old body_islands.old manifold_islands.old joint_islands.old)
        (island_tables_of parents.new sizes.new body_islands.new manifold_islands.new joint_islands.new)
        result island_count.new }
{
    let lists = Lists {
        types,
        manifolds,
        joint_ends: joints,
        joint_counts: &[],
        enabled,
    };
    let mut tables = IslandTables {
        parents,
        sizes,
        body_islands,
        manifold_islands,
        joint_islands,
    };
    let answer = island::build_with_joints(lists, &mut tables);
    *island_count = answer.unwrap_or(0);
    refusal_number(&answer)
}

// An update of a plan, and 1 if it changed; answers the refusal or 0.
#[unsafe(no_mangle)]
pub extern "C" fn engkarupi_update(
    plan: &mut [usize; 4],
    flags: &[u8],
    pairs: &[u16],
    dynamic_bodies: &mut [u8],
    endpoints: &mut [u16],
    body_offsets: &mut [u16],
    body_constraints: &mut [u16],
    scratch_offsets: &mut [u16],
    constraint_colors: &mut [u16],
    color_stamps: &mut [u16],
    body_stamps: &mut [u16],
    color_offsets: &mut [u16],
    colored_constraints: &mut [u16],
    color_body_offsets: &mut [u16],
    color_bodies: &mut [u16],
    constraint_body_positions: &mut [u16],
    changed: &mut u8,
) -> u8
    ensures { Updates plan.old flags.now pairs.now
        (tables_of dynamic_bodies.old endpoints.old body_offsets.old
        body_constraints.old scratch_offsets.old constraint_colors.old
        color_stamps.old body_stamps.old color_offsets.old
        colored_constraints.old color_body_offsets.old color_bodies.old constraint_body_positions.old)
        (tables_of dynamic_bodies.new endpoints.new body_offsets.new
        body_constraints.new scratch_offsets.new constraint_colors.new
        color_stamps.new body_stamps.new color_offsets.new
        colored_constraints.new color_body_offsets.new color_bodies.new constraint_body_positions.new) result changed.new plan.new }
{
    let before = ConstraintColoring::from(*plan);
    let mut tables = PlanTables {
        dynamic_bodies,
        endpoints,
        body_offsets,
        body_constraints,
        scratch_offsets,
        constraint_colors,
        color_stamps,
        body_stamps,
        color_offsets,
        colored_constraints,
        color_body_offsets,
        color_bodies,
        constraint_body_positions,
    };
    let answer = before.update(flags, pairs, &mut tables);
    *plan = answer.plan_after(before).into();
    *changed = u8::from(answer.is_changed());
    answer.refusal()
}

// The members of a group: where they start in their table; answers how many.
#[unsafe(no_mangle)]
pub extern "C" fn engkarupi_members(
    plan: &[usize; 4],
    color_offsets: &[u16],
    colored_constraints: &[u16],
    group: usize,
    start: &mut usize,
) -> usize
    ensures { Found (get_or plan.now 2 0) color_offsets.now colored_constraints.now group start.new result }
{
    let planned = ConstraintColoring::from(*plan);
    let part = planned.constraints_in_schedule_group(color_offsets, colored_constraints, group);
    let size = part.len();
    *start = answer_numbers::part_start(color_offsets, group, size);
    size
}

// The bodies of a group: where they start in their table; answers how many.
#[unsafe(no_mangle)]
pub extern "C" fn engkarupi_bodies(
    plan: &[usize; 4],
    color_body_offsets: &[u16],
    color_bodies: &[u16],
    group: usize,
    start: &mut usize,
) -> usize
    ensures { Found (get_or plan.now 2 0) color_body_offsets.now color_bodies.now group start.new result }
{
    let planned = ConstraintColoring::from(*plan);
    let part = planned.bodies_in_schedule_group(color_body_offsets, color_bodies, group);
    let size = part.len();
    *start = answer_numbers::part_start(color_body_offsets, group, size);
    size
}

// The positions of a constraint among its group's bodies; answers the refusal or 0.
#[unsafe(no_mangle)]
pub extern "C" fn engkarupi_positions(
    plan: &[usize; 4],
    constraint_body_positions: &[u16],
    constraint: usize,
    places: &mut [u16; 2],
) -> u8
    ensures { Locates (get_or plan.now 1 0) constraint_body_positions.now constraint result places.new }
{
    let planned = ConstraintColoring::from(*plan);
    let answer = planned.body_positions_for_constraint(constraint_body_positions, constraint);
    answer_numbers::locate(answer, places)
}

// A bind: the binding's bodies, marks and count; answers the refusal or 0.
#[unsafe(no_mangle)]
pub extern "C" fn engkarupi_bind(
    types: &[u8],
    indices: &[u16],
    bodies: &mut [u16; Frame::MAX_BODIES],
    marks: &mut [u8; Frame::MAX_BODIES],
    count: &mut usize,
) -> u8
    ensures { Binds types.now indices.now result (record { bodies = bodies.new; marks = marks.new; count = count.new }) }
{
    let bound = BodyBinding::bind(types, indices);
    let binding = bound.binding;
    let bound_bodies = binding.bodies;
    let bound_marks = binding.marks;
    *bodies = bound_bodies;
    *marks = bound_marks;
    *count = binding.count;
    refusal_number(&bound.asked)
}

// A take from a binding: two bodies in the order asked, each with 1 for "dynamic"; answers the refusal or 0.
#[unsafe(no_mangle)]
pub extern "C" fn engkarupi_take(
    bodies: &[u16; Frame::MAX_BODIES],
    marks: &mut [u8; Frame::MAX_BODIES],
    count: usize,
    a: usize,
    b: usize,
    handed: &mut [u16; 4],
) -> u8
    ensures { Took (record { bodies = bodies.now; marks = marks.old; count = count }) (a ∷ b ∷ []) (record { bodies = bodies.now; marks = marks.new; count = count }) result handed.new }
{
    let taken = colored_bodies::take_from(bodies, marks, count, a, b);
    answer_numbers::hand(taken, handed)
}

// The frame of a seed with these sizes, and its length; answers the refusal or 0.
#[unsafe(no_mangle)]
pub extern "C" fn engkarupi_generate(
    seed: u32,
    bodies: usize,
    manifolds: usize,
    joints: usize,
    frame: &mut [u8],
    length: &mut usize,
) -> u8
    ensures { Made seed bodies manifolds joints frame.old frame.new result length.new }
{
    let sizes = Sizes {
        bodies,
        manifolds,
        joints,
    };
    let answer = generator::generate(seed, sizes, frame);
    *length = answer.unwrap_or(0);
    refusal_number(&answer)
}
