// The frame run for C and Rust.
ghost use Rattle.island.specs.Calls.{island_tables_of};
ghost use Rattle.plan_questions.specs.Plans.{tables_of};
ghost use Rattle.run_answer.specs.Lent.{lent_of};
ghost use Rattle.boundary.specs.Exports.{Runs};

use frame::refusal::refusal_number;
use frame_tables::{ByIsland, FrameTables};
use island::IslandTables;
use plan_questions::PlanTables;

// The run of a file, and its four numbers: islands, turns, takes, degree; answers the refusal or 0.
#[unsafe(no_mangle)]
pub extern "C" fn engkarupi_run(
    frame: &[u8],
    parents: &mut [u16],
    sizes: &mut [u16],
    body_islands: &mut [u16],
    manifold_islands: &mut [u16],
    joint_islands: &mut [u16],
    turns: &mut [u16],
    types: &mut [u8],
    flags: &mut [u8],
    pairs: &mut [u16],
    island_pairs: &mut [u16],
    counts: &mut [u8],
    island_counts: &mut [u8],
    enabled: &mut [u8],
    numbers: &mut [u16],
    dynamic_bodies: &mut [u8],
    endpoints: &mut [u16],
    plan_counts: &mut [u8],
    body_offsets: &mut [u16],
    body_constraints: &mut [u16],
    scratch_offsets: &mut [u16],
    constraint_colors: &mut [u16],
    color_stamps: &mut [u16],
    body_stamps: &mut [u16],
    color_offsets: &mut [u16],
    colored_constraints: &mut [u16],
    color_body_offsets: &mut [u16],
    color_bodies: &mut [u16],
    constraint_body_positions: &mut [u16],
    report: &mut [usize; 4],
) -> u8
    ensures { Runs frame.now
        (lent_of (island_tables_of parents.old sizes.old body_islands.old manifold_islands.old joint_islands.old)
        turns.old types.old flags.old pairs.old
        island_pairs.old counts.old island_counts.old enabled.old numbers.old
        (tables_of dynamic_bodies.old endpoints.old body_offsets.old
        body_constraints.old scratch_offsets.old constraint_colors.old
        color_stamps.old body_stamps.old color_offsets.old
        colored_constraints.old color_body_offsets.old color_bodies.old constraint_body_positions.old) plan_counts.old)
        (lent_of (island_tables_of parents.new sizes.new body_islands.new manifold_islands.new joint_islands.new)
        turns.new types.new flags.new pairs.new
        island_pairs.new counts.new island_counts.new enabled.new numbers.new
        (tables_of dynamic_bodies.new endpoints.new body_offsets.new
        body_constraints.new scratch_offsets.new constraint_colors.new
        color_stamps.new body_stamps.new color_offsets.new
        colored_constraints.new color_body_offsets.new color_bodies.new constraint_body_positions.new) plan_counts.new) result report.new }
{
    let mut islands = IslandTables {
        parents,
        sizes,
        body_islands,
        manifold_islands,
        joint_islands,
    };
    let mut tables = FrameTables {
        types,
        flags,
        pairs,
        counts,
        enabled,
    };
    let mut by_island = ByIsland {
        numbers,
        pairs: island_pairs,
        counts: island_counts,
    };
    let mut plan = PlanTables {
        dynamic_bodies,
        endpoints,
        body_offsets,
        body_constraints,
        scratch_offsets,
        constraint_colors,
        color_stamps,
        body_stamps,
        color_offsets,
        colored_constraints,
        color_body_offsets,
        color_bodies,
        constraint_body_positions,
    };
    let answer = frame_run::run(
        frame,
        &mut islands,
        turns,
        &mut tables,
        &mut by_island,
        &mut plan,
        plan_counts,
    );
    *report = answer.unwrap_or_default().into();
    refusal_number(&answer)
}
