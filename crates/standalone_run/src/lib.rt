// The run of a file on tables of its own, for programs: all but the turn table have the largest frame's sizes.
#![tactic(auto)]

ghost use Rattle.standalone_run.specs.Runs.{RanAlone};

use frame::{Frame, Refusal};
use frame_tables::{ByIsland, FrameTables};
use island::IslandTables;
use plan_questions::PlanTables;
use run_answer::Report;

// How many endpoint entries the largest frame needs: two for each manifold, four for each joint.
const ENTRIES: usize = 2 * Frame::MAX_MANIFOLDS + Frame::MAX_ENDS * Frame::MAX_JOINTS;

// Question 6 is left of the turn table alone.
pub fn run_file(file: &[u8], turns: &mut [u16]) -> Result<Report, Refusal>
    ensures { RanAlone file.now turns.old turns.new result }
{
    let mut parents = [0u16; Frame::MAX_BODIES];
    let mut sizes = [0u16; Frame::MAX_BODIES];
    let mut body_islands = [0u16; Frame::MAX_BODIES];
    let mut manifold_islands = [0u16; Frame::MAX_MANIFOLDS];
    let mut joint_islands = [0u16; Frame::MAX_JOINTS];
    let mut types = [0u8; Frame::MAX_BODIES];
    let mut flags = [0u8; Frame::MAX_BODIES];
    let mut pairs = [0u16; ENTRIES];
    let mut island_pairs = [0u16; ENTRIES];
    let mut counts = [0u8; Frame::MAX_PAIRS];
    let mut island_counts = [0u8; Frame::MAX_PAIRS];
    let mut enabled = [0u8; Frame::MAX_JOINTS];
    let mut numbers = [0u16; Frame::MAX_PAIRS];
    let mut dynamic_bodies = [0u8; Frame::MAX_BODIES];
    let mut endpoints = [0u16; ENTRIES];
    let mut plan_counts = [0u8; Frame::MAX_PAIRS];
    let mut body_offsets = [0u16; Frame::MAX_BODIES + 1];
    let mut body_constraints = [0u16; ENTRIES];
    let mut scratch_offsets = [0u16; Frame::MAX_PAIRS];
    let mut constraint_colors = [0u16; Frame::MAX_PAIRS];
    let mut color_stamps = [0u16; Frame::MAX_PAIRS];
    let mut body_stamps = [0u16; Frame::MAX_BODIES];
    let mut color_offsets = [0u16; Frame::MAX_PAIRS + 1];
    let mut colored_constraints = [0u16; Frame::MAX_PAIRS];
    let mut color_body_offsets = [0u16; Frame::MAX_PAIRS + 1];
    let mut color_bodies = [0u16; ENTRIES];
    let mut constraint_body_positions = [0u16; ENTRIES];
    // The largest tables: none has more than 64 KiB.
    prove!(2 * pairs.len() <= 65536);
    let mut islands = IslandTables {
        parents: &mut parents,
        sizes: &mut sizes,
        body_islands: &mut body_islands,
        manifold_islands: &mut manifold_islands,
        joint_islands: &mut joint_islands,
    };
    let mut tables = FrameTables {
        types: &mut types,
        flags: &mut flags,
        pairs: &mut pairs,
        counts: &mut counts,
        enabled: &mut enabled,
    };
    let mut by_island = ByIsland {
        numbers: &mut numbers,
        pairs: &mut island_pairs,
        counts: &mut island_counts,
    };
    let mut plan = PlanTables {
        dynamic_bodies: &mut dynamic_bodies,
        endpoints: &mut endpoints,
        body_offsets: &mut body_offsets,
        body_constraints: &mut body_constraints,
        scratch_offsets: &mut scratch_offsets,
        constraint_colors: &mut constraint_colors,
        color_stamps: &mut color_stamps,
        body_stamps: &mut body_stamps,
        color_offsets: &mut color_offsets,
        colored_constraints: &mut colored_constraints,
        color_body_offsets: &mut color_body_offsets,
        color_bodies: &mut color_bodies,
        constraint_body_positions: &mut constraint_body_positions,
    };
    frame_run::run(
        file,
        &mut islands,
        turns,
        &mut tables,
        &mut by_island,
        &mut plan,
        &mut plan_counts,
    )
}
