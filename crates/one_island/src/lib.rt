// One island of the run, internal: its constraints are colored on a fresh plan and its groups taken in order.
#![tactic(auto)]

ghost use Rattle.std.specs.Prelude.{◌≡◌, ◌≤◌, ◌*◌, [], length, take};
ghost use Rattle.plan_questions.specs.Lent.{tables_in, lengths_of, SameTables};
ghost use Rattle.parts.specs.Steps.{BoundsOf};
ghost use Rattle.turn_table.specs.Turns.{RoomIn, AppendedTo};
ghost use Rattle.group_run.specs.Appends.{added_by, Countable};
ghost use Rattle.one_island.specs.Island.{ranks, Ready, Counted, Colored};
ghost use Rattle.one_island.specs.Views.{calls_for, planned_calls, Boundable, Planned};

use constraint_coloring::ConstraintColoring;
use group_run::PlannedIsland;
pub use lent::Island;
use multi_coloring::MultiColoring;
use parts::Grouped;
use plan_questions::PlanTables;
use turn_table::TurnTable;

mod lent;

// The plan of pairs.
fn color_pairs(flags: &[u8], ends: &[u16], tables: &mut PlanTables<'_>) -> ConstraintColoring
    requires { Ready flags.now [] ends.now (ranks [] ends.now) (tables_in tables.old) [] }
    ensures colored { Colored flags.now [] ends.now result (tables_in tables.new) }
    ensures same_tables { SameTables tables.old tables.new }
    ensures same_lengths { lengths_of (tables_in tables.new) ≡ lengths_of (tables_in tables.old) }
{
    let fresh = ConstraintColoring::new();
    let answer = fresh.update(flags, ends, tables);
    answer.plan_after(fresh)
}

// The plan of constraints that have a count each. Its groups are found as those of a plan of pairs with the same numbers.
fn color_counted(
    flags: &[u8],
    ends: &[u16],
    counts: &[u8],
    plan_counts: &mut [u8],
    tables: &mut PlanTables<'_>,
) -> ConstraintColoring
    requires ready { Ready flags.now counts.now ends.now (ranks counts.now ends.now) (tables_in tables.old) plan_counts.old }
    requires some { length counts.now ≡ 0 → ⊥ }
    ensures colored { Colored flags.now counts.now ends.now result (tables_in tables.new) }
    ensures same_tables { SameTables tables.old tables.new }
    ensures same_lengths { lengths_of (tables_in tables.new) ≡ lengths_of (tables_in tables.old) }
{
    let fresh = MultiColoring::new();
    let answer = fresh.update(flags, ends, counts, plan_counts, tables);
    answer.plan_after(fresh).plan
}

// The plan of an island: without counts its constraints are pairs.
fn color_island(
    island: Island<'_>,
    plan_counts: &mut [u8],
    tables: &mut PlanTables<'_>,
) -> ConstraintColoring
    requires { Ready island.flags.now island.counts.now island.ends.now (ranks island.counts.now island.ends.now) (tables_in tables.old) plan_counts.old }
    ensures colored { Colored island.entry.flags.now island.entry.counts.now island.entry.ends.now result (tables_in tables.new) }
    ensures same_tables { SameTables tables.old tables.new }
    ensures same_lengths { lengths_of (tables_in tables.new) ≡ lengths_of (tables_in tables.old) }
{
    if island.counts.len() == 0 {
        return color_pairs(island.flags, island.ends, tables);
    }
    color_counted(
        island.flags,
        island.ends,
        island.counts,
        plan_counts,
        tables,
    )
}

// The bounds of the constraints at the front of the table of the constraints on each body: what an update leaves there is not promised.
fn fill_bounds(counts: &[u8], body_constraints: &mut [u16])
    requires { Boundable counts.now (length body_constraints.old) }
    ensures bounds { BoundsOf counts.now (take (2 * length counts.now) body_constraints.new) }
    ensures same_length { length body_constraints.new ≡ length body_constraints.old }
{
    parts::bound_counts(counts, &mut body_constraints[..2 * counts.len()]);
}

// A colored island with the tables that its lookups read.
fn planned_in<'a>(
    island: Island<'a>,
    plan: ConstraintColoring,
    tables: &'a PlanTables<'_>,
) -> PlannedIsland<'a>
    requires bounds { 2 * length island.counts.now ≤ length tables.now.body_constraints.now }
    requires countable { Countable plan island.counts.now (take (2 * length island.counts.now) tables.now.body_constraints.now) tables.now.constraint_body_positions.now }
    ensures { Planned island.entry plan (tables_in tables.now) result }
{
    let members = Grouped {
        table: tables.colored_constraints,
        offsets: tables.color_offsets,
    };
    let bodies = Grouped {
        table: tables.color_bodies,
        offsets: tables.color_body_offsets,
    };
    PlannedIsland {
        island: island.island,
        numbers: island.numbers,
        types: island.types,
        plan,
        counts: island.counts,
        bounds: &tables.body_constraints[..2 * island.counts.len()],
        members,
        bodies,
        positions: tables.constraint_body_positions,
    }
}

// The groups of a colored island, in order.
fn run_colored(
    island: Island<'_>,
    plan: ConstraintColoring,
    tables: &mut PlanTables<'_>,
    turns: &mut TurnTable<'_>,
)
    requires counted { Counted island.counts.now tables.old.body_constraints.now tables.old.constraint_body_positions.now }
    requires constraints { (length island.counts.now ≡ 0 → ⊥) → plan.constraint_count ≡ length island.counts.now }
    requires color_count_bound { plan.color_count ≤ 8192 }
    requires room { RoomIn (added_by (planned_calls island plan (tables_in tables.old))) turns.old }
    ensures appended { AppendedTo (added_by (planned_calls island.entry plan (tables_in tables.old))) turns.old turns.new }
    ensures same_tables { SameTables tables.old tables.new }
    ensures same_lengths { lengths_of (tables_in tables.new) ≡ lengths_of (tables_in tables.old) }
{
    fill_bounds(island.counts, tables.body_constraints);
    let planned = planned_in(island, plan, tables);
    group_run::run_groups(planned, turns);
}

// One island: it is colored, and its groups are taken. The tables of the plan are free.
pub fn run_island(
    island: Island<'_>,
    plan_counts: &mut [u8],
    tables: &mut PlanTables<'_>,
    turns: &mut TurnTable<'_>,
)
    requires ready { Ready island.flags.now island.counts.now island.ends.now (length island.numbers.now) (tables_in tables.old) plan_counts.old }
    requires room { RoomIn (added_by (calls_for island)) turns.old }
    ensures appended { AppendedTo (added_by (calls_for island.entry)) turns.old turns.new }
    ensures same_tables { SameTables tables.old tables.new }
    ensures same_lengths { lengths_of (tables_in tables.new) ≡ lengths_of (tables_in tables.old) }
{
    let plan = color_island(island, plan_counts, tables);
    run_colored(island, plan, tables, turns);
}
