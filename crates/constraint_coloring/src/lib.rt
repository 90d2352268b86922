// Conflict-free groups of constraints (constraint_coloring.rs): the plan that an update builds, and the lookups in it.
#![tactic(auto)]

mod numbers;

ghost use Rattle.std.specs.Prelude.{◌≡◌, ◌≤◌, ◌+◌, ◌*◌, [], length};
ghost use Rattle.lists.specs.Basics.{over};
ghost use Rattle.groups.specs.Groups.{group_count, plan_from};
ghost use Rattle.parts.specs.Parts.{parts_at};
ghost use Rattle.gathering.specs.Gathers.{Gatherable};
ghost use Rattle.locating.specs.Locates.{Arranged};
ghost use Rattle.plan_questions.specs.Plans.{tables_of, group_part};
ghost use Rattle.plan_questions.specs.Lent.{tables_in, lengths_of, SameTables};
ghost use Rattle.constraint_coloring.specs.Calls.{update_number, update_changed, plan_after, fresh_plan, Updated, Located};
ghost use Rattle.constraint_coloring.specs.Stages.{Scheduled, Buildable, Rebuilt};

use frame::{Frame, Refusal, ask};
use parts::{Ends, Grouped};
use plan_questions::PlanTables;
pub use tables::copy_over;

// What a plan carries by value; the rest stands in the tables that its caller lends.
#[derive(Clone, Copy, Debug, PartialEq, Eq)]
pub struct ConstraintColoring {
    pub body_count: usize,
    pub constraint_count: usize,
    pub color_count: usize,
    pub max_color_constraint_count: usize,
}

// The answer of an update: "changed" with the plan, "unchanged", or the first question that got a "no".
#[derive(Clone, Copy, Debug, PartialEq, Eq)]
pub enum Update<P> {
    Changed(P),
    Unchanged,
    Refused(Refusal),
}

impl<P: Copy> Update<P> {
    // The number of the refusal, or 0.
    pub fn refusal(self) -> u8
        ensures { result ≡ update_number self }
    {
        match self {
            Update::Refused(refusal) => refusal.number(),
            _ => 0,
        }
    }

    // Whether the plan changed.
    pub fn is_changed(self) -> bool
        ensures { result ≡ update_changed self }
    {
        match self {
            Update::Changed(_) => true,
            _ => false,
        }
    }

    // The plan after the update of the plan `before`.
    pub fn plan_after(self, before: P) -> P
        ensures { result ≡ plan_after before self }
    {
        match self {
            Update::Changed(changed) => changed,
            _ => before,
        }
    }
}

// The bodies of all groups and the positions of all constraints, whatever the number of their bodies.
#[inline(always)]
fn list_groups(
    ends: Ends<'_>,
    constraint_colors: &[u16],
    color_count: usize,
    constraints: Grouped<'_>,
    scratch_offsets: &mut [u16],
    body_stamps: &mut [u16],
    color_body_offsets: &mut [u16],
    color_bodies: &mut [u16],
    constraint_body_positions: &mut [u16],
)
    requires counted { length constraint_colors.now ≡ ends.count }
    requires arranged { Arranged (length constraint_colors.now) ends.bounds.now ends.endpoints.now constraint_body_positions.old }
    requires gatherable { Gatherable (length body_stamps.old) (parts_at (length constraint_colors.now) ends.bounds.now ends.endpoints.now) constraint_colors.now color_count constraints.offsets.now constraints.table.now body_stamps.old scratch_offsets.old color_body_offsets.old color_bodies.old × (color_count ≡ group_count constraint_colors.now) }
    ensures { Scheduled (length body_stamps.old) (parts_at (length constraint_colors.now) ends.entry.bounds.now ends.entry.endpoints.now) constraint_colors.now color_count color_bodies.old color_body_offsets.new color_bodies.new constraint_body_positions.new }
{
    gathering::gather(
        ends,
        constraint_colors,
        color_count,
        constraints,
        body_stamps,
        scratch_offsets,
        color_body_offsets,
        color_bodies,
    );
    let bodies = Grouped {
        table: color_bodies,
        offsets: color_body_offsets,
    };
    locating::locate(
        body_stamps.len(),
        ends,
        constraint_colors,
        color_count,
        constraints,
        bodies,
        scratch_offsets,
        constraint_body_positions,
    );
}

// Remembers the input and builds its plan; each table is cut to the places that a stage may write. Constraints are pairs where there are no
// bounds. The walks need no adjacency, so the tables `body_offsets`, `body_constraints` and `color_stamps` are not lent; they stand as [] in the
// contract. `scratch_offsets` is the list of the uncolored, then serves the sort, then is the table of places; `body_stamps` tells who is
// busy, is left 0 by the walks, and then takes the groups' stamps. It is compiled into each of its two callers, with its stages, so that in a
// plan of pairs nothing asks for bounds.
#[inline(always)]
pub fn build_plan(
    flags: &[u8],
    ends: Ends<'_>,
    dynamic_bodies: &mut [u8],
    endpoints: &mut [u16],
    scratch_offsets: &mut [u16],
    constraint_colors: &mut [u16],
    body_stamps: &mut [u16],
    color_offsets: &mut [u16],
    colored_constraints: &mut [u16],
    color_body_offsets: &mut [u16],
    color_bodies: &mut [u16],
    constraint_body_positions: &mut [u16],
) -> ConstraintColoring
    requires { Buildable flags.now ends.endpoints.now ends.bounds.now ends.count
        (tables_of dynamic_bodies.old endpoints.old [] [] scratch_offsets.old
        constraint_colors.old [] body_stamps.old color_offsets.old
        colored_constraints.old color_body_offsets.old color_bodies.old constraint_body_positions.old) }
    ensures { Rebuilt flags.now ends.entry.endpoints.now (plan_from flags.now (parts_at ends.entry.count ends.entry.bounds.now ends.entry.endpoints.now))
        (tables_of dynamic_bodies.old endpoints.old [] [] scratch_offsets.old
        constraint_colors.old [] body_stamps.old color_offsets.old
        colored_constraints.old color_body_offsets.old color_bodies.old constraint_body_positions.old)
        (tables_of dynamic_bodies.new endpoints.new [] [] scratch_offsets.new
        constraint_colors.new [] body_stamps.new color_offsets.new
        colored_constraints.new color_body_offsets.new color_bodies.new constraint_body_positions.new) result }
{
    let body_count = flags.len();
    let constraint_count = ends.count;
    let end_count = ends.endpoints.len();
    copy_over(flags, dynamic_bodies);
    copy_over(ends.endpoints, endpoints);
    let color_count = coloring::color_constraints(
        flags,
        ends,
        scratch_offsets,
        &mut constraint_colors[..constraint_count],
        &mut color_offsets[..constraint_count + 1],
        &mut colored_constraints[..constraint_count],
        &mut body_stamps[..body_count],
    );
    let constraints = Grouped {
        table: &colored_constraints[..constraint_count],
        offsets: &color_offsets[..color_count + 1],
    };
    list_groups(
        ends,
        &constraint_colors[..constraint_count],
        color_count,
        constraints,
        scratch_offsets,
        &mut body_stamps[..body_count],
        &mut color_body_offsets[..color_count + 1],
        &mut color_bodies[..end_count],
        &mut constraint_body_positions[..end_count],
    );
    let largest = parts::largest_part(constraints.offsets);
    ConstraintColoring {
        body_count,
        constraint_count,
        color_count,
        max_color_constraint_count: largest,
    }
}

impl ConstraintColoring {
    // A fresh plan: it remembers two empty lists.
    pub fn new() -> Self
        ensures { result ≡ fresh_plan }
    {
        ConstraintColoring {
            body_count: 0,
            constraint_count: 0,
            color_count: 0,
            max_color_constraint_count: 0,
        }
    }

    // Questions 3 to 7; then equal input is "unchanged" and writes nothing, and other input is remembered and its plan built.
    pub fn update(self, flags: &[u8], pairs: &[u16], tables: &mut PlanTables<'_>) -> Update<Self>
        ensures updated { Updated self flags.now pairs.now (tables_in tables.old) (tables_in tables.new) result }
        ensures same_tables { SameTables tables.old tables.new }
        ensures same_lengths { lengths_of (tables_in tables.new) ≡ lengths_of (tables_in tables.old) }
    {
        let count = pairs.len() / 2;
        let room = tables.has_room_for_pairs(flags.len(), count);
        match plan_questions::ask_update(flags, pairs, room) {
            Err(refusal) => return Update::Refused(refusal),
            Ok(()) => {}
        }
        if tables.hold(self.body_count, self.constraint_count, flags, count, pairs) {
            return Update::Unchanged;
        }
        let ends = Ends {
            endpoints: pairs,
            bounds: &[],
            count,
        };
        Update::Changed(build_plan(
            flags,
            ends,
            tables.dynamic_bodies,
            tables.endpoints,
            tables.scratch_offsets,
            tables.constraint_colors,
            tables.body_stamps,
            tables.color_offsets,
            tables.colored_constraints,
            tables.color_body_offsets,
            tables.color_bodies,
            tables.constraint_body_positions,
        ))
    }

    // The constraints of a group: that part of the plan's own table.
    pub fn constraints_in_schedule_group<'a>(
        self,
        color_offsets: &[u16],
        colored_constraints: &'a [u16],
        group: usize,
    ) -> &'a [u16]
        ensures { result.now ≡ group_part self.color_count color_offsets.now colored_constraints.now group }
    {
        plan_questions::group_part(self.color_count, color_offsets, colored_constraints, group)
    }

    // The bodies of a group: that part of the plan's own table.
    pub fn bodies_in_schedule_group<'a>(
        self,
        color_body_offsets: &[u16],
        color_bodies: &'a [u16],
        group: usize,
    ) -> &'a [u16]
        ensures { result.now ≡ group_part self.color_count color_body_offsets.now color_bodies.now group }
    {
        plan_questions::group_part(self.color_count, color_body_offsets, color_bodies, group)
    }

    // The positions of a constraint among its group's bodies, which are two places of the table: questions 3, 6 and 12.
    #[tactic(auto, unfolding(plan_questions::specs::Plans::positions_refusal))]
    pub fn body_positions_for_constraint<'a>(
        self,
        constraint_body_positions: &'a [u16],
        constraint: usize,
    ) -> Result<&'a [u16], Refusal>
        ensures { Located self.constraint_count constraint_body_positions.now constraint result }
    {
        ask(self.constraint_count <= Frame::MAX_PAIRS, Refusal::TooMany)?;
        ask(
            2 * self.constraint_count <= constraint_body_positions.len(),
            Refusal::Room,
        )?;
        ask(constraint < self.constraint_count, Refusal::NoConstraint)?;
        Ok(parts::part(constraint_body_positions, &[], constraint))
    }
}
