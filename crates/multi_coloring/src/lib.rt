// Conflict-free groups of constraints of two to four bodies: the plan of constraint_coloring, whose constraints have a count each. Endpoints
// and positions stand constraint after constraint without gaps; a further table remembers the counts.
#![tactic(auto)]

ghost use Rattle.std.specs.Prelude.{◌≡◌, ℕ, true, List, [], ◌≤◌, ◌<◌, ◌*◌, ◌&&◌, map, leb, length};
ghost use Rattle.lists.specs.Basics.{same};
ghost use Rattle.frame.specs.Frames.{counts_known, end_count};
ghost use Rattle.frame.specs.Refusals.{refused_by};
ghost use Rattle.groups.specs.Groups.{multi_plan_of};
ghost use Rattle.parts.specs.Steps.{BoundsOf};
ghost use Rattle.plan_questions.specs.Plans.{tables_of, group_part};
ghost use Rattle.plan_questions.specs.Lent.{tables_in, lengths_of, SameTables};
ghost use Rattle.constraint_coloring.specs.Stages.{Buildable, Rebuilt};
ghost use Rattle.multi_coloring.specs.Counts.{count_read, counts_read, positions_in, multi_update_refusal};
ghost use Rattle.multi_coloring.specs.Calls.{fresh_multi, multi_holds, MultiUpdated, MultiLocated};

use constraint_coloring::{ConstraintColoring, Update};
use frame::constraints::Counted;
use frame::{Frame, Refusal, ask, constraints};
use parts::Ends;
use plan_questions::PlanTables;

// A plan with counts: what it carries by value are the numbers of a plan. The rest stands in the tables that its caller lends.
#[derive(Clone, Copy, Debug, PartialEq, Eq)]
pub struct MultiColoring {
    pub plan: ConstraintColoring,
}

// The input of an update that passed questions 3 to 5: flags, one a body, and the endpoints of constraints that have a count each.
#[derive(Clone, Copy)]
struct Listed<'a> {
    flags: &'a [u8],
    ends: &'a [u16],
    counts: &'a [u8],
    ghost few: { length counts.now ≤ 8192 },
    ghost known: { counts_known counts.now ≡ true },
    ghost whole: { end_count counts.now ≡ length ends.now },
}

// A remembered count as it is read: outside two to four it is two.
fn read_count(count: u8) -> usize
    ensures { result ≡ count_read count }
{
    let ends = usize::from(count);
    if frame::multi::counted(ends) {
        return ends;
    }
    2
}

// How many endpoints constraints with these remembered counts have.
fn ends_read(counts: &[u8]) -> usize
    requires { length counts.now ≤ 8192 }
    ensures { result ≡ end_count (map count_read counts.now) }
{
    counts.iter().map(|&count| read_count(count)).sum()
}

// Whether counts are the remembered ones, as those are read.
fn same_counts(counts: &[u8], remembered: &[u8]) -> bool
    requires { length remembered.now ≡ length counts.now }
    ensures { result ≡ same counts.now (map count_read remembered.now) }
{
    counts
        .iter()
        .zip(remembered)
        .all(|(&count, &kept)| usize::from(count) == read_count(kept))
}

// Question 6 of a lookup of positions: are all counts there, and the positions of all constraints?
fn positions_there(
    constraint_count: usize,
    counts: &[u8],
    constraint_body_positions: &[u16],
) -> bool
    requires { constraint_count ≤ 8192 }
    ensures { result ≡ (leb constraint_count (length counts.now)
        && leb (end_count (counts_read constraint_count counts.now)) (length constraint_body_positions.now)) }
{
    (constraint_count <= counts.len())
        && (ends_read(&counts[..constraint_count]) <= constraint_body_positions.len())
}

// The places of a constraint: they start behind those of the constraints before it.
fn places_of<'a>(
    constraint_count: usize,
    counts: &[u8],
    constraint_body_positions: &'a [u16],
    constraint: usize,
) -> &'a [u16]
    requires counts { (constraint < constraint_count) × (constraint_count ≤ 8192) × (constraint_count ≤ length counts.now) }
    requires places { end_count (counts_read constraint_count counts.now) ≤ length constraint_body_positions.now }
    ensures { result.now ≡ positions_in constraint_count counts.now constraint_body_positions.now constraint }
{
    let start = ends_read(&counts[..constraint]);
    let end = start + read_count(counts[constraint]);
    &constraint_body_positions[start..end]
}

// Questions 3 to 7, where `room` answers 6.
#[tactic(auto, using(crate::proofs::Questions::sound_counted), unfolding(crate::specs::Counts::multi_update_refusal))]
fn ask_update(flags: &[u8], ends: &[u16], counts: &[u8], room: bool) -> Result<(), Refusal>
    ensures { refused_by result ≡ multi_update_refusal flags.now ends.now counts.now room }
{
    let few = (flags.len() <= Frame::MAX_BODIES) & (counts.len() <= Frame::MAX_PAIRS);
    ask(few, Refusal::TooMany)?;
    ask(
        frame::multi::sum_counts(counts) == ends.len(),
        Refusal::Lengths,
    )?;
    let known = frame::at_most(flags, 1) & frame::multi::counts_known(counts);
    ask(known, Refusal::Values)?;
    ask(room, Refusal::Room)?;
    let listed = Counted {
        ends,
        counts,
        enabled: &[],
    };
    ask(
        constraints::all_sound(flags.len(), listed),
        Refusal::Endpoints,
    )
}

// Remembers the endpoints and builds the plan. The bounds of the constraints stand in the table of the constraints on each body, which has
// two places for each, since it has one for each endpoint. The tables `body_offsets` and `color_stamps` are not lent; they stand as [] in the
// contract, as does that of the bounds, which is free.
fn build_counted(
    listed: Listed<'_>,
    dynamic_bodies: &mut [u8],
    endpoints: &mut [u16],
    body_constraints: &mut [u16],
    scratch_offsets: &mut [u16],
    constraint_colors: &mut [u16],
    body_stamps: &mut [u16],
    color_offsets: &mut [u16],
    colored_constraints: &mut [u16],
    color_body_offsets: &mut [u16],
    color_bodies: &mut [u16],
    constraint_body_positions: &mut [u16],
) -> ConstraintColoring
    requires room { 2 * length listed.counts.now ≤ length body_constraints.old }
    requires buildable { (bounds : List ℕ) → BoundsOf listed.counts.now bounds → length bounds ≡ 2 * length listed.counts.now → Buildable listed.flags.now listed.ends.now bounds (length listed.counts.now)
        (tables_of dynamic_bodies.old endpoints.old [] [] scratch_offsets.old
        constraint_colors.old [] body_stamps.old color_offsets.old
        colored_constraints.old color_body_offsets.old color_bodies.old constraint_body_positions.old) }
    ensures { Rebuilt listed.entry.flags.now listed.entry.ends.now (multi_plan_of listed.entry.flags.now listed.entry.ends.now listed.entry.counts.now)
        (tables_of dynamic_bodies.old endpoints.old [] [] scratch_offsets.old
        constraint_colors.old [] body_stamps.old color_offsets.old
        colored_constraints.old color_body_offsets.old color_bodies.old constraint_body_positions.old)
        (tables_of dynamic_bodies.new endpoints.new [] [] scratch_offsets.new
        constraint_colors.new [] body_stamps.new color_offsets.new
        colored_constraints.new color_body_offsets.new color_bodies.new constraint_body_positions.new) result }
{
    let count = listed.counts.len();
    let bounds = &mut body_constraints[..2 * count];
    parts::bound_counts(listed.counts, bounds);
    let ends = Ends {
        endpoints: listed.ends,
        bounds,
        count,
    };
    constraint_coloring::build_plan(
        listed.flags,
        ends,
        dynamic_bodies,
        endpoints,
        scratch_offsets,
        constraint_colors,
        body_stamps,
        color_offsets,
        colored_constraints,
        color_body_offsets,
        color_bodies,
        constraint_body_positions,
    )
}

impl MultiColoring {
    // A fresh plan: it remembers three empty lists.
    pub fn new() -> Self
        ensures { result ≡ fresh_multi }
    {
        MultiColoring {
            plan: ConstraintColoring::new(),
        }
    }

    // Whether the plan, with its tables and its counts, holds exactly this input.
    #[tactic(auto, unfolding(crate::specs::Calls::multi_holds))]
    fn holds(self, listed: Listed<'_>, counts: &[u8], tables: &PlanTables<'_>) -> bool
        requires { length listed.counts.now ≤ length counts.now }
        ensures { result ≡ multi_holds self (tables_in tables.now) counts.now listed.entry.flags.now listed.entry.ends.now listed.entry.counts.now }
    {
        let plan = self.plan;
        let count = listed.counts.len();
        tables.hold(
            plan.body_count,
            plan.constraint_count,
            listed.flags,
            count,
            listed.ends,
        ) && same_counts(listed.counts, &counts[..count])
    }

    // Questions 3 to 7; then equal input is "unchanged" and writes nothing, and other input is remembered and its plan built.
    pub fn update<'a>(
        self,
        flags: &'a [u8],
        ends: &'a [u16],
        counts_in: &'a [u8],
        counts: &mut [u8],
        tables: &mut PlanTables<'_>,
    ) -> Update<Self>
        ensures updated { MultiUpdated self flags.now ends.now counts_in.now (tables_in tables.old) counts.old (tables_in tables.new) counts.new result }
        ensures same_tables { SameTables tables.old tables.new }
        ensures same_lengths { lengths_of (tables_in tables.new) ≡ lengths_of (tables_in tables.old) }
    {
        let room = (counts_in.len() <= counts.len())
            & tables.has_room_for(flags.len(), counts_in.len(), ends.len());
        match ask_update(flags, ends, counts_in, room) {
            Err(refusal) => return Update::Refused(refusal),
            Ok(()) => {}
        }
        let listed = Listed {
            flags,
            ends,
            counts: counts_in,
        };
        if self.holds(listed, counts, tables) {
            return Update::Unchanged;
        }
        constraint_coloring::copy_over(counts_in, counts);
        let plan = build_counted(
            listed,
            tables.dynamic_bodies,
            tables.endpoints,
            tables.body_constraints,
            tables.scratch_offsets,
            tables.constraint_colors,
            tables.body_stamps,
            tables.color_offsets,
            tables.colored_constraints,
            tables.color_body_offsets,
            tables.color_bodies,
            tables.constraint_body_positions,
        );
        Update::Changed(MultiColoring { plan })
    }

    // The constraints of a group, and its bodies: those parts of the plan's own tables.
    pub fn constraints_in_schedule_group<'a>(
        self,
        color_offsets: &[u16],
        colored_constraints: &'a [u16],
        group: usize,
    ) -> &'a [u16]
        ensures { result.now ≡ group_part self.plan.color_count color_offsets.now colored_constraints.now group }
    {
        let plan = self.plan;
        plan.constraints_in_schedule_group(color_offsets, colored_constraints, group)
    }

    pub fn bodies_in_schedule_group<'a>(
        self,
        color_body_offsets: &[u16],
        color_bodies: &'a [u16],
        group: usize,
    ) -> &'a [u16]
        ensures { result.now ≡ group_part self.plan.color_count color_body_offsets.now color_bodies.now group }
    {
        let plan = self.plan;
        plan.bodies_in_schedule_group(color_body_offsets, color_bodies, group)
    }

    // The positions of a constraint among its group's bodies, which are two to four places of the table: questions 3, 6 and 12. `counts` is
    // the plan's table of counts.
    #[tactic(auto, unfolding(crate::specs::Counts::multi_positions_refusal))]
    pub fn body_positions_for_constraint<'a>(
        self,
        counts: &[u8],
        constraint_body_positions: &'a [u16],
        constraint: usize,
    ) -> Result<&'a [u16], Refusal>
        ensures { MultiLocated self.plan.constraint_count counts.now constraint_body_positions.now constraint result }
    {
        let constraints = self.plan.constraint_count;
        ask(constraints <= Frame::MAX_PAIRS, Refusal::TooMany)?;
        ask(
            positions_there(constraints, counts, constraint_body_positions),
            Refusal::Room,
        )?;
        ask(constraint < constraints, Refusal::NoConstraint)?;
        Ok(places_of(constraints, counts, constraint_body_positions, constraint))
    }
}
