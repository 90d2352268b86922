// What an update and the lookups of a plan ask, internal but for the tables and room (`roomy`, `roomy_with`): the thirteen lent tables and
// room in them, the questions of an update, whether the input is the remembered one, and the part of a group.
#![tactic(auto)]

ghost use Rattle.std.specs.Prelude.{◌≡◌, ◌&&◌, ◌+◌, ◌*◌, leb, eqb, length, take};
ghost use Rattle.lists.specs.Basics.{same};
ghost use Rattle.frame.specs.Refusals.{refused_by};
ghost use Rattle.plan_questions.specs.Plans.{roomy, roomy_with, update_refusal, group_part};
ghost use Rattle.plan_questions.specs.Lent.{tables_in};

use frame::constraints::Pairs;
use frame::{Frame, Refusal, ask, constraints};

// The thirteen tables of a plan, as its caller lends them.
#[derive(Drop)]
pub struct PlanTables<'a> {
    pub dynamic_bodies: &'a mut [u8],
    pub endpoints: &'a mut [u16],
    pub body_offsets: &'a mut [u16],
    pub body_constraints: &'a mut [u16],
    pub scratch_offsets: &'a mut [u16],
    pub constraint_colors: &'a mut [u16],
    pub color_stamps: &'a mut [u16],
    pub body_stamps: &'a mut [u16],
    pub color_offsets: &'a mut [u16],
    pub colored_constraints: &'a mut [u16],
    pub color_body_offsets: &'a mut [u16],
    pub color_bodies: &'a mut [u16],
    pub constraint_body_positions: &'a mut [u16],
}

// Question 6 of tables of these lengths: is there room for so many bodies, constraints and endpoints?
pub fn roomy_with(
    bodies: usize,
    constraints: usize,
    ends: usize,
    dynamic_bodies: usize,
    endpoints: usize,
    body_offsets: usize,
    body_constraints: usize,
    scratch_offsets: usize,
    constraint_colors: usize,
    color_stamps: usize,
    body_stamps: usize,
    color_offsets: usize,
    colored_constraints: usize,
    color_body_offsets: usize,
    color_bodies: usize,
    constraint_body_positions: usize,
) -> bool
    ensures { result ≡ (leb bodies dynamic_bodies && leb ends endpoints && leb (bodies + 1) body_offsets
        && leb ends body_constraints && leb bodies scratch_offsets && leb constraints scratch_offsets
        && leb constraints constraint_colors && leb constraints color_stamps && leb bodies body_stamps
        && leb (constraints + 1) color_offsets && leb constraints colored_constraints && leb (constraints + 1) color_body_offsets
        && leb ends color_bodies && leb ends constraint_body_positions) }
{
    (bodies <= dynamic_bodies)
        & (ends <= endpoints)
        & (bodies < body_offsets)
        & (ends <= body_constraints)
        & (bodies <= scratch_offsets)
        & (constraints <= scratch_offsets)
        & (constraints <= constraint_colors)
        & (constraints <= color_stamps)
        & (bodies <= body_stamps)
        & (constraints < color_offsets)
        & (constraints <= colored_constraints)
        & (constraints < color_body_offsets)
        & (ends <= color_bodies)
        & (ends <= constraint_body_positions)
}

// The same where each constraint has two endpoints; the first test keeps their number from running over.
pub fn roomy(
    bodies: usize,
    pairs: usize,
    dynamic_bodies: usize,
    endpoints: usize,
    body_offsets: usize,
    body_constraints: usize,
    scratch_offsets: usize,
    constraint_colors: usize,
    color_stamps: usize,
    body_stamps: usize,
    color_offsets: usize,
    colored_constraints: usize,
    color_body_offsets: usize,
    color_bodies: usize,
    constraint_body_positions: usize,
) -> bool
    ensures { result ≡ (leb bodies dynamic_bodies && leb (2 * pairs) endpoints && leb (bodies + 1) body_offsets
        && leb (2 * pairs) body_constraints && leb bodies scratch_offsets && leb pairs scratch_offsets
        && leb pairs constraint_colors && leb pairs color_stamps && leb bodies body_stamps
        && leb (pairs + 1) color_offsets && leb pairs colored_constraints && leb (pairs + 1) color_body_offsets
        && leb (2 * pairs) color_bodies && leb (2 * pairs) constraint_body_positions) }
{
    (pairs <= endpoints / 2)
        && roomy_with(
            bodies,
            pairs,
            2 * pairs,
            dynamic_bodies,
            endpoints,
            body_offsets,
            body_constraints,
            scratch_offsets,
            constraint_colors,
            color_stamps,
            body_stamps,
            color_offsets,
            colored_constraints,
            color_body_offsets,
            color_bodies,
            constraint_body_positions,
        )
}

impl<'a> PlanTables<'a> {
    // Question 6: is there room for so many bodies, constraints and endpoints?
    #[tactic(auto, unfolding(crate::specs::Plans::roomy_with))]
    pub fn has_room_for(&self, bodies: usize, constraints: usize, endpoints: usize) -> bool
        ensures { result ≡ roomy_with bodies constraints endpoints (tables_in self.now) }
    {
        roomy_with(
            bodies,
            constraints,
            endpoints,
            self.dynamic_bodies.len(),
            self.endpoints.len(),
            self.body_offsets.len(),
            self.body_constraints.len(),
            self.scratch_offsets.len(),
            self.constraint_colors.len(),
            self.color_stamps.len(),
            self.body_stamps.len(),
            self.color_offsets.len(),
            self.colored_constraints.len(),
            self.color_body_offsets.len(),
            self.color_bodies.len(),
            self.constraint_body_positions.len(),
        )
    }

    // The same where each constraint has two endpoints; the first test keeps their number from running over.
    #[tactic(auto, unfolding(crate::specs::Plans::roomy_with))]
    pub fn has_room_for_pairs(&self, bodies: usize, pairs: usize) -> bool
        ensures { result ≡ roomy bodies pairs (tables_in self.now) }
    {
        (pairs <= self.endpoints.len() / 2) && self.has_room_for(bodies, pairs, 2 * pairs)
    }

    // Whether a plan of these counts, with its tables of flags and endpoints, holds exactly this input of so many constraints.
    #[inline(always)]
    pub fn hold(
        &self,
        body_count: usize,
        constraint_count: usize,
        flags: &[u8],
        constraints: usize,
        ends: &[u16],
    ) -> bool
        ensures { result ≡ (eqb (length flags.now) body_count && eqb constraints constraint_count
            && same flags.now (take (length flags.now) self.now.dynamic_bodies.now)
            && same ends.now (take (length ends.now) self.now.endpoints.now)) }
    {
        (flags.len() == body_count)
            && (constraints == constraint_count)
            && self.dynamic_bodies.starts_with(flags)
            && self.endpoints.starts_with(ends)
    }
}

// Questions 3 to 7, where `room` answers 6.
#[tactic(auto, using(crate::proofs::Questions::sound_pairs), unfolding(crate::specs::Plans::update_refusal))]
pub fn ask_update(flags: &[u8], pairs: &[u16], room: bool) -> Result<(), Refusal>
    ensures { refused_by result ≡ update_refusal flags.now pairs.now room }
{
    let few = (flags.len() <= Frame::MAX_BODIES) & (pairs.len() / 2 <= Frame::MAX_PAIRS);
    ask(few, Refusal::TooMany)?;
    ask(pairs.len() % 2 == 0, Refusal::Lengths)?;
    ask(frame::at_most(flags, 1), Refusal::Values)?;
    ask(room, Refusal::Room)?;
    ask(
        constraints::all_sound(
            flags.len(),
            Pairs {
                pairs,
                enabled: &[],
            },
        ),
        Refusal::Endpoints,
    )
}

// The part of a group; empty if there is no such group or its offsets are missing.
#[tactic(auto, unfolding(crate::specs::Plans::group_part))]
pub fn group_part<'a>(
    color_count: usize,
    offsets: &[u16],
    table: &'a [u16],
    group: usize,
) -> &'a [u16]
    ensures { result.now ≡ group_part color_count offsets.now table.now group }
{
    match offsets.get(group..) {
        Some([start, end, ..]) if group < color_count => tables::part_or_none(
            table,
            usize::from(*start),
            usize::from(*end),
        ),
        _ => &table[..0],
    }
}
