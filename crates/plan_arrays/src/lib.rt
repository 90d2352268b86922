// The thirteen tables of a plan as arrays, for the programs that update plans. Internal: the library is lent its tables.
#![tactic(auto)]

ghost use Rattle.std.specs.Prelude.{◌≡◌, replicate};

use plan_questions::PlanTables;

// Tables with room for B bodies, C constraints and E endpoints, where B1 is B + 1 and C1 is C + 1, and S is the larger of B and C.
#[derive(Clone, Copy)]
pub struct PlanArrays<
    const B: usize,
    const B1: usize,
    const C: usize,
    const C1: usize,
    const E: usize,
    const S: usize,
> {
    pub dynamic_bodies: [u8; B],
    pub endpoints: [u16; E],
    pub body_offsets: [u16; B1],
    pub body_constraints: [u16; E],
    pub scratch_offsets: [u16; S],
    pub constraint_colors: [u16; C],
    pub color_stamps: [u16; C],
    pub body_stamps: [u16; B],
    pub color_offsets: [u16; C1],
    pub colored_constraints: [u16; C],
    pub color_body_offsets: [u16; C1],
    pub color_bodies: [u16; E],
    pub constraint_body_positions: [u16; E],
}

impl<
    const B: usize,
    const B1: usize,
    const C: usize,
    const C1: usize,
    const E: usize,
    const S: usize,
> PlanArrays<B, B1, C, C1, E, S> {
    // Tables that hold these two values everywhere.
    pub fn filled(flag: u8, number: u16) -> Self
        ensures { (result.dynamic_bodies ≡ replicate B flag) × (result.endpoints ≡ replicate E number) × (result.body_offsets ≡ replicate B1 number)
            × (result.body_constraints ≡ replicate E number) × (result.scratch_offsets ≡ replicate S number) × (result.constraint_colors ≡ replicate C number)
            × (result.color_stamps ≡ replicate C number) × (result.body_stamps ≡ replicate B number) × (result.color_offsets ≡ replicate C1 number)
            × (result.colored_constraints ≡ replicate C number) × (result.color_body_offsets ≡ replicate C1 number) × (result.color_bodies ≡ replicate E number)
            × (result.constraint_body_positions ≡ replicate E number) }
    {
        PlanArrays {
            dynamic_bodies: [flag; B],
            endpoints: [number; E],
            body_offsets: [number; B1],
            body_constraints: [number; E],
            scratch_offsets: [number; S],
            constraint_colors: [number; C],
            color_stamps: [number; C],
            body_stamps: [number; B],
            color_offsets: [number; C1],
            colored_constraints: [number; C],
            color_body_offsets: [number; C1],
            color_bodies: [number; E],
            constraint_body_positions: [number; E],
        }
    }

    // The tables, lent.
    pub fn tables(&mut self) -> PlanTables<'_>
        ensures { (result.dynamic_bodies.now ≡ self.old.dynamic_bodies) × (result.endpoints.now ≡ self.old.endpoints) × (result.body_offsets.now ≡ self.old.body_offsets)
            × (result.body_constraints.now ≡ self.old.body_constraints) × (result.scratch_offsets.now ≡ self.old.scratch_offsets) × (result.constraint_colors.now ≡ self.old.constraint_colors)
            × (result.color_stamps.now ≡ self.old.color_stamps) × (result.body_stamps.now ≡ self.old.body_stamps) × (result.color_offsets.now ≡ self.old.color_offsets)
            × (result.colored_constraints.now ≡ self.old.colored_constraints) × (result.color_body_offsets.now ≡ self.old.color_body_offsets) × (result.color_bodies.now ≡ self.old.color_bodies)
            × (result.constraint_body_positions.now ≡ self.old.constraint_body_positions) }
    {
        PlanTables {
            dynamic_bodies: &mut self.dynamic_bodies,
            endpoints: &mut self.endpoints,
            body_offsets: &mut self.body_offsets,
            body_constraints: &mut self.body_constraints,
            scratch_offsets: &mut self.scratch_offsets,
            constraint_colors: &mut self.constraint_colors,
            color_stamps: &mut self.color_stamps,
            body_stamps: &mut self.body_stamps,
            color_offsets: &mut self.color_offsets,
            colored_constraints: &mut self.colored_constraints,
            color_body_offsets: &mut self.color_body_offsets,
            color_bodies: &mut self.color_bodies,
            constraint_body_positions: &mut self.constraint_body_positions,
        }
    }
}
