// A history: updates of one plan on one set of tables. An update is B, the number of pair entries, flags and entries, one byte each.
use crate::Answer;
use constraint_coloring::{ConstraintColoring, Update};
use frame::Refusal;
use plan_arrays::PlanArrays;
use records::{Reader, first};

// The plan and its tables, which have room for 7 bodies and 7 constraints.
#[derive(Clone, Copy)]
struct Stage {
    plan: ConstraintColoring,
    arrays: PlanArrays<7, 8, 8, 9, 15, 8>,
}

// 1 for "changed", 2 for "unchanged", else 0 and the refusal.
fn put_update(answer: Update<ConstraintColoring>, out: &mut Answer) {
    match answer {
        Update::Changed(_) => out.byte(1),
        Update::Unchanged => out.byte(2),
        Update::Refused(refusal) => {
            out.byte(0);
            out.byte(refusal.number());
        }
    }
}

// A group's members or bodies, behind their number.
fn put_group(numbers: &[u16], out: &mut Answer) {
    out.byte((numbers.len() % 256) as u8);
    out.halves(numbers);
}

fn put_positions(answer: Result<&[u16], Refusal>, out: &mut Answer) {
    match answer {
        Ok(places) => out.halves(places),
        Err(refusal) => out.byte(refusal.number()),
    }
}

impl Stage {
    // A new plan on tables with a pattern in them.
    fn first() -> Self {
        Stage {
            plan: ConstraintColoring::new(),
            arrays: PlanArrays::filled(171, 43981),
        }
    }

    fn put_plan(&self, out: &mut Answer) {
        for number in <[usize; 4]>::from(self.plan) {
            out.byte((number % 256) as u8);
        }
    }

    // All tables that are not free.
    fn put_tables(&self, out: &mut Answer) {
        let arrays = &self.arrays;
        out.bytes(&arrays.dynamic_bodies);
        out.halves(&arrays.endpoints);
        out.halves(&arrays.constraint_colors);
        out.halves(&arrays.color_offsets);
        out.halves(&arrays.colored_constraints);
        out.halves(&arrays.color_body_offsets);
        out.halves(&arrays.color_bodies);
        out.halves(&arrays.constraint_body_positions);
    }

    // One update, its answer, the plan after it and the tables.
    fn update(&mut self, flags: &[u8], pairs: &[u16], out: &mut Answer) {
        let before = self.plan;
        let answer = before.update(flags, pairs, &mut self.arrays.tables());
        self.plan = answer.plan_after(before);
        put_update(answer, out);
        self.put_plan(out);
        self.put_tables(out);
    }

    // The question's next update. The number of pair entries is cut to what a question may hold.
    fn answer_update(&mut self, question: &mut Reader, out: &mut Answer) {
        let flags = question.byte();
        let entries = question.byte();
        let flags = question.bytes(usize::from(flags));
        let mut pairs = [0; 24];
        let pairs = first(&mut pairs, usize::from(entries));
        question.numbers(pairs);
        self.update(flags, pairs, out);
    }

    // The members and the bodies of a group.
    fn put_groups(&self, group: usize, out: &mut Answer) {
        let arrays = &self.arrays;
        let members = self
            .plan
            .constraints_in_schedule_group(
                &arrays.color_offsets,
                &arrays.colored_constraints,
                group,
            );
        put_group(members, out);
        let bodies = self
            .plan
            .bodies_in_schedule_group(&arrays.color_body_offsets, &arrays.color_bodies, group);
        put_group(bodies, out);
    }

    // The positions of a constraint.
    fn put_place_of(&self, constraint: usize, out: &mut Answer) {
        let positions = &self.arrays.constraint_body_positions;
        let answer = self
            .plan
            .body_positions_for_constraint(positions, constraint);
        put_positions(answer, out);
    }
}

// The updates; then the members and bodies of the groups from 0 to 7, each with its number before it; then the positions of the
// constraints from 0 to 7.
pub fn answer(question: &[u8], out: &mut Answer) {
    let mut question = Reader::new(question);
    let mut stage = Stage::first();
    for _ in 0..question.byte() {
        stage.answer_update(&mut question, out);
    }
    for group in 0..8 {
        stage.put_groups(group, out);
    }
    for constraint in 0..8 {
        stage.put_place_of(constraint, out);
    }
}
