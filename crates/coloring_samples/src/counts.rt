// The samples of constraints that have a count each, updates of one plan on one set of tables: a line with the answer, the remembered
// counts and, after a bar each, the positions of both constraints.
use crate::{print_answer, print_numbers};
use frame::Refusal;
use multi_coloring::MultiColoring;
use plan_arrays::PlanArrays;
use std::io;

// A plan of two constraints on six bodies, the counts that it remembers, and its tables.
#[derive(Clone, Copy)]
struct Stage {
    plan: MultiColoring,
    counts: [u8; 2],
    arrays: PlanArrays<6, 7, 2, 3, 6, 6>,
}

// A fresh plan, on tables that an earlier use may have left.
fn fresh() -> Stage {
    let mut arrays = PlanArrays::filled(9, 9);
    arrays.body_stamps.fill(1);
    Stage {
        plan: MultiColoring::new(),
        counts: [9; 2],
        arrays,
    }
}

// The positions of a constraint, behind a bar.
fn print_positions(rt: &impl Print, answer: Result<&[u16], Refusal>) -> io::Result<()> {
    print!(rt; " |")?;
    match answer {
        Ok(places) => print_numbers(rt, places),
        Err(refusal) => print!(rt; " refused {refusal}"),
    }
}

impl Stage {
    // The remembered counts, and the positions of both constraints.
    fn print(&self, rt: &impl Print) -> io::Result<()> {
        let counts = &self.counts;
        let positions = &self.arrays.constraint_body_positions;
        print!(rt; " {} {}", counts[0], counts[1])?;
        for constraint in 0..2 {
            print_positions(
                rt,
                self.plan
                    .body_positions_for_constraint(counts, positions, constraint),
            )?;
        }
        println!(rt; "")
    }

    // Six dynamic bodies, and each of them once as an endpoint.
    fn update(&mut self, rt: &impl Print, counts_in: &[u8]) -> io::Result<()> {
        let before = self.plan;
        let answer = before.update(
            &[1; 6],
            &[0, 1, 2, 3, 4, 5],
            counts_in,
            &mut self.counts,
            &mut self.arrays.tables(),
        );
        self.plan = answer.plan_after(before);
        print_answer(rt, answer, "changed")?;
        self.print(rt)
    }

    // What the plan remembers of the first count is set.
    fn remember(&mut self, rt: &impl Print, first: u8) -> io::Result<()> {
        self.counts[0] = first;
        print!(rt; "remembered")?;
        self.print(rt)
    }
}

// Two constraints in three ways, equal input, a remembered count that is none and is read as two, counts that are refused, and input that is equal
// as the counts are read.
pub fn samples(rt: &impl Print) -> io::Result<()> {
    let mut stage = fresh();
    stage.update(rt, &[2, 4])?;
    stage.update(rt, &[3, 3])?;
    stage.update(rt, &[3, 3])?;
    stage.remember(rt, 9)?;
    stage.update(rt, &[3, 3])?;
    stage.update(rt, &[1, 5])?;
    stage.update(rt, &[1, 4])?;
    stage.update(rt, &[2, 4])?;
    stage.remember(rt, 9)?;
    stage.update(rt, &[2, 4])
}
