// Updates of constraints that have a count each: as many as there may be, of four bodies each, and one more. Then one constraint of three on
// tables of just the lengths that are asked for, and with each of them one place short; and the lookup of its positions, in tables that are
// one place short and past the last constraint: the refusal, how many positions, and these.
use crate::{SHORT, Table, cut, cut_tables, show};
use constraint_coloring::ConstraintColoring;
use frame::Refusal;
use multi_coloring::MultiColoring;
use plan_arrays::PlanArrays;
use records::first;
use std::{array, io};

// The tables of four bodies in the most constraints.
type Arrays = PlanArrays<4, 5, 8192, 8193, 32768, 8192>;

// The same four bodies in as many constraints as there may be, the same input again, and one constraint more.
fn most(rt: &impl Print) -> io::Result<()> {
    let mut ends: [u16; 32772] = array::from_fn(|place| (place % 4) as u16);
    let mut counts = [0; 8192];
    let mut arrays = Arrays::filled(0, 0);
    let mut plan = MultiColoring::new();
    for (case, constraints) in [8192, 8192, 8193].iter().enumerate() {
        let answer = plan.update(
            &[1; 4],
            first(&mut ends, 4 * *constraints),
            first(&mut [4; 8193], *constraints),
            &mut counts,
            &mut arrays.tables(),
        );
        plan = answer.plan_after(plan);
        show(
            rt,
            case,
            answer,
            plan.plan,
            &arrays.constraint_body_positions,
        )?;
    }
    Ok(())
}

// One constraint of three on tables of just the lengths asked for, but one of them a place short.
fn exact(rt: &impl Print, case: usize, short: Option<Table>) -> io::Result<()> {
    let mut arrays = PlanArrays::<3, 4, 1, 2, 3, 3>::filled(7, 7);
    let mut counts = [7];
    let before = MultiColoring::new();
    let answer = before.update(
        &[1; 3],
        &[2, 0, 1],
        &[3],
        cut(&mut counts, short == Some(Table::Counts)),
        &mut cut_tables(&mut arrays, short),
    );
    let plan = answer.plan_after(before).plan;
    show(rt, case, answer, plan, &arrays.constraint_body_positions)
}

// How many positions, and these in four places; those past them are 0.
fn print_positions(rt: &impl Print, answer: Result<&[u16], Refusal>) -> io::Result<()> {
    match answer {
        Ok(places) => {
            print!(rt; "0 {}", places.len())?;
            for place in 0..4 {
                print!(rt; " {}", places.get(place).copied().unwrap_or(0))?;
            }
        }
        Err(refusal) => print!(rt; "{refusal}")?,
    }
    println!(rt; "")
}

// A plan of so many constraints on three bodies, in one group.
fn plan_of(constraint_count: usize) -> MultiColoring {
    MultiColoring {
        plan: ConstraintColoring {
            body_count: 3,
            constraint_count,
            color_count: 1,
            max_color_constraint_count: 1,
        },
    }
}

// The positions of one constraint of three: with its own place, a count short, a position short, past the last constraint, and of a plan that
// has more constraints than there may be.
fn lookups(rt: &impl Print) -> io::Result<()> {
    let lookup = |constraints, counts: &[u8], positions: &[u16], constraint| {
        let plan = plan_of(constraints);
        print_positions(
            rt,
            plan.body_positions_for_constraint(counts, positions, constraint),
        )
    };
    lookup(1, &[3], &[2, 0, 1], 0)?;
    lookup(1, &[], &[2, 0, 1], 0)?;
    lookup(1, &[3], &[2, 0], 0)?;
    lookup(1, &[3], &[2, 0, 1], 1)?;
    lookup(8193, &[3], &[2, 0, 1], 0)
}

pub fn limits(rt: &impl Print) -> io::Result<()> {
    most(rt)?;
    for (case, short) in SHORT.iter().enumerate() {
        exact(rt, case, *short)?;
    }
    lookups(rt)
}
