// The samples of the coloring in the paper's order, each an update of a fresh plan: a line with the number of groups and the six places
// of the color table, which hold 9 where no color goes. Every body has the stamp of group 0, as an earlier update may leave it. Then the
// samples of constraints that have a count each.
#![tactic(auto)]

mod counts;

use constraint_coloring::{ConstraintColoring, Update};
use plan_arrays::PlanArrays;
use records::Heedless;
use std::{fmt, io};

// The tables of at most 5 bodies and 6 constraints.
type Arrays = PlanArrays<5, 6, 6, 7, 12, 6>;

// What an update answers: `changed` where the plan changed.
fn print_answer<P: Copy, D: fmt::Display + Drop>(
    rt: &impl Print,
    answer: Update<P>,
    changed: D,
) -> io::Result<()> {
    match answer {
        Update::Changed(_) => print!(rt; "{changed}"),
        Update::Unchanged => print!(rt; "unchanged"),
        Update::Refused(refusal) => print!(rt; "refused {refusal}"),
    }
}

// Numbers, each behind a space.
fn print_numbers(rt: &impl Print, numbers: &[u16]) -> io::Result<()> {
    for number in numbers {
        print!(rt; " {number}")?;
    }
    Ok(())
}

fn sample(rt: &impl Print, flags: &[u8], pairs: &[u16]) -> io::Result<()> {
    let mut arrays = Arrays::filled(9, 9);
    arrays.body_stamps.fill(1);
    let before = ConstraintColoring::new();
    let answer = before.update(flags, pairs, &mut arrays.tables());
    print_answer(rt, answer, answer.plan_after(before).color_count)?;
    print_numbers(rt, &arrays.constraint_colors)?;
    println!(rt; "")
}

fn show_all(rt: &impl Print) -> io::Result<()> {
    sample(rt, &[1, 1, 1], &[2, 1, 0, 1])?;
    sample(rt, &[1, 0, 1], &[0, 1, 2, 1])?;
    sample(rt, &[1, 1], &[0, 1, 0, 1, 0, 1])?;
    sample(rt, &[0, 0], &[0, 1])?;
    sample(rt, &[1, 1], &[])?;
    sample(rt, &[1, 1, 1, 1], &[0, 1, 1, 2, 2, 3, 3, 0])?;
    sample(rt, &[1, 1, 1, 1, 1], &[0, 1, 2, 3, 1, 2, 3, 4, 0, 4])?;
    sample(rt, &[1, 1, 1, 0], &[0, 1, 0, 2, 0, 3, 1, 2, 1, 3, 2, 3])?;
    counts::samples(rt)
}

// No exit status tells of a write that failed.
fn main(rt: HostRuntime) {
    let _ = show_all(&Heedless { to: &rt });
}
