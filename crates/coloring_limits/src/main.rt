// Updates at their limits, one plan on one set of tables, first on cleared tables and then on dirty ones: a line each with the case, the
// refusal, whether the answer is "changed", the groups, the largest group and a checksum of the positions. Then one update on tables
// of just the lengths that are asked for, and with each of them one place short. Then the same of constraints that have a count each.
#![tactic(auto)]

ghost use Rattle.std.specs.Prelude.{◌≡◌, ◌<◌, ◌≤◌, ◌-◌, length, take};
ghost use Rattle.std.specs.Int.{from_bool};

mod counts;

use constraint_coloring::{ConstraintColoring, Update};
use plan_arrays::PlanArrays;
use plan_questions::PlanTables;
use records::{Heedless, first, mix};
use std::{array, io};

// How many flags and entries an input may have: one body and one pair more than an update takes.
const FLAGS: usize = 4097;

const ENTRIES: usize = 16386;

// The tables of the most bodies and pairs.
type Arrays = PlanArrays<4096, 4097, 8192, 8193, 16384, 8192>;

// The input of an update: body 0 has the flag `first` and all others 1; the pairs start at (0, `b`), and from pair to pair the
// first body grows by `a_step` and the second by `b_step`; the last entry is `last` if there is such.
#[derive(Clone, Copy)]
struct Case {
    bodies: usize,
    entries: usize,
    first: u8,
    a_step: u16,
    b: u16,
    b_step: u16,
    last: Option<u16>,
}

// So many bodies and entries, where each pair is (0, 1).
fn pairs(bodies: usize, entries: usize) -> Case {
    Case {
        bodies,
        entries,
        first: 1,
        a_step: 0,
        b: 1,
        b_step: 0,
        last: None,
    }
}

// Empty lists; one pair 8,192 times, the same again, and nearly so; a star, and with its center static; a path, shrunk to one pair,
// grown again, and equal; refusals 3, 3, 4, 5, 7 and 7; then the path is still remembered; no pairs; empty lists.
fn cases() -> [Case; 19] {
    let most = pairs(3, 16384);
    let last = Some(2);
    let star = Case {
        b_step: 1,
        ..pairs(4096, 8190)
    };
    let path = Case { a_step: 1, ..star };
    let pair = pairs(2, 2);
    [
        pairs(0, 0),
        most,
        most,
        Case { last, ..most },
        star,
        Case { first: 0, ..star },
        path,
        pair,
        path,
        path,
        pairs(4097, 0),
        pairs(2, 16386),
        pairs(2, 3),
        Case { first: 2, ..pair },
        Case { b: 0, ..pair },
        pairs(1, 2),
        path,
        pairs(4096, 0),
        pairs(0, 0),
    ]
}

impl Case {
    fn flags(self) -> [u8; FLAGS] {
        array::from_fn(|body| if body == 0 { self.first } else { 1 })
    }

    // The entry at a place.
    fn entry(self, place: usize) -> u16
        requires { place < 16386 }
    {
        let pair = (place / 2) as u16;
        match self.last {
            Some(last) if place + 1 == self.entries => last,
            _ if place % 2 == 0 => self.a_step.wrapping_mul(pair),
            _ => self.b_step.wrapping_mul(pair).wrapping_add(self.b),
        }
    }

    fn pairs(self) -> [u16; ENTRIES] {
        array::from_fn(|place| self.entry(place))
    }
}

// A checksum of a list.
pub fn checksum(list: &[u16]) -> u32
    ensures { result ≤ 65520 }
{
    let mut sum = 0;
    for x in list {
        sum = mix(sum, u32::from(*x) + 1);
    }
    sum
}

// The line of an update: `plan` is the plan after it.
fn show<P: Copy>(
    rt: &impl Print,
    case: usize,
    answer: Update<P>,
    plan: ConstraintColoring,
    positions: &[u16],
) -> io::Result<()> {
    let changed = u8::from(answer.is_changed());
    let (groups, largest) = (plan.color_count, plan.max_color_constraint_count);
    println!(rt;
        "{case} {} {changed} {groups} {largest} {}",
        answer.refusal(),
        checksum(positions)
    )
}

// The line of an update of pairs, with the positions of these: the plan after it.
fn show_pairs(
    rt: &impl Print,
    case: usize,
    answer: Update<ConstraintColoring>,
    before: ConstraintColoring,
    positions: &mut [u16],
) -> io::Result<ConstraintColoring> {
    let plan = answer.plan_after(before);
    let count = plan.constraint_count.saturating_mul(2);
    show(rt, case, answer, plan, first(positions, count))?;
    Ok(plan)
}

// One update: the plan after it.
fn next(
    rt: &impl Print,
    number: usize,
    case: Case,
    before: ConstraintColoring,
    arrays: &mut Arrays,
) -> io::Result<ConstraintColoring> {
    let (mut flags, mut pairs) = (case.flags(), case.pairs());
    let flags = first(&mut flags, case.bodies);
    let pairs = first(&mut pairs, case.entries);
    let answer = before.update(flags, pairs, &mut arrays.tables());
    show_pairs(
        rt,
        number,
        answer,
        before,
        &mut arrays.constraint_body_positions,
    )
}

// On tables that hold `mark` everywhere.
fn on_tables(rt: &impl Print, flag: u8, mark: u16) -> io::Result<()> {
    let mut plan = ConstraintColoring::new();
    let mut arrays = Arrays::filled(flag, mark);
    for (number, case) in cases().iter().enumerate() {
        plan = next(rt, number, *case, plan, &mut arrays)?;
    }
    Ok(())
}

// A table of an update.
#[derive(Clone, Copy, PartialEq, Eq)]
enum Table {
    DynamicBodies,
    Endpoints,
    Counts,
    BodyOffsets,
    BodyConstraints,
    ScratchOffsets,
    ConstraintColors,
    ColorStamps,
    BodyStamps,
    ColorOffsets,
    ColoredConstraints,
    ColorBodyOffsets,
    ColorBodies,
    ConstraintBodyPositions,
}

// Which table is a place short, from case to case; in the last none is.
const SHORT: [Option<Table>; 15] = [
    Some(Table::DynamicBodies),
    Some(Table::Endpoints),
    Some(Table::Counts),
    Some(Table::BodyOffsets),
    Some(Table::BodyConstraints),
    Some(Table::ScratchOffsets),
    Some(Table::ConstraintColors),
    Some(Table::ColorStamps),
    Some(Table::BodyStamps),
    Some(Table::ColorOffsets),
    Some(Table::ColoredConstraints),
    Some(Table::ColorBodyOffsets),
    Some(Table::ColorBodies),
    Some(Table::ConstraintBodyPositions),
    None,
];

// A table, a place short if it is to be.
pub fn cut<T>(table: &mut [T], short: bool) -> &mut [T]
    ensures part { result.now ≡ take (length table.old - from_bool short) table.old }
    ensures fits { length result.now ≤ length table.old }
{
    let count = table.len().saturating_sub(usize::from(short));
    &mut table[..count]
}

// The tables of a plan, the one that is `short` a place short.
fn cut_tables<
    'a,
    const B: usize,
    const B1: usize,
    const C: usize,
    const C1: usize,
    const E: usize,
    const S: usize,
>(arrays: &'a mut PlanArrays<B, B1, C, C1, E, S>, short: Option<Table>) -> PlanTables<'a> {
    let is = |table| short == Some(table);
    PlanTables {
        dynamic_bodies: cut(&mut arrays.dynamic_bodies, is(Table::DynamicBodies)),
        endpoints: cut(&mut arrays.endpoints, is(Table::Endpoints)),
        body_offsets: cut(&mut arrays.body_offsets, is(Table::BodyOffsets)),
        body_constraints: cut(&mut arrays.body_constraints, is(Table::BodyConstraints)),
        scratch_offsets: cut(&mut arrays.scratch_offsets, is(Table::ScratchOffsets)),
        constraint_colors: cut(&mut arrays.constraint_colors, is(Table::ConstraintColors)),
        color_stamps: cut(&mut arrays.color_stamps, is(Table::ColorStamps)),
        body_stamps: cut(&mut arrays.body_stamps, is(Table::BodyStamps)),
        color_offsets: cut(&mut arrays.color_offsets, is(Table::ColorOffsets)),
        colored_constraints: cut(
            &mut arrays.colored_constraints,
            is(Table::ColoredConstraints),
        ),
        color_body_offsets: cut(&mut arrays.color_body_offsets, is(Table::ColorBodyOffsets)),
        color_bodies: cut(&mut arrays.color_bodies, is(Table::ColorBodies)),
        constraint_body_positions: cut(
            &mut arrays.constraint_body_positions,
            is(Table::ConstraintBodyPositions),
        ),
    }
}

// One pair on tables of just the lengths asked for, but one of them a place short.
fn exact(rt: &impl Print, case: usize, short: Option<Table>) -> io::Result<()> {
    let mut arrays = PlanArrays::<2, 3, 1, 2, 2, 2>::filled(7, 7);
    let before = ConstraintColoring::new();
    let answer = before.update(&[1, 1], &[0, 1], &mut cut_tables(&mut arrays, short));
    show_pairs(
        rt,
        case,
        answer,
        before,
        &mut arrays.constraint_body_positions,
    )?;
    Ok(())
}

// The cases of pairs, which have no table of counts.
fn short_tables(rt: &impl Print) -> io::Result<()> {
    let tables = SHORT.iter().filter(|short| **short != Some(Table::Counts));
    for (case, short) in tables.enumerate() {
        exact(rt, case, *short)?;
    }
    Ok(())
}

fn show_all(rt: &impl Print) -> io::Result<()> {
    on_tables(rt, 0, 0)?;
    on_tables(rt, 255, 65535)?;
    short_tables(rt)?;
    counts::limits(rt)
}

// No exit status tells of a write that failed.
fn main(rt: HostRuntime) {
    let _ = show_all(&Heedless { to: &rt });
}
