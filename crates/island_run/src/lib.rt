// The islands of the run, internal: one after another, each with its part of the sorted constraint numbers.
#![tactic(auto)]

ghost use Rattle.std.specs.Prelude.{◌≡◌, ◌≤◌, ◌*◌, cond, eqb, length};
ghost use Rattle.frame.specs.Frames.{end_count};
ghost use Rattle.plan_questions.specs.Lent.{tables_in, lengths_of, SameTables};
ghost use Rattle.turn_table.specs.Turns.{none, Room, Appended};
ghost use Rattle.group_run.specs.Appends.{added_by};
ghost use Rattle.island_numbers.specs.Tables.{labels_of};
ghost use Rattle.island_run.specs.Islands.{Prepared};
ghost use Rattle.island_run.specs.Views.{calls_of_frame};

pub use filled::FilledFrame;
use one_island::Island;
use plan_questions::PlanTables;
use turn_table::{Tally, TurnTable};

mod filled;

// How many endpoints so many constraints have: as their counts say, or two each without counts.
fn count_ends(counts: &[u8], constraints: usize) -> usize
    requires { (constraints ≤ 8192) × (length counts.now ≤ 8192) }
    ensures { result ≡ cond (eqb (length counts.now) 0) (2 * constraints) (end_count counts.now) }
{
    if counts.len() == 0 {
        return 2 * constraints;
    }
    frame::multi::sum_counts(counts)
}

// The islands in number order. The endpoints and counts of all constraints are collected once, in the order of the numbers; each island's are
// then a part. The tables of the plan, `island_ends` and `island_counts` are free.
pub fn run_islands(
    islands: u16,
    filled: FilledFrame<'_>,
    island_ends: &mut [u16],
    island_counts: &mut [u8],
    plan_counts: &mut [u8],
    tables: &mut PlanTables<'_>,
    turns: &mut [u16],
) -> Tally
    requires prepared { Prepared islands filled.flags.now filled.counts.now filled.ends.now (labels_of filled.labels) filled.numbers.now island_ends.old island_counts.old
        (tables_in tables.old) plan_counts.old }
    requires room { Room (added_by (calls_of_frame filled islands)) turns.old none }
    ensures appended { Appended (added_by (calls_of_frame filled.entry islands)) turns.old none turns.new result }
    ensures same_tables { SameTables tables.old tables.new }
    ensures same_lengths { lengths_of (tables_in tables.new) ≡ lengths_of (tables_in tables.old) }
{
    island_numbers::collect(
        filled.ends,
        filled.counts,
        filled.numbers,
        tables.body_constraints,
        island_ends,
        island_counts,
    );
    let mut table = TurnTable {
        turns,
        tally: Tally::default(),
    };
    let mut start: usize = 0;
    let mut ends_start: usize = 0;
    // The islands before `island` are run; its numbers begin at `start` of the numbers, and its endpoints at `ends_start` of the endpoints.
    for island in 0..islands {
        let end = island_numbers::part_end(filled.labels, filled.numbers, island, start);
        let counts = tables::part_or_none(island_counts, start, end);
        let ends_end = ends_start + count_ends(counts, end - start);
        let part = Island {
            island,
            types: filled.types,
            flags: filled.flags,
            ends: &island_ends[ends_start..ends_end],
            counts,
            numbers: &filled.numbers[start..end],
        };
        one_island::run_island(part, plan_counts, tables, &mut table);
        start = end;
        ends_start = ends_end;
    }
    table.tally
}
