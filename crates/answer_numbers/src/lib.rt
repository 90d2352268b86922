// Answers as numbers, for the calls of C. Internal to the boundary.
#![tactic(auto)]

ghost use Rattle.std.specs.Prelude.{◌≡◌, Ok, cond, eqb, get_or};
ghost use Rattle.frame.specs.Refusals.{refused_by};
ghost use Rattle.constraint_coloring.specs.Calls.{positions_values};
ghost use Rattle.answer_numbers.specs.Numbers.{placed, handed_numbers, taken_numbers};

use colored_bodies::Taken;
use colored_bodies::multi::TakenAt;
use frame::Refusal;
use frame::refusal::refusal_number;
use std::array;
use tables::entry_or;

// Where the part of a group starts, if it is not empty.
pub fn part_start(offsets: &[u16], group: usize, size: usize) -> usize
    ensures { result ≡ cond (eqb size 0) 0 (get_or offsets.now group 0) }
{
    if size == 0 {
        return 0;
    }
    usize::from(entry_or(offsets, group, 0))
}

// The answer of a lookup of positions as numbers, in so many places: those past the last position are 0, and all are where it is refused.
pub fn locate<const N: usize>(answer: Result<&[u16], Refusal>, places: &mut [u16; N]) -> u8
    ensures { (result ≡ refused_by answer.entry) × (places.new ≡ placed N (positions_values answer.entry)) }
{
    let found = answer.unwrap_or(&[]);
    *places = array::from_fn(|place| entry_or(found, place, 0));
    refusal_number(&answer)
}

// The bodies that a take hands as numbers: each with 1 for "dynamic" or 0 for "read-only".
fn numbers_of(taken: Taken) -> [u16; 4]
    ensures { result ≡ handed_numbers (Ok taken) }
{
    [
        taken.first.body,
        u16::from(taken.first.dynamic),
        taken.second.body,
        u16::from(taken.second.dynamic),
    ]
}

// The same of a take of two to four positions.
fn numbers_at(taken: TakenAt) -> [u16; 8]
    ensures { result ≡ taken_numbers (Ok taken) }
{
    let handed = taken.handed;
    [
        handed[0].body,
        u16::from(handed[0].dynamic),
        handed[1].body,
        u16::from(handed[1].dynamic),
        handed[2].body,
        u16::from(handed[2].dynamic),
        handed[3].body,
        u16::from(handed[3].dynamic),
    ]
}

// The answer of a take as numbers: zeros where it is refused.
pub fn hand(taken: Result<Taken, Refusal>, handed: &mut [u16; 4]) -> u8
    ensures { (result ≡ refused_by taken) × (handed.new ≡ handed_numbers taken) }
{
    *handed = taken.map_or([0; 4], numbers_of);
    refusal_number(&taken)
}

// The answer of a take of two to four positions as numbers.
pub fn hand_taken(taken: Result<TakenAt, Refusal>, handed: &mut [u16; 8]) -> u8
    ensures { (result ≡ refused_by taken) × (handed.new ≡ taken_numbers taken) }
{
    *handed = taken.map_or([0; 8], numbers_at);
    refusal_number(&taken)
}
