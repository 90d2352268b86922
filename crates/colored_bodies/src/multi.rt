// Takes of two to four bodies: the same take, over a list of positions. It refuses other lengths (5), bad positions (9), and bodies that
// are gone, by rising place (10, 11).
ghost use Rattle.std.specs.Prelude.{◌≡◌, ◌≤◌, ℕ, List, map, cond, true, eqb, ltb, length, get_or};
ghost use Rattle.lists.specs.Basics.{all, one, four, sorted};
ghost use Rattle.frame.specs.Refusals.{number_of, refused_by};
ghost use Rattle.colored_bodies.specs.Bindings.{ask_refusal, refusal_from, marks_from};
ghost use Rattle.colored_bodies.specs.Answers.{Handable, MarksAt, TakesAt, handed_each};
ghost use Rattle.colored_bodies.specs.Lent.{binding_with, SameMarks, entries_at};

use crate::{BodyBinding, BoundMarks, HELD, Handed, READ_ONLY, Step, take_body};
use frame::{Frame, Refusal, ask};

// What a take hands: how many bodies, and the bodies in the order asked. Past them stand the number 0 and "read-only".
#[derive(Clone, Copy, Debug, PartialEq, Eq)]
pub struct TakenAt {
    pub count: usize,
    pub handed: [Handed; Frame::MAX_ENDS],
}

// The lower of a count and 4,096: positions below both are below this.
fn limit_of(count: usize) -> usize
    ensures { result ≡ cond (ltb count 4096) count 4096 }
{
    count.min(Frame::MAX_BODIES)
}

// Questions 5 and 9.
#[tactic(auto, using(crate::proofs::Positions::positions_placed))]
fn ask_refusal(count: usize, positions: &[u16]) -> Result<(), Refusal>
    ensures { refused_by result ≡ ask_refusal count positions.now }
{
    ask(frame::multi::counted(positions.len()), Refusal::Values)?;
    let placed = frame::multi::distinct_below(positions, limit_of(count));
    ask(placed, Refusal::Positions)
}

// The entries of a table at the positions, and past these `none`.
fn entries_at<T: Copy>(
    table: &[T; Frame::MAX_BODIES],
    positions: &[u16],
    none: T,
) -> [T; Frame::MAX_ENDS]
    requires { Handable positions.now }
    ensures { result ≡ entries_at none table.now positions.now }
{
    let mut entries = [none; Frame::MAX_ENDS];
    // The first i entries are those of their positions, the others `none`.
    for (i, &p) in positions.iter().enumerate() {
        entries[i] = table[usize::from(p)];
    }
    entries
}

// Which of the positions asked are "dynamic", by the marks as they stand.
fn dynamic_at(marks: &[u8; Frame::MAX_BODIES], positions: &[u16]) -> [bool; Frame::MAX_ENDS]
    requires { Handable positions.now }
    ensures { map one result ≡ four (map (λ p. one (eqb (get_or marks.now p 0) 1)) positions.now) }
{
    let entries = entries_at(marks, positions, READ_ONLY);
    [
        entries[0] == HELD,
        entries[1] == HELD,
        entries[2] == HELD,
        entries[3] == HELD,
    ]
}

// What refuses at the first place, and at a later one.
fn gone_at(i: usize) -> Refusal
    ensures { number_of result ≡ cond (eqb i 0) 10 11 }
{
    if i == 0 {
        Refusal::LowerTaken
    } else {
        Refusal::HigherTaken
    }
}

// Questions 10 and 11, place after place: each is taken before the next is asked, and stays taken if that one is gone.
pub(crate) fn take_each(marks: &mut [u8; Frame::MAX_BODIES], places: &[u16]) -> Result<(), Refusal>
    requires { all (λ p. ltb p 4096) places.now ≡ true }
    ensures { (refused_by result ≡ refusal_from 10 marks.old places.now) × (marks.new ≡ marks_from marks.old places.now) }
{
    // The first i places were free, and are taken.
    for (i, &place) in places.iter().enumerate() {
        let at = usize::from(place);
        if HELD < marks[at] {
            return Err(gone_at(i));
        }
        take_body(marks, at);
    }
    Ok(())
}

// The same by rising place.
fn take_rising(marks: &mut [u8; Frame::MAX_BODIES], positions: &[u16]) -> Result<(), Refusal>
    requires { (length positions.now ≤ 4) × (all (λ p. ltb p 4096) positions.now ≡ true) }
    ensures { (refused_by result ≡ refusal_from 10 marks.old (sorted positions.now)) × (marks.new ≡ marks_from marks.old (sorted positions.now)) }
{
    let n = positions.len();
    let mut places = [0u16; Frame::MAX_ENDS];
    let mut scratch = [0u16; Frame::MAX_ENDS];
    places[..n].copy_from_slice(positions);
    ordering::sort(&mut places[..n], &mut scratch);
    take_each(marks, &places[..n])
}

impl BoundMarks<'_> {
    // All that a take of two to four positions does to the marks: it hands a flag for each position, in the order asked, and `false` past
    // them. Its promise holds whatever bodies stand beside the marks.
    pub fn take_at(&mut self, positions: &[u16]) -> Result<[bool; Frame::MAX_ENDS], Refusal>
        ensures taken { (bodies : List ℕ) → MarksAt (binding_with bodies self.old) positions.now result self.new.marks.now }
        ensures same { SameMarks self.old self.new }
    {
        ask_refusal(self.count, positions)?;
        let dynamic = dynamic_at(self.marks, positions);
        take_rising(self.marks, positions)?;
        Ok(dynamic)
    }
}

// Four bodies' numbers, each with whether it is "dynamic".
fn handed_each(
    bodies: [u16; Frame::MAX_ENDS],
    dynamic: [bool; Frame::MAX_ENDS],
) -> [Handed; Frame::MAX_ENDS]
    ensures { result ≡ handed_each bodies dynamic }
{
    [
        Handed {
            body: bodies[0],
            dynamic: dynamic[0],
        },
        Handed {
            body: bodies[1],
            dynamic: dynamic[1],
        },
        Handed {
            body: bodies[2],
            dynamic: dynamic[2],
        },
        Handed {
            body: bodies[3],
            dynamic: dynamic[3],
        },
    ]
}

// Takes the bodies at two to four positions, the lowest position first, from the parts of a binding: what the calls for C are lent.
pub fn take_from(
    bodies: &[u16; Frame::MAX_BODIES],
    marks: &mut [u8; Frame::MAX_BODIES],
    count: usize,
    positions: &[u16],
) -> Result<TakenAt, Refusal>
    ensures { TakesAt (record { bodies = bodies.now; marks = marks.old; count = count }) positions.now result (record { bodies = bodies.now; marks = marks.new; count = count }) }
{
    let mut bound = BoundMarks { marks, count };
    let dynamic = bound.take_at(positions)?;
    let numbers = entries_at(bodies, positions, 0);
    Ok(TakenAt {
        count: positions.len(),
        handed: handed_each(numbers, dynamic),
    })
}

// The same take where the caller keeps the binding.
pub fn take_bodies_at(binding: &mut BodyBinding, positions: &[u16]) -> Result<TakenAt, Refusal>
    ensures { TakesAt binding.old positions.now result binding.new }
{
    let count = binding.count;
    take_from(&binding.bodies, &mut binding.marks, count, positions)
}

impl BodyBinding {
    // The same take by value.
    pub fn bodies_at(mut self, positions: &[u16]) -> Step<Result<TakenAt, Refusal>>
        ensures { TakesAt self positions.now result.taken result.binding }
    {
        let taken = take_bodies_at(&mut self, positions);
        Step {
            binding: self,
            taken,
        }
    }
}
