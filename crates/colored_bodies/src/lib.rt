// Bindings: which bodies a group of constraints may take, and which have been taken (solver/colored_bodies.rs).
//
// `bind` lists a group's bodies and marks held those that make conflicts, the dynamic and the logged ones. A take hands two bodies over,
// in the order asked, and marks the held ones taken, so that none of these is handed over twice. `bind` refuses too many bodies (3),
// unknown types (5) and a list that does not rise inside them (8); a take refuses bad positions (9) and bodies that are gone (10, 11).
// Takes of two to four bodies are in the module `multi`.
#![tactic(auto)]

ghost use Rattle.std.specs.Prelude.{◌≡◌, ◌&&◌, cond, List, [], ◌∷◌, map, ℕ, ◌<◌, ◌≤◌, eqb, length, replicate};
ghost use Rattle.lists.specs.Basics.{rises};
ghost use Rattle.frame.specs.Refusals.{refused_by};
ghost use Rattle.colored_bodies.specs.Bindings.{last_below, bind_refusal, Known, mark_of, padded, placed, spend, refusal_from, marks_from};
ghost use Rattle.colored_bodies.specs.Answers.{Fillable, Binds, Takes, Marks};
ghost use Rattle.colored_bodies.specs.Lent.{binding_with, BoundBy, SameMarks};

use frame::{Frame, Refusal, ask};

pub mod multi;

// The marks of a place. Any number above these is a taken body's mark, too: marks are lent by C.
pub const READ_ONLY: u8 = 0;

pub const HELD: u8 = 1;

pub const TAKEN: u8 = 2;

// For each place a body number and a mark.
#[derive(Drop)]
pub struct BodyBinding {
    pub bodies: [u16; Frame::MAX_BODIES],
    pub marks: [u8; Frame::MAX_BODIES],
    pub count: usize,
}

// A binding without its bodies, as takes of marks read it: the marks that are lent, and the count.
#[derive(Drop)]
pub struct BoundMarks<'a> {
    pub marks: &'a mut [u8; Frame::MAX_BODIES],
    pub count: usize,
}

// What bind answers: whether it is refused, and the binding, an empty one after a refusal.
#[derive(Drop)]
pub struct Bound {
    pub asked: Result<(), Refusal>,
    pub binding: BodyBinding,
}

// What a take of marks hands: for each body, in the order asked, whether it is "dynamic" or "read-only".
#[derive(Clone, Copy, Debug, PartialEq, Eq)]
pub struct Marked {
    pub first_dynamic: bool,
    pub second_dynamic: bool,
}

// A body as a take hands it: its number, and whether it is "dynamic" or "read-only".
#[derive(Clone, Copy, Debug, PartialEq, Eq)]
pub struct Handed {
    pub body: u16,
    pub dynamic: bool,
}

// What a take hands: its two bodies, in the order asked.
#[derive(Clone, Copy, Debug, PartialEq, Eq)]
pub struct Taken {
    pub first: Handed,
    pub second: Handed,
}

// A take by value: the binding after it, and its answer.
#[derive(Drop)]
pub struct Step<T> {
    pub binding: BodyBinding,
    pub taken: T,
}

// Question 8: the list rises strictly, and its last entry is below n.
fn rises_below(indices: &[u16], n: usize) -> bool
    ensures { result ≡ (rises indices.now && last_below n indices.now) }
{
    indices.windows(2).all(|pair| pair[0] < pair[1])
        && indices.last().is_none_or(|&x| usize::from(x) < n)
}

// Question 8, the only one left of known types.
#[tactic(auto, unfolding(crate::specs::Bindings::bind_refusal))]
fn known_refusal(types: &[u8], indices: &[u16]) -> Result<(), Refusal>
    requires { Known types.now }
    ensures { refused_by result ≡ bind_refusal types.now indices.now }
{
    ask(rises_below(indices, types.len()), Refusal::BodyList)
}

// Questions 3, 5 and 8, in that order.
#[tactic(auto, unfolding(crate::specs::Bindings::bind_refusal))]
fn bind_refusal(types: &[u8], indices: &[u16]) -> Result<(), Refusal>
    ensures { refused_by result ≡ bind_refusal types.now indices.now }
{
    ask(types.len() <= Frame::MAX_BODIES, Refusal::TooMany)?;
    let known = frame::at_most(types, Frame::MAX_TYPE);
    ask(known, Refusal::Values)?;
    known_refusal(types, indices)
}

// The bodies that a bind lists: none if it is refused.
fn listed(asked: Result<(), Refusal>, indices: &[u16]) -> &[u16]
    ensures { result.now ≡ cond (eqb (refused_by asked) 0) indices.now [] }
{
    if asked.is_ok() { indices } else { &[] }
}

// The numbers of the bodies of a list, into a table of zeros.
fn number_bodies(indices: &[u16], bodies: &mut [u16; Frame::MAX_BODIES])
    requires { (length indices.now ≤ 4096) × (bodies.old ≡ replicate 4096 0) }
    ensures { bodies.new ≡ padded indices.now }
{
    bodies[..indices.len()].copy_from_slice(indices);
}

// The marks of the bodies of a list, into a table of zeros: dynamic and logged bodies are held, others read-only.
fn mark_bodies(types: &[u8], indices: &[u16], marks: &mut [u8; Frame::MAX_BODIES])
    requires { Fillable types.now indices.now × (marks.old ≡ replicate 4096 0) }
    ensures { marks.new ≡ padded (map (mark_of types.now) indices.now) }
{
    // The first i places have their bodies' marks, the others 0.
    for (i, &x) in indices.iter().enumerate() {
        marks[i] = frame::flag_of(types[usize::from(x)]);
    }
}

impl BoundMarks<'_> {
    // All that a bind of known types does to marks, whatever stood in the table, with no copy. No entry: the run's loop over groups calls it.
    pub fn bind(&mut self, types: &[u8], indices: &[u16])
        requires { Known types.now }
        ensures { BoundBy types.now indices.now self.old self.new }
    {
        let bodies = listed(known_refusal(types, indices), indices);
        *self.marks = [READ_ONLY; Frame::MAX_BODIES];
        mark_bodies(types, bodies, self.marks);
        self.count = bodies.len();
    }
}

impl BodyBinding {
    // Binds the listed bodies: dynamic and logged ones are held, others read-only. A refused bind binds nothing.
    pub fn bind(types: &[u8], indices: &[u16]) -> Bound
        ensures { Binds types.now indices.now (refused_by result.asked) result.binding }
    {
        let asked = bind_refusal(types, indices);
        let bound = listed(asked, indices);
        let mut bodies = [0u16; Frame::MAX_BODIES];
        let mut marks = [READ_ONLY; Frame::MAX_BODIES];
        number_bodies(bound, &mut bodies);
        mark_bodies(types, bound, &mut marks);
        Bound {
            asked,
            binding: BodyBinding {
                bodies,
                marks,
                count: bound.len(),
            },
        }
    }
}

// Question 9: two different positions, both below the count and 4,096.
fn placed_in(count: usize, a: usize, b: usize) -> bool
    ensures { result ≡ placed count (a ∷ b ∷ []) }
{
    (a != b) & (a < count) & (a < Frame::MAX_BODIES) & (b < count) & (b < Frame::MAX_BODIES)
}

// A held place becomes taken; any other keeps its mark.
fn take_body(marks: &mut [u8; Frame::MAX_BODIES], p: usize)
    requires { p < 4096 }
    ensures { marks.new ≡ spend marks.old p }
{
    if marks[p] == HELD {
        marks[p] = TAKEN;
    }
}

impl BoundMarks<'_> {
    // All that a take does to the marks, with no copy: what a loop over a local binding calls. Its promise holds whatever bodies stand
    // beside the marks.
    pub fn take(&mut self, a: usize, b: usize) -> Result<Marked, Refusal>
        ensures taken { (bodies : List ℕ) → Marks (binding_with bodies self.old) (a ∷ b ∷ []) result self.new.marks.now }
        ensures same { SameMarks self.old self.new }
    {
        if !placed_in(self.count, a, b) {
            return Err(Refusal::Positions);
        }
        let first_dynamic = self.marks[a] == HELD;
        let second_dynamic = self.marks[b] == HELD;
        multi::take_each(self.marks, &[a.min(b) as u16, a.max(b) as u16])?;
        Ok(Marked {
            first_dynamic,
            second_dynamic,
        })
    }
}

// Takes the bodies at positions a and b, the lower position first, from the parts of a binding: what the calls for C are lent.
pub fn take_from(
    bodies: &[u16; Frame::MAX_BODIES],
    marks: &mut [u8; Frame::MAX_BODIES],
    count: usize,
    a: usize,
    b: usize,
) -> Result<Taken, Refusal>
    ensures { Takes (record { bodies = bodies.now; marks = marks.old; count = count }) (a ∷ b ∷ []) result (record { bodies = bodies.now; marks = marks.new; count = count }) }
{
    let mut bound = BoundMarks { marks, count };
    let marked = bound.take(a, b)?;
    let first = Handed {
        body: bodies[a],
        dynamic: marked.first_dynamic,
    };
    let second = Handed {
        body: bodies[b],
        dynamic: marked.second_dynamic,
    };
    Ok(Taken { first, second })
}

// The same take where the caller keeps the binding, with no copy.
pub fn take_at(binding: &mut BodyBinding, a: usize, b: usize) -> Result<Taken, Refusal>
    ensures { Takes binding.old (a ∷ b ∷ []) result binding.new }
{
    let count = binding.count;
    take_from(&binding.bodies, &mut binding.marks, count, a, b)
}

impl BodyBinding {
    // The same take by value.
    pub fn pair_at(mut self, a: usize, b: usize) -> Step<Result<Taken, Refusal>>
        ensures { Takes self (a ∷ b ∷ []) result.taken result.binding }
    {
        let taken = take_at(&mut self, a, b);
        Step {
            binding: self,
            taken,
        }
    }
}
