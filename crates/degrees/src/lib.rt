// D, internal to the frame run: the largest number of constraints with an island on one body that makes conflicts.
#![tactic(auto)]

ghost use Rattle.std.specs.Prelude.{◌≤◌, ◌≡◌, true, [], ◌∷◌, ltb, length, get_or};
ghost use Rattle.lists.specs.Basics.{all, max_of, range};
ghost use Rattle.frame.specs.Constraints.{lent};
ghost use Rattle.frame.specs.Frames.{constraints, frame_of, touches, all_sound, degree_max};
ghost use Rattle.frame.specs.Asked.{joints_in, frame_asked};
ghost use Rattle.degrees.specs.Counts.{Addable, Added, Countable, Counted, counted};

use frame::Frame;
use frame::asked::{AskedLists, Joints};
use frame::constraints::{Constraints, Lent};

// Whether one of these endpoints of a live constraint is a dynamic body: then it has an island.
#[inline(always)]
fn touches(types: &[u8], ends: &[u16]) -> bool
    requires { all (λ b. ltb b (length types.now)) ends.now ≡ true }
    ensures { result ≡ touches (frame_of types.now [] [] []) (record { ends = ends.now; live = true }) }
{
    let mut touched = false;
    // `touched` tells whether one of the endpoints passed is a dynamic body.
    for end in ends {
        touched = touched | (types[usize::from(*end)] == Frame::DYNAMIC);
    }
    touched
}

// Each of these endpoints counts this amount.
#[inline(always)]
fn count_ends(ends: &[u16], amount: u16, counts: &mut [u16])
    requires { Addable amount ends.now counts.old }
    ensures { Added amount ends.now counts.old counts.new }
{
    // The endpoints passed have counted.
    for end in ends {
        counts[usize::from(*end)] += amount;
    }
}

// A live constraint that has an island counts for each of its bodies. Only liveness is a branch: which types meet can't be guessed.
#[inline(always)]
fn count_one(types: &[u8], constraint: Lent<'_>, counts: &mut [u16])
    requires { Countable types.now (lent constraint ∷ []) counts.old }
    ensures { Counted types.now (lent constraint.entry ∷ []) counts.old counts.new }
{
    if constraint.live {
        let one = u16::from(touches(types, constraint.ends));
        count_ends(constraint.ends, one, counts);
    }
}

// Every constraint; those that are not live are not counted.
fn count_each<'a, C: Constraints<'a>>(types: &[u8], constraints: C, counts: &mut [u16])
    requires { Countable types.now (C.left constraints) counts.old }
    ensures { Counted types.now (C.left constraints) counts.old counts.new }
{
    // Each body's count has grown by the constraints that count for it among those before the ones left.
    for constraint in constraints {
        count_one(types, constraint, counts);
    }
}

// The joints, whichever way they are lent.
fn count_joints(types: &[u8], joints: Joints<'_>, counts: &mut [u16])
    requires { Countable types.now (joints_in joints) counts.old }
    ensures { Counted types.now (joints_in joints.entry) counts.old counts.new }
{
    match joints {
        Joints::Paired(pairs) => count_each(types, pairs, counts),
        Joints::WithCounts(counted) => count_each(types, counted, counts),
    }
}

// What a body counts for.
fn degree_of(body_type: u8, count: u16) -> u16
    ensures { result ≡ counted body_type count }
{
    if frame::conflicts(body_type) {
        count
    } else {
        0
    }
}

// The most that a body counts for.
fn largest(types: &[u8], counts: &[u16]) -> usize
    requires { length counts.now ≡ length types.now }
    ensures { result ≡ max_of (λ b. counted (get_or types.now b 0) (get_or counts.now b 0)) (range (length types.now)) }
{
    let mut most: u16 = 0;
    // `most` is the largest of the bodies passed.
    for (&body_type, &count) in types.iter().zip(counts) {
        most = most.max(degree_of(body_type, count));
    }
    usize::from(most)
}

// D of a frame that passed question 7. The table `on_bodies` is free.
pub fn degree(lists: AskedLists<'_>, on_bodies: &mut [u16]) -> usize
    requires { (length on_bodies.old ≡ length lists.types.now) × (all_sound (frame_asked lists) ≡ true) × (length (constraints (frame_asked lists)) ≤ 8192) }
    ensures { result ≡ degree_max (frame_asked lists.entry) }
{
    on_bodies.fill(0);
    count_each(lists.types, lists.manifolds, on_bodies);
    count_joints(lists.types, lists.joints, on_bodies);
    largest(lists.types, on_bodies)
}
