// The constraints of a frame are asked question 7 and joined, one after another. Internal: a stage of an islands call.
#![tactic(auto)]

ghost use Rattle.std.specs.Prelude.{ℕ, ◌≡◌, true, cond, ◌∷◌, [], ◌<◌, ltb, length, get_or, MatchOption};
ghost use Rattle.lists.specs.Basics.{all, mem};
ghost use Rattle.frame.specs.Constraints.{lent};
ghost use Rattle.frame.specs.Asked.{joints_in, frame_asked};
ghost use Rattle.frame.specs.Frames.{constraint, constraints, none};
ghost use Rattle.connected_sets.specs.Islands.{edges_of, hang_all};
ghost use Rattle.island_sets.specs.Sets.{root_of};
ghost use Rattle.island_sets.specs.Kept.{Kept};
ghost use Rattle.island_labels.specs.Labels.{bare};
ghost use Rattle.island_joins.specs.Joins.{Fit, dynamics, FirstDynamic, Joined, JoinedOrRefused};

use frame::Frame;
use frame::asked::{AskedLists, Joints};
use frame::constraints::{Constraints, Lent, sound_one};
use island_sets::BodySets;

// The types of two dynamic bodies, 2 and 2, as the two bytes of one number.
const BOTH_DYNAMIC: usize = 514;

// Two bodies are joined if both are dynamic. Their types are tested as one number: one branch to guess, not two. Its code stands in the
// loops that call it, so that no pair costs a call.
#[inline(always)]
fn join_dynamic(body_types: &[u8], sets: &mut BodySets<'_>, a: u16, b: u16)
    requires { (length sets.old.parents.now ≡ length body_types.now) × (a < length body_types.now) × (b < length body_types.now) }
    ensures { Kept sets.old sets.new
        × (root_of sets.new.parents.now ≡ hang_all (length body_types.now) (root_of sets.old.parents.now) (edges_of (bare body_types.now) (constraint true a b))) }
{
    let type_a = usize::from(body_types[usize::from(a)]);
    let type_b = usize::from(body_types[usize::from(b)]);
    let types = type_a * 256 + type_b;
    if types != BOTH_DYNAMIC {
        return;
    }
    sets.union(a, b);
}

// The first dynamic body of a list, and the bodies behind it.
fn first_dynamic<'a>(body_types: &[u8], ends: &'a [u16]) -> Option<(u16, &'a [u16])>
    requires { all (λ b. ltb b (length body_types.now)) ends.now ≡ true }
    ensures { MatchOption result (dynamics body_types.now ends.entry.now ≡ []) (λ r. FirstDynamic body_types.now ends.entry.now r.0 r.1.now) }
{
    // The bodies before `place` are not dynamic.
    for (place, body) in ends.iter().enumerate() {
        if body_types[usize::from(*body)] == Frame::DYNAMIC {
            let (_, others) = ends.split_at(place + 1);
            return Some((*body, others));
        }
    }
    None
}

// The first dynamic body of a list is joined with each later dynamic one.
#[inline(always)]
fn join_dynamics(body_types: &[u8], sets: &mut BodySets<'_>, ends: &[u16])
    requires { (length sets.old.parents.now ≡ length body_types.now)
        × (all (λ b. ltb b (length body_types.now)) ends.now ≡ true) }
    ensures { Kept sets.old sets.new
        × (root_of sets.new.parents.now ≡ hang_all (length body_types.now) (root_of sets.old.parents.now)
        (edges_of (bare body_types.now) (record { ends = ends.now; live = true }))) }
{
    if let Some((first, others)) = first_dynamic(body_types, ends) {
        // The first dynamic body is joined with the dynamic ones among those passed.
        for other in others {
            join_dynamic(body_types, sets, first, *other);
        }
    }
}

// The dynamic bodies of a live constraint are joined, and all its bodies constrained. Most constraints are pairs: their two bodies need no
// search, and are read before anything is written, so that they are not read again. A constrained body has label 0 where the numbering will put
// its island's.
#[inline(always)]
fn join_live(body_types: &[u8], ends: &[u16], sets: &mut BodySets<'_>, body_islands: &mut [u16])
    requires { Fit body_types.now sets.old body_islands.old × (all (λ b. ltb b (length body_types.now)) ends.now ≡ true) }
    ensures { Kept sets.old sets.new
        × Joined body_types.now (record { ends = ends.now; live = true } ∷ []) sets.old.parents.now body_islands.old sets.new.parents.now body_islands.new }
{
    match ends {
        [a, b] => {
            let pair = [*a, *b];
            join_dynamic(body_types, sets, pair[0], pair[1]);
            tables::clear_each(&pair, body_islands);
        }
        ends => {
            join_dynamics(body_types, sets, ends);
            tables::clear_each(ends, body_islands);
        }
    }
}

// One constraint is asked question 7; if it is live and passes, it joins its bodies and constrains them.
#[inline(always)]
fn join_one(
    body_types: &[u8],
    constraint: Lent<'_>,
    sets: &mut BodySets<'_>,
    body_islands: &mut [u16],
) -> bool
    requires { Fit body_types.now sets.old body_islands.old }
    ensures { JoinedOrRefused body_types.now (lent constraint.entry ∷ []) sets.old body_islands.old sets.new body_islands.new result }
{
    if !sound_one(body_types.len(), constraint) {
        return false;
    }
    if !constraint.live {
        return true;
    }
    join_live(body_types, constraint.ends, sets, body_islands);
    true
}

// Every constraint, up to the first that does not pass question 7. Its code stands where the sets are made, as that of all that it calls does, so
// that the addresses of their tables stay in registers.
#[inline(always)]
#[tactic(auto, using(crate::proofs::Joining::joining_starts, crate::proofs::Joining::joining_turns))]
fn join_each<'a, C: Constraints<'a>>(
    body_types: &[u8],
    constraints: C,
    sets: &mut BodySets<'_>,
    body_islands: &mut [u16],
) -> bool
    requires { Fit body_types.now sets.old body_islands.old }
    ensures { JoinedOrRefused body_types.now (C.left constraints)
        sets.old body_islands.old sets.new body_islands.new result }
{
    // The constraints before those left passed question 7 and are joined.
    for constraint in constraints {
        if !join_one(body_types, constraint, sets, body_islands) {
            return false;
        }
    }
    true
}

// The joints of a frame, whichever way they are lent.
fn join_joints(
    body_types: &[u8],
    joints: Joints<'_>,
    sets: &mut BodySets<'_>,
    body_islands: &mut [u16],
) -> bool
    requires { Fit body_types.now sets.old body_islands.old }
    ensures { JoinedOrRefused body_types.now (joints_in joints.entry)
        sets.old body_islands.old sets.new body_islands.new result }
{
    match joints {
        Joints::Paired(pairs) => join_each(body_types, pairs, sets, body_islands),
        Joints::WithCounts(counted) => join_each(body_types, counted, sets, body_islands),
    }
}

// Every constraint of a frame.
pub fn join_frame(lists: AskedLists<'_>, sets: &mut BodySets<'_>, body_islands: &mut [u16]) -> bool
    requires { Fit lists.types.now sets.old body_islands.old }
    ensures joined { JoinedOrRefused lists.entry.types.now (constraints (frame_asked lists.entry))
        sets.old body_islands.old sets.new body_islands.new result }
    ensures same { Kept sets.old sets.new }
{
    if !join_each(lists.types, lists.manifolds, sets, body_islands) {
        return false;
    }
    join_joints(lists.types, lists.joints, sets, body_islands)
}
