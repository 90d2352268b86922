// The labels of bodies and constraints, once the constraints are joined. Internal: stages of an islands call.
#![tactic(auto)]

ghost use Rattle.std.specs.Prelude.{◌≡◌, true, cond, map, ◌<◌, ◌≤◌, length};
ghost use Rattle.lists.specs.Basics.{all};
ghost use Rattle.frame.specs.Constraints.{lent};
ghost use Rattle.frame.specs.Asked.{joints_in};
ghost use Rattle.frame.specs.Frames.{sound};
ghost use Rattle.island_sets.specs.Steps.{Balanced};
ghost use Rattle.island_labels.specs.Labels.{in_island_by, Numberable, Flagged, Stepped, NumberedByLowest, label_by};

use frame::Frame;
use frame::asked::Joints;
use frame::constraints::{Constraints, Lent};

// The label of what has no island.
pub const NONE: u16 = Frame::NONE;

// The label of a body that is in an island and has no number yet.
const UNNUMBERED: u16 = 65534;

// The bodies in islands, dynamic and constrained, have no number yet; any other has none. A loop of wide compares.
fn flag_bodies(body_types: &[u8], body_islands: &mut [u16])
    requires { length body_islands.old ≡ length body_types.now }
    ensures { Flagged (in_island_by body_types.now body_islands.old) body_islands.new }
{
    // The bodies passed are flagged, and the others have the labels that they had.
    for (body, label) in body_islands.iter_mut().enumerate() {
        let in_island = (body_types[body] == Frame::DYNAMIC) & (*label != NONE);
        *label = tables::pick(in_island, UNNUMBERED, NONE);
    }
}

// A body gets the label of its root; where that has no number yet, the body is the lowest of its set, and both get the next number.
// Answers how many islands there are so far. There is no branch to guess wrong, and the root's label is written once, so that no body
// waits for the one before.
fn number_one(parents: &[u16], body_islands: &mut [u16], body: usize, count: u16) -> u16
    requires balanced { Balanced parents.now }
    requires inside { (length parents.now ≡ length body_islands.old) × (body < length parents.now) × (count ≤ 4096) }
    ensures { Stepped parents.now body_islands.old body count body_islands.new result }
{
    let found = island_sets::root_of(parents, body);
    let root = usize::from(found.root);
    let label = body_islands[root];
    let first = label == UNNUMBERED;
    let number = tables::pick(first, count, label);
    let place = tables::pick(first, root, body);
    body_islands[place] = number;
    body_islands[body] = number;
    count + u16::from(first)
}

// The bodies in islands get their island's number, in rising order of the islands' lowest bodies. Answers how many islands there are.
pub fn number(body_types: &[u8], parents: &[u16], body_islands: &mut [u16]) -> u16
    requires { Numberable body_types.now parents.now body_islands.old }
    ensures { NumberedByLowest body_types.now parents.now body_islands.old result body_islands.new }
{
    flag_bodies(body_types, body_islands);
    let mut islands: u16 = 0;
    // The bodies below `next` have their labels, and so have the roots of the sets whose lowest body is below `next`: `islands` sets.
    for next in 0..body_islands.len() {
        islands = number_one(parents, body_islands, next, islands);
    }
    islands
}

// The label of one constraint: none if it is not live, else the least of its bodies' labels. Its dynamic bodies all have the same, and any
// other body has none, above every label.
#[inline(always)]
fn label_one(body_islands: &[u16], constraint: Lent<'_>) -> u16
    requires { sound (length body_islands.now) (lent constraint) ≡ true }
    ensures { result ≡ label_by body_islands.now (lent constraint.entry) }
{
    if !constraint.live {
        return NONE;
    }
    let mut least = NONE;
    // `least` is the least of the labels of the bodies passed.
    for body in constraint.ends {
        least = least.min(body_islands[usize::from(*body)]);
    }
    least
}

// The label of each constraint.
pub fn label_each<'a, C: Constraints<'a>>(constraints: C, body_islands: &[u16], labels: &mut [u16])
    requires { (length labels.old ≡ length (C.left constraints))
        × (all (sound (length body_islands.now)) (C.left constraints) ≡ true) }
    ensures { labels.new ≡ map (label_by body_islands.now) (C.left constraints) }
{
    // The constraints passed have their labels.
    for (number, constraint) in constraints.enumerate() {
        labels[number] = label_one(body_islands, constraint);
    }
}

// The labels of a frame's joints, whichever way they are lent. A function of its own, so that the loop over pairs keeps its registers.
#[inline(never)]
pub fn label_joints(joints: Joints<'_>, body_islands: &[u16], labels: &mut [u16])
    requires { (length labels.old ≡ length (joints_in joints)) × (all (sound (length body_islands.now)) (joints_in joints) ≡ true) }
    ensures { labels.new ≡ map (label_by body_islands.now) (joints_in joints.entry) }
{
    match joints {
        Joints::Paired(pairs) => label_each(pairs, body_islands, labels),
        Joints::WithCounts(counted) => label_each(counted, body_islands, labels),
    }
}
