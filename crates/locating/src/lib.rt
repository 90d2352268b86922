// Locating, internal: the stage of an update that finds the positions of each constraint among its group's bodies.
#![tactic(auto)]

ghost use Rattle.std.specs.Prelude.{◌≡◌, true, map, ◌≤◌, ltb, length};
ghost use Rattle.lists.specs.Basics.{all, mem, place, rises};
ghost use Rattle.groups.specs.Groups.{positions, flatten};
ghost use Rattle.parts.specs.Parts.{parts_at};
ghost use Rattle.parts.specs.MemberEnds.{ends_of};
ghost use Rattle.locating.specs.Locates.{Locatable, Arranged, Findable, PlacesListed, PlacesKnown, MembersLocated};

use parts::{Ends, Grouped, Members};

// In a list of this many bodies or fewer a place is searched; of a longer one it is read from the table of places.
const FEW: usize = 4;

// The place of each body of a rising list, in a table by body; the places of other bodies stay as they are.
fn list_places(bodies: &[u16], places: &mut [u16])
    requires { (length bodies.now ≤ 4096) × (rises bodies.now ≡ true) × (all (λ b. ltb b (length places.old)) bodies.now ≡ true) }
    ensures { PlacesListed bodies.now places.new }
{
    // The bodies passed have their places.
    for (place, &body) in bodies.iter().enumerate() {
        places[usize::from(body)] = place as u16;
    }
}

// The place of a body among its group's: searched if they are few, else read from the table that has their places.
fn place_of(bodies: &[u16], places: &[u16], body: u16) -> u16
    requires { (length bodies.now ≤ 4096) × (rises bodies.now ≡ true) × (mem body bodies.now ≡ true) × PlacesKnown bodies.now places.now }
    ensures { result ≡ place body bodies.now }
{
    if bodies.len() <= FEW {
        return ordering::position(bodies, body) as u16;
    }
    places[usize::from(body)]
}

// The places of a constraint's bodies among its group's, in the order of its endpoints.
fn locate_part(part: &[u16], bodies: &[u16], places: &[u16], positions: &mut [u16])
    requires { (length positions.old ≡ length part.now) × Findable part.now bodies.now × PlacesKnown bodies.now places.now }
    ensures { positions.new ≡ map (λ b. place b bodies.now) part.now }
{
    // The positions of the bodies passed are found.
    for (i, &body) in part.iter().enumerate() {
        positions[i] = place_of(bodies, places, body);
    }
}

// The positions of a group's members: of many bodies the places are listed first.
#[inline(always)]
fn locate_members(
    members: Members<'_>,
    bodies: &[u16],
    places: &mut [u16],
    constraint_body_positions: &mut [u16],
)
    requires few { members.ends.count ≤ 8192 }
    requires arranged { Arranged members.ends.count members.ends.bounds.now members.ends.endpoints.now constraint_body_positions.old }
    requires findable { Findable (ends_of members) bodies.now × (all (λ b. ltb b (length places.old)) bodies.now ≡ true) }
    ensures { MembersLocated members.entry.ends.count members.entry.ends.bounds.now members.entry.ends.endpoints.now members.entry.numbers.now bodies.now constraint_body_positions.old constraint_body_positions.new }
{
    if FEW < bodies.len() {
        list_places(bodies, places);
    }
    // The members passed have their positions, and the others what they had.
    for &member in members.numbers {
        let constraint = usize::from(member);
        let part = members.ends.part(constraint);
        let start = members.ends.start(constraint);
        let end = start + part.len();
        locate_part(
            part,
            bodies,
            places,
            &mut constraint_body_positions[start..end],
        );
    }
}

// The positions of all constraints, group after group. Places are free.
#[inline(always)]
pub fn locate(
    body_count: usize,
    ends: Ends<'_>,
    constraint_colors: &[u16],
    color_count: usize,
    colored_constraints: Grouped<'_>,
    color_bodies: Grouped<'_>,
    places: &mut [u16],
    constraint_body_positions: &mut [u16],
)
    requires counted { length constraint_colors.now ≡ ends.count }
    requires arranged { Arranged (length constraint_colors.now) ends.bounds.now ends.endpoints.now constraint_body_positions.old }
    requires locatable { Locatable body_count (parts_at (length constraint_colors.now) ends.bounds.now ends.endpoints.now) constraint_colors.now color_count colored_constraints.offsets.now colored_constraints.table.now color_bodies.offsets.now color_bodies.table.now places.old }
    ensures { constraint_body_positions.new ≡ flatten (positions body_count (parts_at (length constraint_colors.now) ends.entry.bounds.now ends.entry.endpoints.now) constraint_colors.now) (length constraint_colors.now) }
{
    // The members of the groups below `color` have their positions.
    for color in 0..color_count {
        let numbers = colored_constraints.group(color);
        let members = Members { ends, numbers };
        let bodies = color_bodies.group(color);
        locate_members(members, bodies, places, constraint_body_positions);
    }
}
