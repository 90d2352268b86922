// Gathering, internal: the stage of an update that lists the bodies of each group. A body that is met in a group gets the group's stamp, its
// color plus 1, so that it is listed once.
#![tactic(auto)]

ghost use Rattle.std.specs.Prelude.{◌≡◌, [], ◌∷◌, ◌++◌, ◌-◌, ◌≤◌, ◌<◌, length, take, drop};
ghost use Rattle.lists.specs.Basics.{one, sorted};
ghost use Rattle.parts.specs.Parts.{parts_at};
ghost use Rattle.parts.specs.MemberEnds.{ends_of};
ghost use Rattle.gathering.specs.Gathers.{stamped, Stampable, Counted, Gatherable, Gathered};

use parts::{Ends, Grouped, Members};

// The bodies of a group with a constraint for every 64 bodies or more are collected from the stamps; those of a smaller one are noted as
// they come, and sorted.
const BODIES_PER_CONSTRAINT: usize = 64;

// A body gets the stamp; answers whether it had another.
fn stamp_body(body: u16, stamp: u16, body_stamps: &mut [u16]) -> bool
    requires { body < length body_stamps.old }
    ensures { Counted stamp (body ∷ []) 0 body_stamps.old body_stamps.new (one result) }
{
    let place = usize::from(body);
    let fresh = body_stamps[place] != stamp;
    body_stamps[place] = stamp;
    fresh
}

// The same for the bodies of a constraint; answers how many had another stamp. There is no branch to guess wrong.
fn stamp_part(bodies: &[u16], stamp: u16, body_stamps: &mut [u16]) -> usize
    requires { Stampable bodies.now body_stamps.old }
    ensures { Counted stamp bodies.now 0 body_stamps.old body_stamps.new result }
{
    let mut count = 0;
    // The bodies passed have the stamp; `count` of them had another.
    for &body in bodies {
        count += usize::from(stamp_body(body, stamp, body_stamps));
    }
    count
}

// The bodies of a group's constraints; answers how many they are.
#[inline(always)]
fn stamp_members(members: Members<'_>, stamp: u16, body_stamps: &mut [u16]) -> usize
    requires stampable { Stampable (ends_of members) body_stamps.old }
    ensures { Counted stamp (ends_of members.entry) 0 body_stamps.old body_stamps.new result }
{
    let mut count = 0;
    // The bodies of the members passed have the stamp; `count` of them had another.
    for &member in members.numbers {
        let bodies = members.ends.part(usize::from(member));
        count += stamp_part(bodies, stamp, body_stamps);
    }
    count
}

// The stamped bodies in rising order, into a part of just their number.
fn collect(body_stamps: &[u16], stamp: u16, part: &mut [u16])
    requires { (length body_stamps.now ≤ 4096) × (length part.old ≡ length (stamped stamp body_stamps.now)) }
    ensures { part.new ≡ stamped stamp body_stamps.now }
{
    let mut body = 0;
    let mut at = 0;
    // The first `at` places hold the stamped bodies below `body`.
    while at < part.len() {
        part[at] = body as u16;
        at += usize::from(body_stamps[body] == stamp);
        body += 1;
    }
}

// What the listing of the groups' bodies writes: the stamps, and the bodies up to place `end`. The scratch is free.
#[derive(Drop)]
struct Gatherer<'a> {
    body_stamps: &'a mut [u16],
    color_bodies: &'a mut [u16],
    scratch_offsets: &'a mut [u16],
    end: usize,
    ghost few: { length body_stamps.now ≤ 4096 },
    ghost room: { length body_stamps.now ≤ length scratch_offsets.now },
}

// The stamped bodies, into the places from `start` to `end`. The stamps are kept; they are lent as they stand beside the bodies.
fn collect_part(
    body_stamps: &mut [u16],
    stamp: u16,
    color_bodies: &mut [u16],
    start: usize,
    end: usize,
)
    requires inside { (start ≤ end) × (end ≤ length color_bodies.old) }
    requires few { (length body_stamps.old ≤ 4096) × (length (take (end - start) (drop start color_bodies.old)) ≡ length (stamped stamp body_stamps.old)) }
    ensures kept { body_stamps.new ≡ body_stamps.old }
    ensures collected { color_bodies.new ≡ take start color_bodies.old ++ (stamped stamp body_stamps.old ++ drop (end - start) (drop start color_bodies.old)) }
{
    collect(body_stamps, stamp, &mut color_bodies[start..end]);
}

// The places from `start` to `end` in rising order.
fn sort_part(color_bodies: &mut [u16], scratch_offsets: &mut [u16], start: usize, end: usize)
    requires inside { (start ≤ end) × (end ≤ length color_bodies.old) }
    requires room { length (take (end - start) (drop start color_bodies.old)) ≤ length scratch_offsets.old }
    ensures { color_bodies.new ≡ take start color_bodies.old ++ (sorted (take (end - start) (drop start color_bodies.old)) ++ drop (end - start) (drop start color_bodies.old)) }
{
    ordering::sort(&mut color_bodies[start..end], scratch_offsets);
}

impl<'a> Gatherer<'a> {
    ghost use Rattle.gathering.specs.Gatherers.{NotableIn, NotedIn, FreshIn, ListedIn, SameGatherer};

    // A body with another stamp gets this one and is appended.
    fn note(&mut self, body: u16, stamp: u16)
        requires { (body < length self.old.body_stamps.now) × (self.old.end < length self.old.color_bodies.now) }
        ensures noted { NotedIn stamp (body ∷ []) self.old self.new }
        ensures same { SameGatherer self.old self.new }
    {
        if !stamp_body(body, stamp, self.body_stamps) {
            return;
        }
        self.color_bodies[self.end] = body;
        self.end += 1;
    }

    // The bodies of a constraint, as they come.
    fn note_part(&mut self, bodies: &[u16], stamp: u16)
        requires { NotableIn bodies.now self.old }
        ensures noted { NotedIn stamp bodies.now self.old self.new }
        ensures same { SameGatherer self.old self.new }
    {
        // The bodies passed are noted.
        for &body in bodies {
            self.note(body, stamp);
        }
    }

    // The bodies of a group's constraints, as they come.
    #[inline(always)]
    fn note_members(&mut self, members: Members<'_>, stamp: u16)
        requires { NotableIn (ends_of members) self.old }
        ensures noted { NotedIn stamp (ends_of members.entry) self.old self.new }
        ensures same { SameGatherer self.old self.new }
    {
        // The bodies of the members passed are noted.
        for &member in members.numbers {
            let bodies = members.ends.part(usize::from(member));
            self.note_part(bodies, stamp);
        }
    }

    // The bodies of a group with many constraints.
    #[inline(always)]
    fn list_many(&mut self, members: Members<'_>, stamp: u16)
        requires { FreshIn (ends_of members) stamp self.old }
        ensures listed { ListedIn (ends_of members.entry) stamp self.old self.new }
        ensures same { SameGatherer self.old self.new }
    {
        let start = self.end;
        let end = start + stamp_members(members, stamp, self.body_stamps);
        collect_part(self.body_stamps, stamp, self.color_bodies, start, end);
        self.end = end;
    }

    // The bodies of a group with few constraints.
    #[inline(always)]
    fn list_few(&mut self, members: Members<'_>, stamp: u16)
        requires { FreshIn (ends_of members) stamp self.old }
        ensures listed { ListedIn (ends_of members.entry) stamp self.old self.new }
        ensures same { SameGatherer self.old self.new }
    {
        let start = self.end;
        self.note_members(members, stamp);
        sort_part(self.color_bodies, self.scratch_offsets, start, self.end);
    }

    // The bodies of any group.
    #[inline(always)]
    fn list_bodies(&mut self, members: Members<'_>, stamp: u16)
        requires { FreshIn (ends_of members) stamp self.old }
        ensures listed { ListedIn (ends_of members.entry) stamp self.old self.new }
        ensures same { SameGatherer self.old self.new }
    {
        if members.numbers.len() >= self.body_stamps.len() / BODIES_PER_CONSTRAINT {
            self.list_many(members, stamp);
        } else {
            self.list_few(members, stamp);
        }
    }
}

// The bodies of all groups, group after group, and the start of each, with the end. Stamps and scratch are free afterwards.
#[inline(always)]
pub fn gather(
    ends: Ends<'_>,
    constraint_colors: &[u16],
    color_count: usize,
    colored_constraints: Grouped<'_>,
    body_stamps: &mut [u16],
    scratch_offsets: &mut [u16],
    color_body_offsets: &mut [u16],
    color_bodies: &mut [u16],
)
    requires counted { length constraint_colors.now ≡ ends.count }
    requires gatherable { Gatherable (length body_stamps.old) (parts_at (length constraint_colors.now) ends.bounds.now ends.endpoints.now) constraint_colors.now color_count colored_constraints.offsets.now colored_constraints.table.now body_stamps.old scratch_offsets.old color_body_offsets.old color_bodies.old }
    ensures { Gathered (length body_stamps.old) (parts_at (length constraint_colors.now) ends.entry.bounds.now ends.entry.endpoints.now) constraint_colors.now color_count color_body_offsets.new color_bodies.old color_bodies.new }
{
    color_body_offsets[0] = 0;
    let mut listing = Gatherer {
        body_stamps,
        color_bodies,
        scratch_offsets,
        end: 0,
    };
    // The bodies of the groups below `color` are listed, and no stamp is above `color`.
    for color in 0..color_count {
        let numbers = colored_constraints.group(color);
        let members = Members { ends, numbers };
        let stamp = (color + 1) as u16;
        listing.list_bodies(members, stamp);
        color_body_offsets[color + 1] = listing.end as u16;
    }
}
