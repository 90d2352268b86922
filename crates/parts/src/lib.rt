// Internal: the endpoints of a constraint are a part of the endpoint list, and a group is a part of its table. The stages of an update
// read both here, so that they need not know how many endpoints a constraint has.
#![tactic(auto)]

ghost use Rattle.std.specs.Prelude.{◌+◌, ◌*◌, ◌≤◌, ◌<◌, ◌≡◌, true, ltb, length};
ghost use Rattle.lists.specs.Basics.{all, sum_of};
ghost use Rattle.parts.specs.Parts.{cut, Cut, Present, Bounded, part_at};
ghost use Rattle.parts.specs.Steps.{start_at, Ordered, widest, BoundsOf};

// The part of a table from the bound at place `from` up to that at place `to`.
pub fn between<'a>(table: &'a [u16], bounds: &[u16], from: usize, to: usize) -> &'a [u16]
    requires { Cut table.now bounds.now from to }
    ensures { result.now ≡ cut table.now bounds.now from to }
{
    let start = usize::from(bounds[from]);
    let end = usize::from(bounds[to]);
    &table[start..end]
}

// The endpoints of so many constraints one after another, and the bounds between which each has its own; without bounds they are pairs.
#[derive(Clone, Copy)]
pub struct Ends<'a> {
    pub endpoints: &'a [u16],
    pub bounds: &'a [u16],
    pub count: usize,
    ghost bounded: { Bounded count bounds.now endpoints.now },
}

impl<'a> Ends<'a> {
    // The endpoints of a constraint.
    #[inline(always)]
    pub fn part(self, constraint: usize) -> &'a [u16]
        requires { constraint < self.count }
        ensures { result.now ≡ part_at self.entry.bounds.now self.entry.endpoints.now constraint }
    {
        part(self.endpoints, self.bounds, constraint)
    }

    // Where the endpoints of a constraint start; its positions start there too.
    #[inline(always)]
    pub fn start(self, constraint: usize) -> usize
        requires { (constraint ≤ 32767) × ((length self.bounds.now ≡ 0 → ⊥) → 2 * constraint < length self.bounds.now) }
        ensures { result ≡ start_at self.entry.bounds.now constraint }
    {
        if self.bounds.len() == 0 {
            return 2 * constraint;
        }
        usize::from(self.bounds[2 * constraint])
    }
}

// Constraints of the list by their numbers, as those of a group.
#[derive(Clone, Copy)]
pub struct Members<'a> {
    pub ends: Ends<'a>,
    pub numbers: &'a [u16],
    ghost inside: { all (λ r. ltb r ends.count) numbers.now ≡ true },
}

// The part of a constraint in a table that is read by these bounds: a pair if there are none, else what stands between its two.
pub fn part<'a>(table: &'a [u16], bounds: &[u16], constraint: usize) -> &'a [u16]
    requires { Present table.now bounds.now constraint }
    ensures { result.now ≡ part_at bounds.now table.now constraint }
{
    if bounds.len() == 0 {
        return &table[2 * constraint..2 * constraint + 2];
    }
    between(table, bounds, 2 * constraint, 2 * constraint + 1)
}

// Tables that list group after group: what stands in the groups, and where each group starts, with the end.
#[derive(Clone, Copy)]
pub struct Grouped<'a> {
    pub table: &'a [u16],
    pub offsets: &'a [u16],
}

impl<'a> Grouped<'a> {
    // What stands in a group.
    #[inline(always)]
    pub fn group(self, number: usize) -> &'a [u16]
        requires { Cut self.table.now self.offsets.now number (number + 1) }
        ensures { result.now ≡ cut self.entry.table.now self.entry.offsets.now number (number + 1) }
    {
        between(self.table, self.offsets, number, number + 1)
    }
}

// The size of the largest part that lies between two bounds next to each other.
pub fn largest_part(bounds: &[u16]) -> usize
    requires { Ordered bounds.now }
    ensures { result ≡ widest bounds.now }
{
    let mut largest: u16 = 0;
    // `largest` is the size of the largest part passed.
    for pair in bounds.windows(2) {
        largest = largest.max(pair[1] - pair[0]);
    }
    usize::from(largest)
}

// The bounds of constraints with these counts: each starts where the one before it ends.
pub fn bound_counts(counts: &[u8], bounds: &mut [u16])
    requires { (length bounds.old ≡ 2 * length counts.now) × (length counts.now ≤ 8192) × (sum_of (λ c. c) counts.now ≤ 32768) }
    ensures { BoundsOf counts.now bounds.new }
{
    let mut end: u16 = 0;
    // The constraints passed have their bounds, and `end` is how many endpoints they have.
    for (constraint, &count) in counts.iter().enumerate() {
        bounds[2 * constraint] = end;
        end += u16::from(count);
        bounds[2 * constraint + 1] = end;
    }
}
