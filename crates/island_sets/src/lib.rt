// Sets of bodies by union-find (Tarjan 1975): each body links to a parent, and following the links ends at the root of its set.
// Internal: what an islands call joins its bodies with. A lookup compresses its way, and a union hangs the smaller set under the larger, so
// that 2 to the number of links on a way is at most the number of bodies in the set: never more than 12 links among 4,096 bodies.
#![tactic(auto)]

ghost use Rattle.std.specs.Prelude.{◌≡◌, ◌+◌, ◌<◌, ◌≤◌, length, get_or, set, replicate};
ghost use Rattle.lists.specs.Basics.{range};
ghost use Rattle.island_sets.specs.Sets.{root_of, winner_of, hang};
ghost use Rattle.island_sets.specs.Steps.{Sets, Balanced, LookedUp, Shortened};

// Of fewer bodies than this, two sets are joined without a branch on their sizes.
const FEW: u16 = 32;

// A set's root, and how many links a lookup followed to it.
#[derive(Clone, Copy, Debug, PartialEq, Eq)]
pub struct Found {
    pub root: u16,
    pub links: u16,
}

// Sets of bodies: the parent of each body, and at each root how many bodies its set has.
#[derive(Drop)]
pub struct BodySets<'a> {
    pub parents: &'a mut [u16],
    pub sizes: &'a mut [u16],
    ghost sets: { Sets parents.now sizes.now },
}

// Where the links of `body` end, and how many there are. The first link is followed without a branch: most ways have none or one.
pub fn root_of(parents: &[u16], body: usize) -> Found
    requires { Balanced parents.now × (body < length parents.now) }
    ensures { LookedUp parents.now body result }
{
    let mut root = usize::from(parents[body]);
    let mut links = u16::from(root != body);
    // `root` is `links` links on from `body`.
    loop {
        let parent = usize::from(parents[root]);
        if parent == root {
            break;
        }
        root = parent;
        links += 1;
    }
    Found {
        root: root as u16,
        links,
    }
}

// Every body on the way from `start` to its root is linked to that root: `start` without a branch, as it is linked already if it has
// no more than one link.
fn compress(parents: &mut [u16], start: u16, root: u16)
    requires { Balanced parents.old × (start < length parents.old) × (root ≡ root_of parents.old start) }
    ensures { Shortened parents.old parents.new }
{
    let mut body = parents[usize::from(start)];
    parents[usize::from(start)] = root;
    // Every body has the root that it had; those on the way before `body` are linked to it.
    while body != root {
        let parent = parents[usize::from(body)];
        parents[usize::from(body)] = root;
        body = parent;
    }
}

// The root of `body` and the links that led to it, with the way now compressed.
fn find(parents: &mut [u16], body: u16) -> Found
    requires { Balanced parents.old × (body < length parents.old) }
    ensures { LookedUp parents.old body result × Shortened parents.old parents.new }
{
    let found = root_of(parents, usize::from(body));
    compress(parents, body, found.root);
    found
}

// Which of two roots stays one: that of the larger set, and on equal sizes the lower.
fn winner(size_left: u16, size_right: u16, left: u16, right: u16) -> u16
    ensures { result ≡ winner_of size_left size_right left right }
{
    if size_left < size_right {
        return right;
    }
    if size_right < size_left {
        return left;
    }
    left.min(right)
}

// The same without a branch: `join_roots` says where each is the faster.
fn pick_winner(size_left: u16, size_right: u16, left: u16, right: u16) -> u16
    ensures { result ≡ winner_of size_left size_right left right }
{
    let lower = tables::pick(left < right, left, right);
    let not_right = tables::pick(size_right < size_left, left, lower);
    tables::pick(size_left < size_right, right, not_right)
}

// One root is linked to another, whose set grows; the size of the one stays as it was.
fn link_under(parents: &mut [u16], sizes: &mut [u16], top: u16, under: u16)
    requires { (top < length sizes.old) × (under < length sizes.old) × (under < length parents.old) × (get_or sizes.old top 0 + get_or sizes.old under 0 < 65536) }
    ensures { (parents.new ≡ set parents.old under top)
        × (sizes.new ≡ set sizes.old top (get_or sizes.old top 0 + get_or sizes.old under 0)) }
{
    parents[usize::from(under)] = top;
    sizes[usize::from(top)] += sizes[usize::from(under)];
}

// The sets of two different roots become one. Of few bodies either side may be the larger, and a wrong guess would cost more than the choice;
// in long chains and stars the same side stays, so that a branch is guessed right, and without one each union would wait for the sizes of
// the one before.
fn join_roots(parents: &mut [u16], sizes: &mut [u16], left: u16, right: u16)
    requires { Sets parents.old sizes.old × (left < length parents.old) × (right < length parents.old)
        × (root_of parents.old left ≡ left) × (root_of parents.old right ≡ right) × (left ≡ right → ⊥) }
    ensures { Sets parents.new sizes.new
        × (root_of parents.new ≡ hang (length parents.old) (root_of parents.old) left right) }
{
    let size_left = sizes[usize::from(left)];
    let size_right = sizes[usize::from(right)];
    if size_left + size_right < FEW {
        let top = pick_winner(size_left, size_right, left, right);
        link_under(parents, sizes, top, left + right - top);
        return;
    }
    if winner(size_left, size_right, left, right) == left {
        link_under(parents, sizes, left, right);
        return;
    }
    link_under(parents, sizes, right, left);
}

// Every body alone: its own parent, and of size 1.
pub fn reset(parents: &mut [u16], sizes: &mut [u16])
    requires { length parents.old ≤ 4096 }
    ensures { (parents.new ≡ range (length parents.old)) × (sizes.new ≡ replicate (length sizes.old) 1) }
{
    tables::number_all(parents);
    sizes.fill(1);
}

impl BodySets<'_> {
    ghost use Rattle.island_sets.specs.Kept.{Kept, Alone};

    // The parents, in which roots are looked up.
    #[inline(always)]
    pub fn parents(&self) -> &[u16]
        ensures { (result.now ≡ self.now.parents.now) × Balanced result.now }
    {
        self.parents
    }

    // Every body alone again.
    #[inline(always)]
    pub fn reset(&mut self)
        ensures alone { Alone (length self.old.parents.now) self.new }
        ensures same { Kept self.old self.new }
    {
        reset(self.parents, self.sizes);
    }

    // The sets of `left` and `right` become one: the smaller hangs under the larger, and on equal sizes the lower root stays. A set joined
    // with itself stays as it is. Its code stands where it is called, so that no pair of bodies costs a call.
    #[inline(always)]
    pub fn union(&mut self, left: u16, right: u16)
        requires { (left < length self.old.parents.now) × (right < length self.old.parents.now) }
        ensures { Kept self.old self.new
            × (root_of self.new.parents.now ≡ hang (length self.old.parents.now) (root_of self.old.parents.now) left right) }
    {
        let found_left = find(self.parents, left);
        let found_right = find(self.parents, right);
        let root_left = found_left.root;
        let root_right = found_right.root;
        if root_left == root_right {
            return;
        }
        join_roots(self.parents, self.sizes, root_left, root_right);
    }
}
