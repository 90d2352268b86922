// An island whose groups are run, with the tables that its lookups read.
ghost use Rattle.std.specs.Prelude.{◌≡◌};
ghost use Rattle.colored_bodies.specs.Bindings.{Known};
ghost use Rattle.group_run.specs.Appends.{Countable};

use constraint_coloring::ConstraintColoring;
use parts::Grouped;

// An island whose groups are run: the numbers of its constraints by rank, the types of the frame's bodies, and its plan with the counts
// that it carries, the bounds that these make, and the tables that its lookups read: the members and the bodies of its groups, and positions. Without counts its constraints are pairs.
#[derive(Clone, Copy)]
pub struct PlannedIsland<'a> {
    pub island: u16,
    pub numbers: &'a [u16],
    pub types: &'a [u8],
    pub plan: ConstraintColoring,
    pub counts: &'a [u8],
    pub bounds: &'a [u16],
    pub members: Grouped<'a>,
    pub bodies: Grouped<'a>,
    pub positions: &'a [u16],
    ghost countable: { Countable plan counts.now bounds.now positions.now },
    ghost known: { Known types.now },
}

impl<'a> PlannedIsland<'a> {
    ghost use Rattle.schedules.specs.Runs.{members_in, bodies_in};
    ghost use Rattle.group_run.specs.Views.{plan_in};

    // The bodies of a group, and the ranks of its members; none past the groups.
    pub(crate) fn bodies_of(self, group: usize) -> &'a [u16]
        ensures { result.now ≡ bodies_in (plan_in self.entry) group }
    {
        self.plan
            .bodies_in_schedule_group(self.bodies.offsets, self.bodies.table, group)
    }

    pub(crate) fn members_of(self, group: usize) -> &'a [u16]
        ensures { result.now ≡ members_in (plan_in self.entry) group }
    {
        self.plan
            .constraints_in_schedule_group(self.members.offsets, self.members.table, group)
    }
}
