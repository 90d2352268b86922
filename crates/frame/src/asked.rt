// The lists of a frame whose lengths were asked (question 4): its constraints can be given one after another.
ghost use Rattle.std.specs.Prelude.{◌≡◌, ◌≤◌, length};
ghost use Rattle.frame.specs.Frames.{end_count};
ghost use Rattle.frame.specs.Lists.{frame_in};
ghost use Rattle.frame.specs.Asked.{joints_in, frame_asked};

use crate::Lists;
use crate::constraints::{Counted, Pairs};

// Joints, by the way they are lent. It is told once for all of them, so that a loop over pairs does not ask it at each.
#[derive(Clone, Copy)]
pub enum Joints<'a> {
    Paired(Pairs<'a>),
    WithCounts(Counted<'a>),
}

// The types of the bodies, and the constraints.
#[derive(Clone, Copy)]
pub struct AskedLists<'a> {
    pub types: &'a [u8],
    pub manifolds: Pairs<'a>,
    pub joints: Joints<'a>,
}

impl<'a> Lists<'a> {
    // The joints: pairs where there are no counts.
    fn joints(self) -> Joints<'a>
        requires { end_count self.joint_counts.now ≤ length self.joint_ends.now }
        ensures { joints_in result ≡ (frame_in self.entry).joints }
    {
        if self.joint_counts.is_empty() {
            let pairs = Pairs {
                pairs: self.joint_ends,
                enabled: self.enabled,
            };
            return Joints::Paired(pairs);
        }
        let counted = Counted {
            ends: self.joint_ends,
            counts: self.joint_counts,
            enabled: self.enabled,
        };
        Joints::WithCounts(counted)
    }

    // The lists of a frame that has as many joint endpoints as its counts make.
    pub fn asked(self) -> AskedLists<'a>
        requires { end_count self.joint_counts.now ≤ length self.joint_ends.now }
        ensures { (result.types.now ≡ self.entry.types.now) × (result.manifolds.pairs.now ≡ self.entry.manifolds.now) × (frame_asked result ≡ frame_in self.entry) }
    {
        let manifolds = Pairs {
            pairs: self.manifolds,
            enabled: &[],
        };
        AskedLists {
            types: self.types,
            manifolds,
            joints: self.joints(),
        }
    }
}
