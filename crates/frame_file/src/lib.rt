// Writing a frame in the file form, part by part and one behind another: the header, and a pair of endpoints. The caller has room.
// Internal: what `generate` writes with. The whole file is `file_of` in specs/Written; proofs/Whole says that the parts, each behind the
// one before, are the file, and proofs/Decoded that reading it gives the frame back.
#![tactic(auto)]

ghost use Rattle.std.specs.Prelude.{◌≡◌, true, ◌∷◌, [], ◌+◌, ◌≤◌, ◌<◌, length};
ghost use Rattle.frame.specs.Questions.{few_each};
ghost use Rattle.frame_file.specs.Written.{half_bytes, word_bytes, file_length, header_bytes, pair_bytes};
ghost use Rattle.writer.specs.Wrote.{Wrote};

use frame::{HEADER, JOINT, PAIR};
use writer::Writer;

// How many bodies, manifolds and joints a frame has.
#[derive(Clone, Copy, Debug, PartialEq, Eq)]
pub struct Sizes {
    pub bodies: usize,
    pub manifolds: usize,
    pub joints: usize,
}

impl Sizes {
    // Is each within its limit?
    pub fn are_few(self) -> bool
        ensures { result ≡ few_each self.bodies self.manifolds self.joints }
    {
        frame::few_each(self.bodies, self.manifolds, self.joints)
    }

    // How long the file is.
    #[tactic(auto, unfolding(frame::specs::Questions::few_each))]
    pub fn file_length(self) -> usize
        requires { few_each self.bodies self.manifolds self.joints ≡ true }
        ensures { result ≡ file_length self.bodies self.manifolds self.joints }
    {
        HEADER + self.bodies + PAIR * self.manifolds + JOINT * self.joints
    }
}

// A number of 16 bits, the upper byte first.
#[tactic(auto, unfolding(crate::specs::Written::half_bytes))]
fn put_half(file: &mut Writer<'_>, n: usize)
    requires room { file.old.at + 2 ≤ length file.old.out.now }
    requires half { n < 65536 }
    ensures { Wrote (half_bytes n) file.old file.new }
{
    file.put_word(&(n as u16).to_be_bytes());
}

// A number of 32 bits, the upper byte first.
#[tactic(auto, unfolding(crate::specs::Written::half_bytes, crate::specs::Written::word_bytes))]
fn put_whole(file: &mut Writer<'_>, n: usize)
    requires room { file.old.at + 4 ≤ length file.old.out.now }
    requires word { n < 4294967296 }
    ensures { Wrote (word_bytes n) file.old file.new }
{
    file.put_word(&(n as u32).to_be_bytes());
}

// The endpoints of a constraint.
#[tactic(auto, unfolding(crate::specs::Written::half_bytes, crate::specs::Written::word_bytes))]
pub fn put_pair(file: &mut Writer<'_>, a: usize, b: usize)
    requires { (file.old.at + 4 ≤ length file.old.out.now) × (a < 65536) × (b < 65536) }
    ensures { Wrote (pair_bytes (a ∷ b ∷ [])) file.old file.new }
{
    put_half(file, a);
    put_half(file, b);
}

// The first 11 bytes: version, length of the rest, and the sizes.
#[tactic(auto, unfolding(crate::specs::Written::half_bytes, crate::specs::Written::word_bytes, frame::specs::Questions::few_each))]
pub fn put_header(file: &mut Writer<'_>, sizes: Sizes)
    requires { (file.old.at + 11 ≤ length file.old.out.now) × (few_each sizes.bodies sizes.manifolds sizes.joints ≡ true) }
    ensures { Wrote (header_bytes sizes.bodies sizes.manifolds sizes.joints) file.old file.new }
{
    file.put_byte(1);
    put_whole(file, sizes.file_length() - 5);
    put_half(file, sizes.bodies);
    put_half(file, sizes.manifolds);
    put_half(file, sizes.joints);
}
