// Test lifts from a number: one seed gives the same frame on every unit. A linear congruential generator draws the types, then the
// manifolds' pairs, then the joints, each pair of two different bodies, straight into the lent bytes in the file form. `generate`
// answers every seed and all sizes; its time is linear in the frame's bytes.
#![tactic(auto)]

ghost use Rattle.std.specs.Prelude.{◌≡◌, ◌+◌, ◌*◌, ◌/◌, ◌%◌, ◌^◌, ◌<◌, ◌≤◌, true, [], ◌∷◌, ◌++◌, length};
ghost use Rattle.lists.specs.Basics.{over};
ghost use Rattle.frame.specs.Questions.{few_each};
ghost use Rattle.frame.specs.Refusals.{refused_by};
ghost use Rattle.frame_file.specs.Written.{file_length, pair_bytes, joint_bytes};
ghost use Rattle.writer.specs.Wrote.{Wrote};
ghost use Rattle.generator.specs.Draws.{next_state, state_after, draw, pair_drawn, types_drawn, pairs_drawn, enabled_drawn, generated_bytes};
ghost use Rattle.generator.specs.Calls.{pairs_possible, generate_refusal, Makes};

use frame::refusal::{Refusal, ask};
use frame_file::Sizes;
use writer::Writer;

// How long the largest frame is that it makes, a file of version 1.
pub const MAX_BYTES: usize = 40971;

// a × b, modulo 2^32.
pub fn wrapping_mul(a: u32, b: u32) -> u32
    ensures { result ≡ (a * b) % 2 ^ 32 }
{
    (a as u64 * b as u64 % 4294967296) as u32
}

// The state after s.
fn next_state(s: u32) -> u32
    ensures { result ≡ next_state s }
{
    wrapping_mul(1664525, s).wrapping_add(1013904223)
}

// How many bodies pairs are drawn of, at most 4,096.
#[derive(Clone, Copy)]
struct Bodies {
    count: u32,
    ghost few: { count ≤ 4096 },
}

// A generator by its state.
#[derive(Drop)]
struct Generator {
    state: u32,
}

impl Generator {
    // The next draw: the upper 16 bits of the state after.
    fn draw(&mut self) -> u32
        ensures state { self.new.state ≡ next_state self.old.state }
        ensures drawn { (result ≡ self.new.state / 65536) × (result < 65536) }
    {
        self.state = next_state(self.state);
        self.state / 65536
    }

    // Draws types.
    fn draw_types(&mut self, file: &mut Writer<'_>, count: usize)
        requires { file.old.at + count ≤ length file.old.out.now }
        ensures wrote { Wrote (types_drawn count self.old.state) file.old file.new }
        ensures state { self.new.state ≡ state_after count self.old.state }
    {
        // The first i types are drawn.
        for i in 0..count {
            file.put_byte((self.draw() % 3) as u8);
        }
    }

    // Draws a pair of two different bodies.
    fn draw_pair(&mut self, file: &mut Writer<'_>, bodies: Bodies)
        requires room { file.old.at + 4 ≤ length file.old.out.now }
        requires bodies { 2 ≤ bodies.count }
        ensures wrote { Wrote (pair_bytes (pair_drawn bodies.count 0 self.old.state)) file.old file.new }
        ensures state { self.new.state ≡ state_after 2 self.old.state }
    {
        let a = self.draw() % bodies.count;
        let b = (a + 1 + self.draw() % (bodies.count - 1)) % bodies.count;
        frame_file::put_pair(file, a as usize, b as usize);
    }

    // Draws a joint: its pair, then its enabled byte.
    fn draw_joint(&mut self, file: &mut Writer<'_>, bodies: Bodies)
        requires room { file.old.at + 5 ≤ length file.old.out.now }
        requires bodies { 2 ≤ bodies.count }
        ensures wrote { Wrote (pair_bytes (pair_drawn bodies.count 0 self.old.state) ++ (draw 2 self.old.state % 2) ∷ []) file.old file.new }
        ensures state { self.new.state ≡ state_after 3 self.old.state }
    {
        self.draw_pair(file, bodies);
        file.put_byte((self.draw() % 2) as u8);
    }

    // Draws manifolds.
    fn draw_manifolds(&mut self, file: &mut Writer<'_>, bodies: Bodies, count: usize)
        requires room { file.old.at + 4 * count ≤ length file.old.out.now }
        requires bodies { pairs_possible bodies.count count 0 ≡ true }
        ensures wrote { Wrote (pair_bytes (pairs_drawn bodies.count 0 2 count self.old.state)) file.old file.new }
        ensures state { self.new.state ≡ state_after (2 * count) self.old.state }
    {
        // The first i pairs are drawn.
        for i in 0..count {
            self.draw_pair(file, bodies);
        }
    }

    // Draws joints.
    fn draw_joints(&mut self, file: &mut Writer<'_>, bodies: Bodies, count: usize)
        requires room { file.old.at + 5 * count ≤ length file.old.out.now }
        requires bodies { pairs_possible bodies.count 0 count ≡ true }
        ensures { Wrote (joint_bytes (pairs_drawn bodies.count 0 3 count self.old.state) (enabled_drawn 0 count self.old.state)) file.old file.new }
    {
        // The first i joints are drawn.
        for i in 0..count {
            self.draw_joint(file, bodies);
        }
    }
}

// Writes the file of a seed from place 0 on.
fn write_lift(out: &mut [u8], seed: u32, sizes: Sizes)
    requires few { few_each sizes.bodies sizes.manifolds sizes.joints ≡ true }
    requires pairs { pairs_possible sizes.bodies sizes.manifolds sizes.joints ≡ true }
    requires room { file_length sizes.bodies sizes.manifolds sizes.joints ≤ length out.old }
    ensures { out.new ≡ over (generated_bytes seed sizes.bodies sizes.manifolds sizes.joints) out.old }
{
    let mut file = Writer { out, at: 0 };
    let mut generator = Generator { state: seed };
    let bodies = Bodies {
        count: sizes.bodies as u32,
    };
    frame_file::put_header(&mut file, sizes);
    generator.draw_types(&mut file, sizes.bodies);
    generator.draw_manifolds(&mut file, bodies, sizes.manifolds);
    generator.draw_joints(&mut file, bodies, sizes.joints);
}

// Question 13: no pair is wanted, or there are two bodies for it.
#[tactic(auto, unfolding(frame::specs::Questions::few_each, crate::specs::Calls::pairs_possible))]
fn pairs_possible(sizes: Sizes) -> bool
    requires { few_each sizes.bodies sizes.manifolds sizes.joints ≡ true }
    ensures { result ≡ pairs_possible sizes.bodies sizes.manifolds sizes.joints }
{
    (2 <= sizes.bodies) | (sizes.manifolds + sizes.joints == 0)
}

// Questions 3, 13 and 6.
#[tactic(auto, unfolding(crate::specs::Calls::generate_refusal))]
fn first_refusal(sizes: Sizes, room: usize) -> Result<(), Refusal>
    ensures { refused_by result ≡ generate_refusal sizes.bodies sizes.manifolds sizes.joints room }
{
    ask(sizes.are_few(), Refusal::TooMany)?;
    ask(pairs_possible(sizes), Refusal::NoPair)?;
    ask(sizes.file_length() <= room, Refusal::Room)
}

// Makes the frame of a seed with these sizes in the lent bytes; answers its length.
pub fn generate(seed: u32, sizes: Sizes, bytes: &mut [u8]) -> Result<usize, Refusal>
    ensures { Makes seed sizes.bodies sizes.manifolds sizes.joints bytes.old bytes.new result }
{
    first_refusal(sizes, bytes.len())?;
    write_lift(bytes, seed, sizes);
    Ok(sizes.file_length())
}
