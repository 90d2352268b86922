// Frames in the file form: the limits, questions 1 to 5 over a file's bytes, the decoding of an accepted file into lent
// tables, and the question that several calls put to their lists (5). `refusal` has the refusals and how a question is
// put, `constraints` a list's constraints one after another and question 7 of them, `multi` the questions of constraints with
// a count each, and `entries` the joints of a version 2 file. `Frame::read` answers every byte string.
// `decode` is internal: a stage of the frame run, which calls it on a file that `Frame::read` accepted.
#![tactic(auto)]

pub mod asked;
pub mod constraints;
pub mod entries;
pub mod multi;
pub mod refusal;

ghost use Rattle.std.specs.Prelude.{◌≡◌, ◌&&◌, ◌||◌, map, ◌+◌, ◌-◌, ◌*◌, ◌/◌, ◌%◌, ◌≤◌, ◌<◌, leb, ltb, eqb, length, take, drop, replicate, IfOk, ◌∷◌, []};
ghost use Rattle.lists.specs.Basics.{all};
ghost use Rattle.frame.specs.Frames.{conflicts, flag_of};
ghost use Rattle.frame.specs.Questions.{asked, few_each, bits};
ghost use Rattle.frame.specs.Files.{byte, half, word, second, pairs_from, enabled_from, count_m, count_j, joints_at, live_in, ends_at, version_question, head_questions};
ghost use Rattle.frame.specs.Joints.{Placed, JointsRead, Passed};
ghost use Rattle.frame.specs.Decodes.{ConstraintsDecodable, ConstraintsDecoded, Decodable, Decoded};
ghost use Rattle.frame.specs.Lent.{SameFrame};
ghost use Rattle.frame.specs.Answers.{version_of, Versioned, Read, with_counts, entries_for, counts_room};
ghost use Rattle.frame.specs.Refusals.{refused_by};

pub use crate::refusal::{Refusal, ask};
use tables::entry_or;

// The file form: how many bytes stand before the types, and how many a manifold and a joint have.
pub const HEADER: usize = 11;

pub const PAIR: usize = 4;

pub const JOINT: usize = 5;

// The versions of the file form: they differ in their joints.
#[derive(Clone, Copy, Debug, PartialEq, Eq)]
pub enum Version {
    First = 1,
    Second = 2,
}

impl TryFrom<u8> for Version {
    type Error = Refusal;

    ghost try_from_gives = { λ byte r. Versioned byte r };

    fn try_from(byte: u8) -> Result<Version, Refusal> {
        match byte {
            1 => Ok(Version::First),
            2 => Ok(Version::Second),
            _ => Err(Refusal::Version),
        }
    }
}

// A file's version, how many bodies, manifolds and joints its frame has, and how many endpoints the joints have together.
#[derive(Clone, Copy, Debug, PartialEq, Eq)]
pub struct Frame {
    pub version: Version,
    pub bodies: usize,
    pub manifolds: usize,
    pub joints: usize,
    pub joint_ends: usize,
}

// The joints' part of a file: the file's bytes, the place where its joints start, and how many there are.
#[derive(Clone, Copy)]
pub struct JointBytes<'a> {
    pub bytes: &'a [u8],
    pub from: usize,
    pub joints: usize,
}

// A frame as a call is lent it: a type for each body, the endpoint pairs of manifolds, and the joints' endpoints, counts and enabled bytes;
// without counts the joints are pairs.
#[derive(Clone, Copy)]
pub struct Lists<'a> {
    pub types: &'a [u8],
    pub manifolds: &'a [u16],
    pub joint_ends: &'a [u16],
    pub joint_counts: &'a [u8],
    pub enabled: &'a [u8],
}

// What a file is decoded into: a type and a flag for each body, the endpoints of the manifolds and then of the joints, their counts (none
// on version 1), and an enabled byte for each joint.
#[derive(Drop)]
pub struct FrameTables<'a> {
    pub types: &'a mut [u8],
    pub flags: &'a mut [u8],
    pub pairs: &'a mut [u16],
    pub counts: &'a mut [u8],
    pub enabled: &'a mut [u8],
}

// The 16-bit number at a place, big-endian.
#[tactic(auto, unfolding(crate::specs::Files::half))]
fn half_at(bytes: &[u8], i: usize) -> u16
    requires { i + 2 ≤ length bytes.now }
    ensures { result ≡ half bytes.now i }
{
    u16::from_be_bytes([bytes[i], bytes[i + 1]])
}

// The 32-bit number at a place, big-endian.
#[tactic(auto, unfolding(crate::specs::Files::word))]
fn word_at(bytes: &[u8], i: usize) -> usize
    requires { i + 4 ≤ length bytes.now }
    ensures { (result ≡ word bytes.now i) × (result < 65536 * 65536) }
{
    usize::from(half_at(bytes, i)) * 65536 + usize::from(half_at(bytes, i + 2))
}

// Question 1, and the version of a file that passes it.
fn read_version(bytes: &[u8]) -> Result<Version, Refusal>
    ensures refusal { refused_by result ≡ asked (version_question bytes.now ∷ []) }
    ensures version { IfOk result (λ v. v ≡ version_of bytes.now) }
{
    Version::try_from(entry_or(bytes, 0, 0))
}

// Whether a file's version is 2.
pub fn is_second(bytes: &[u8]) -> bool
    ensures { result ≡ second bytes.now }
{
    byte_or_zero(bytes, 0) == 2
}

// Question 2.
fn length_right(bytes: &[u8]) -> bool
    ensures { result ≡ (leb 11 (length bytes.now) && eqb (word bytes.now 1) (length bytes.now - 5)) }
{
    if bytes.len() < HEADER {
        return false;
    }
    word_at(bytes, 1) == bytes.len() - 5
}

// Question 3.
#[tactic(auto, unfolding(crate::specs::Questions::few_each))]
pub fn few_each(bodies: usize, manifolds: usize, joints: usize) -> bool
    ensures { result ≡ few_each bodies manifolds joints }
{
    (bodies <= Frame::MAX_BODIES)
        & (manifolds <= Frame::MAX_MANIFOLDS)
        & (joints <= Frame::MAX_JOINTS)
}

// Questions 1 to 3, and the version.
fn ask_head(bytes: &[u8]) -> Result<Version, Refusal>
    ensures refusal { refused_by result ≡ asked (head_questions bytes.now) }
    ensures version { IfOk result (λ v. v ≡ version_of bytes.now) }
{
    let version = read_version(bytes)?;
    ask(length_right(bytes), Refusal::FileLength)?;
    let few = few_each(
        usize::from(half_at(bytes, 5)),
        usize::from(half_at(bytes, 7)),
        usize::from(half_at(bytes, 9)),
    );
    ask(few, Refusal::TooMany)?;
    Ok(version)
}

// Questions 5 (of counts) and 4 of a file's joints: the walk of version 2, the length of version 1. How many endpoints they have together.
fn walk_joints(version: Version, part: JointBytes<'_>) -> Result<usize, Refusal>
    requires placed { Placed part }
    requires version { version ≡ version_of part.bytes.now }
    ensures { JointsRead part.entry.bytes.now result }
{
    match version {
        Version::Second => entries::walk(part),
        Version::First => {
            let end = part.from + JOINT * part.joints;
            ask(part.bytes.len() == end, Refusal::Lengths)?;
            Ok(2 * part.joints)
        }
    }
}

// Question 5: is every byte at most `limit`? (`Frame::MAX_TYPE` for types, 1 for enabled bytes and flags)
pub fn at_most(s: &[u8], limit: u8) -> bool
    ensures { result ≡ all (λ x. leb x limit) s.now }
{
    s.iter().fold(true, |known, &x| known & (x <= limit))
}

// Question 5 of the enabled bytes of version 1, joint after joint.
fn enabled_known(joints: &[u8]) -> bool
    ensures { result ≡ bits (enabled_from joints.now 0 (length joints.now / 5)) }
{
    for joint in joints.chunks_exact(JOINT) {
        if 1 < joint[PAIR] {
            return false;
        }
    }
    true
}

// Question 5 of the enabled bytes, by version.
fn live_known(version: Version, part: JointBytes<'_>) -> bool
    requires passed { Passed part }
    requires version { version ≡ version_of part.bytes.now }
    ensures { result ≡ bits (live_in part.entry.bytes.now) }
{
    match version {
        Version::Second => entries::enabled_known(part),
        Version::First => enabled_known(&part.bytes[part.from..]),
    }
}

impl Frame {
    pub const MAX_BODIES: usize = 4096;

    pub const MAX_MANIFOLDS: usize = 4096;

    pub const MAX_JOINTS: usize = 4096;

    pub const MAX_PAIRS: usize = 8192;

    pub const MAX_BYTES: usize = 61451;

    // The types are static (0), kinematic (1), dynamic (2) and logged (3).
    pub const DYNAMIC: u8 = 2;

    pub const LOGGED: u8 = 3;

    pub const MAX_TYPE: u8 = 3;

    // How many endpoints a constraint has, at least and at most.
    pub const MIN_ENDS: usize = 2;

    pub const MAX_ENDS: usize = 4;

    // The label of a body or constraint that has no island.
    pub const NONE: u16 = 65535;

    // Questions 1 to 5 of a file.
    pub fn read(bytes: &[u8]) -> Result<Frame, Refusal>
        ensures { Read bytes.now result }
    {
        let version = ask_head(bytes)?;
        let bodies = usize::from(half_at(bytes, 5));
        let manifolds = usize::from(half_at(bytes, 7));
        let joints = usize::from(half_at(bytes, 9));
        let part = JointBytes {
            bytes,
            from: HEADER + bodies + PAIR * manifolds,
            joints,
        };
        let joint_ends = walk_joints(version, part)?;
        let types = &bytes[HEADER..HEADER + bodies];
        ask(at_most(types, Frame::MAX_TYPE), Refusal::Values)?;
        ask(live_known(version, part), Refusal::Values)?;
        Ok(Frame {
            version,
            bodies,
            manifolds,
            joints,
            joint_ends,
        })
    }

    // How many endpoint entries question 6 of a run asks for: four a joint where the constraints have counts, else two.
    pub fn entries_for(self) -> usize
        requires { (self.manifolds ≤ 4096) × (self.joints ≤ 4096) }
        ensures { result ≡ entries_for (with_counts self.version) self.manifolds self.joints }
    {
        match self.version {
            Version::First => 2 * (self.manifolds + self.joints),
            Version::Second => 2 * self.manifolds + 4 * self.joints,
        }
    }

    // And how many counts, to which a run cuts its tables of counts too: none where the constraints are pairs.
    pub fn counts_room(self) -> usize
        requires { (self.manifolds ≤ 4096) × (self.joints ≤ 4096) }
        ensures { result ≡ counts_room (with_counts self.version) self.manifolds self.joints }
    {
        match self.version {
            Version::First => 0,
            Version::Second => self.manifolds + self.joints,
        }
    }
}

// The types of a file.
fn decode_types(bytes: &[u8], types: &mut [u8])
    requires { 11 + length types.old ≤ length bytes.now }
    ensures { types.new ≡ take (length types.old) (drop 11 bytes.now) }
{
    let count = types.len();
    tables::copy_over(&bytes[HEADER..HEADER + count], types);
}

// Whether a body of this type makes conflicts: it is dynamic, or logged.
pub fn conflicts(t: u8) -> bool
    ensures { result ≡ conflicts t }
{
    (t == Frame::DYNAMIC) | (t == Frame::LOGGED)
}

// Its flag in a coloring, and its mark in a binding.
pub fn flag_of(t: u8) -> u8
    ensures { result ≡ flag_of t }
{
    u8::from(conflicts(t))
}

// The flags of types.
fn flag_bodies(types: &[u8], flags: &mut [u8])
    requires { length flags.old ≡ length types.now }
    ensures { flags.new ≡ map flag_of types.now }
{
    for (i, flag) in flags.iter_mut().enumerate() {
        *flag = flag_of(types[i]);
    }
}

// The endpoint pairs that start at `from`, one every `step` bytes.
fn decode_pairs(bytes: &[u8], from: usize, step: usize, pairs: &mut [u16])
    requires { (4 ≤ step) × (from + step * (length pairs.old / 2) ≤ length bytes.now) × (length pairs.old % 2 ≡ 0) }
    ensures { pairs.new ≡ pairs_from bytes.now from step (length pairs.old / 2) }
{
    let mut at = from;
    // The pairs before place `at` are in the first 2 * k entries.
    for k in 0..pairs.len() / 2 {
        pairs[2 * k] = half_at(bytes, at);
        pairs[2 * k + 1] = half_at(bytes, at + 2);
        at += step;
    }
}

// The enabled bytes of version 1, joint after joint.
fn decode_enabled(joints: &[u8], enabled: &mut [u8])
    requires { length joints.now ≡ 5 * length enabled.old }
    ensures { enabled.new ≡ enabled_from joints.now 0 (length enabled.old) }
{
    for (j, joint) in joints.chunks_exact(JOINT).enumerate() {
        enabled[j] = joint[PAIR];
    }
}

// The types and flags of a file's bodies.
fn decode_bodies(bytes: &[u8], types: &mut [u8], flags: &mut [u8])
    requires types { 11 + length types.old ≤ length bytes.now }
    requires flags { length flags.old ≡ length types.old }
    ensures types { types.new ≡ take (length types.old) (drop 11 bytes.now) }
    ensures flags { flags.new ≡ map flag_of types.new }
{
    decode_types(bytes, types);
    flag_bodies(types, flags);
}

// The counts of constraints that are pairs.
fn fill_twos(counts: &mut [u8])
    ensures { counts.new ≡ replicate (length counts.old) 2 }
{
    counts.fill(2);
}

// The endpoints, counts and enabled bytes of a file's constraints. On version 1 `counts` is empty; on version 2 it has a count for each
// manifold and joint.
fn decode_constraints(
    bytes: &[u8],
    manifolds: usize,
    pairs: &mut [u16],
    counts: &mut [u8],
    enabled: &mut [u8],
)
    requires { ConstraintsDecodable bytes.now manifolds pairs.old counts.old enabled.old }
    ensures { ConstraintsDecoded bytes.now pairs.new counts.new enabled.new }
{
    let n = 2 * manifolds;
    let first = HEADER + usize::from(half_at(bytes, 5));
    decode_pairs(bytes, first, PAIR, &mut pairs[..n]);
    let from = first + PAIR * manifolds;
    if is_second(bytes) {
        fill_twos(&mut counts[..manifolds]);
        entries::decode(
            bytes,
            from,
            &mut pairs[n..],
            &mut counts[manifolds..],
            enabled,
        );
        return;
    }
    decode_pairs(bytes, from, JOINT, &mut pairs[n..]);
    decode_enabled(&bytes[from..], enabled);
}

// The whole file, into tables of its frame's sizes.
pub fn decode(bytes: &[u8], manifolds: usize, tables: &mut FrameTables<'_>)
    requires { Decodable bytes.now manifolds tables.old.types.now tables.old.flags.now tables.old.pairs.now tables.old.counts.now
        tables.old.enabled.now }
    ensures decoded { Decoded bytes.now tables.new.types.now tables.new.flags.now tables.new.pairs.now tables.new.counts.now
        tables.new.enabled.now }
    ensures same { SameFrame tables.old tables.new }
{
    decode_bodies(bytes, tables.types, tables.flags);
    decode_constraints(
        bytes,
        manifolds,
        tables.pairs,
        tables.counts,
        tables.enabled,
    );
}

// The byte at any place of any file, 0 past its end.
pub fn byte_or_zero(bytes: &[u8], i: usize) -> usize
    ensures { (result ≡ byte bytes.now i) × (result < 256) }
{
    usize::from(entry_or(bytes, i, 0))
}

// The 16-bit number at any place, big-endian. The print reads with it, whose file need not be an accepted one.
#[tactic(auto, unfolding(crate::specs::Files::half))]
pub fn half_or_zero(bytes: &[u8], i: usize) -> usize
    requires { i < 1048576 }
    ensures { (result ≡ half bytes.now i) × (result < 65536) }
{
    byte_or_zero(bytes, i) * 256 + byte_or_zero(bytes, i + 1)
}

// How many constraints a file says it has.
pub fn constraint_count(bytes: &[u8]) -> usize
    ensures { (result ≡ count_m bytes.now + count_j bytes.now) × (result < 131072) }
{
    half_or_zero(bytes, 7) + half_or_zero(bytes, 9)
}

// Where a version 1 file has the endpoints of a constraint: manifolds first, then joints. A version 2 file has its manifolds' there,
// and its joints' where `entries::entry_places` says.
pub fn ends_at(bytes: &[u8], constraint: usize) -> usize
    requires { constraint < 131072 }
    ensures { (result ≡ ends_at bytes.now constraint) × (result + 2 < 1048576) }
{
    let manifolds = half_or_zero(bytes, 7);
    let pairs = HEADER + half_or_zero(bytes, 5);
    if constraint < manifolds {
        return pairs + PAIR * constraint;
    }
    pairs + PAIR * manifolds + JOINT * (constraint - manifolds)
}
