// The samples of test lifts: for each its number, its length and all lent bytes in hexadecimal, or for a long one their sum and their
// FNV-1a hash of 32 bits. The lent bytes are 0xab before the call.
#![tactic(auto)]

use frame::Refusal;
use frame::refusal::refusal_number;
use frame_file::Sizes;
use records::{Heedless, first};
use std::io;

// So many bytes are printed one by one.
const SHORT: usize = 99;

// A sample: its name, the numbers that ask for a lift, and how many bytes are lent.
#[derive(Clone, Copy)]
struct Lift<'a> {
    name: &'a str,
    seed: u32,
    sizes: Sizes,
    lent: usize,
}

// The answer's number, 0 where a frame was made, and the frame's length, 0 where it was refused.
fn print_answer(rt: &impl Print, name: &str, answer: Result<usize, Refusal>) -> io::Result<()> {
    let (number, length) = (refusal_number(&answer), answer.unwrap_or(0));
    print!(rt; "{name} {number} {length}")
}

fn sum(bytes: &[u8]) -> u32 {
    bytes
        .iter()
        .fold(0, |total, x| u32::from(*x).wrapping_add(total))
}

fn fnv(bytes: &[u8]) -> u32 {
    bytes.iter().fold(2166136261, |hash, x| {
        generator::wrapping_mul(hash ^ u32::from(*x), 16777619)
    })
}

// All lent bytes in hexadecimal, or, of more than `SHORT`, their sum and their hash.
fn print_bytes(rt: &impl Print, bytes: &[u8]) -> io::Result<()> {
    if SHORT < bytes.len() {
        return print!(rt; " sum {} fnv {}", sum(bytes), fnv(bytes));
    }
    if !bytes.is_empty() {
        print!(rt; " ")?;
    }
    for byte in bytes {
        print!(rt; "{byte:02x}")?;
    }
    Ok(())
}

// The line of a sample.
fn show(rt: &impl Print, sample: Lift<'_>) -> io::Result<()> {
    let mut bytes = [171; generator::MAX_BYTES];
    let bytes = first(&mut bytes, sample.lent);
    let answer = generator::generate(sample.seed, sample.sizes, bytes);
    print_answer(rt, sample.name, answer)?;
    print_bytes(rt, bytes)?;
    println!(rt; "")
}

fn sample<'a>(
    name: &'a str,
    seed: u32,
    bodies: usize,
    manifolds: usize,
    joints: usize,
    lent: usize,
) -> Lift<'a> {
    let sizes = Sizes {
        bodies,
        manifolds,
        joints,
    };
    Lift {
        name,
        seed,
        sizes,
        lent,
    }
}

fn show_all(rt: &impl Print) -> io::Result<()> {
    show(rt, sample("S1", 0, 2, 1, 1, 22))?;
    show(rt, sample("S2", 0, 3, 2, 1, 27))?;
    show(rt, sample("S3", 1, 3, 2, 1, 27))?;
    show(rt, sample("S4", 4294967295, 2, 0, 2, 23))?;
    show(rt, sample("S5", 0, 0, 0, 0, 11))?;
    show(rt, sample("S6", 5, 1, 0, 0, 12))?;
    show(rt, sample("S7", 0, 0, 1, 0, 0))?;
    show(rt, sample("S8", 0, 1, 0, 1, 99))?;
    show(rt, sample("S9", 0, 4097, 1, 0, 0))?;
    show(rt, sample("S9b", 1, 0, 4097, 0, 0))?;
    show(rt, sample("S10", 0, 2, 0, 0, 12))?;
    show(rt, sample("S11", 0, 4, 0, 0, 20))?;
    show(rt, sample("S12", 0, 4096, 4096, 0, 20491))?;
    show(rt, sample("S13", 99, 4096, 4096, 0, 20491))?;
    show(rt, sample("S14", 7, 4096, 4096, 4096, 40971))
}

// No exit status tells of a write that failed.
fn main(rt: HostRuntime) {
    let _ = show_all(&Heedless { to: &rt });
}
