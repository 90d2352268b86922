// Bindings at document 01's take sample, at those of requests 6 and 11 and at their limits. Each bind prints how many types and bodies it is given, its refusal
// and the binding's count; each take its two positions, its refusal, and the two bodies if there is none, each with 1 for "dynamic".
// `take` is the take by value, `take_at` the take over a binding lent by `&mut`. `bodies_at` and `take_bodies_at` are those of several
// positions, and print first how many these are.
#![tactic(auto)]

ghost use Rattle.std.specs.Prelude.{[], ◌∷◌};
ghost use Rattle.colored_bodies.specs.Answers.{Takes, TakesAt};

use colored_bodies::multi::TakenAt;
use colored_bodies::{BodyBinding, Handed, Step, Taken};
use frame::Refusal;
use frame::refusal::refusal_number;
use records::Heedless;
use std::{array, io};

// A take of two positions, and one of several, as each answers.
type Take = Result<Taken, Refusal>;

type SeveralTaken = Result<TakenAt, Refusal>;

fn show_bind(rt: &impl Print, types: &[u8], indices: &[u16]) -> io::Result<BodyBinding> {
    let bound = BodyBinding::bind(types, indices);
    let refusal = refusal_number(&bound.asked);
    let binding = bound.binding;
    let (given, listed, count) = (types.len(), indices.len(), binding.count);
    println!(rt; "bind {given} {listed} {refusal} {count}")?;
    Ok(binding)
}

// A body, and 1 for "dynamic".
fn print_handed(rt: &impl Print, handed: Handed) -> io::Result<()> {
    print!(rt; " {} {}", handed.body, u8::from(handed.dynamic))
}

fn print_take(rt: &impl Print, take: Take) -> io::Result<()> {
    match take {
        Ok(taken) => {
            print!(rt; " 0")?;
            print_handed(rt, taken.first)?;
            print_handed(rt, taken.second)?;
            println!(rt; "")
        }
        Err(refusal) => println!(rt; " {refusal}"),
    }
}

// Takes of two positions, each from the binding that the one before leaves; `take` is the call.
fn show_takes<F>(
    rt: &impl Print,
    word: &str,
    bound: BodyBinding,
    pairs: &[(usize, usize)],
    take: F,
) -> io::Result<BodyBinding>
where
    F: Fn(BodyBinding, usize, usize) -> Step<Take> + Drop,
    requires { F.IsAlwaysCallable take }
{
    let mut binding = bound;
    for (a, b) in pairs {
        let step = take(binding, *a, *b);
        print!(rt; "{word} {a} {b}")?;
        print_take(rt, step.taken)?;
        binding = step.binding;
    }
    Ok(binding)
}

// Takes by value.
fn take(
    rt: &impl Print,
    binding: BodyBinding,
    pairs: &[(usize, usize)],
) -> io::Result<BodyBinding> {
    show_takes(rt, "take", binding, pairs, |binding, a, b| {
        binding.pair_at(a, b)
    })
}

// Takes over a binding that is lent.
fn take_at(
    rt: &impl Print,
    binding: BodyBinding,
    pairs: &[(usize, usize)],
) -> io::Result<BodyBinding> {
    show_takes(rt, "take_at", binding, pairs, take_kept)
}

// A take over a binding that this function keeps, and lends.
fn take_kept(mut binding: BodyBinding, a: usize, b: usize) -> Step<Take>
    ensures { Takes binding (a ∷ b ∷ []) result.taken result.binding }
{
    let taken = colored_bodies::take_at(&mut binding, a, b);
    Step { binding, taken }
}

// The refusal of a take of several positions, and the bodies that it hands.
fn print_taken(rt: &impl Print, taken: SeveralTaken) -> io::Result<()> {
    print!(rt; " {}", refusal_number(&taken))?;
    if let Ok(taken) = taken {
        let handed = taken.handed;
        for handed in handed.iter().take(taken.count) {
            print_handed(rt, *handed)?;
        }
    }
    println!(rt; "")
}

// A take of several positions; `take` is the call.
fn show_several<F>(
    rt: &impl Print,
    word: &str,
    binding: BodyBinding,
    positions: &[u16],
    take: F,
) -> io::Result<BodyBinding>
where
    F: FnOnce(BodyBinding, &[u16]) -> Step<SeveralTaken> + Drop,
    requires { F.IsAlwaysCallable take }
{
    print!(rt; "{word} {}", positions.len())?;
    for position in positions {
        print!(rt; " {position}")?;
    }
    let step = take(binding, positions);
    print_taken(rt, step.taken)?;
    Ok(step.binding)
}

fn bodies_at(rt: &impl Print, binding: BodyBinding, positions: &[u16]) -> io::Result<BodyBinding> {
    show_several(
        rt,
        "bodies_at",
        binding,
        positions,
        |binding, positions| binding.bodies_at(positions),
    )
}

fn several_kept(mut binding: BodyBinding, positions: &[u16]) -> Step<SeveralTaken>
    ensures { TakesAt binding positions.now result.taken result.binding }
{
    let taken = colored_bodies::multi::take_bodies_at(&mut binding, positions);
    Step { binding, taken }
}

fn take_bodies_at(
    rt: &impl Print,
    binding: BodyBinding,
    positions: &[u16],
) -> io::Result<BodyBinding> {
    show_several(rt, "take_bodies_at", binding, positions, several_kept)
}

// Places 0, 1, 2 dynamic: (1, 2), then (0, 2) gives 11, then (0, 1) gives 10.
fn sample(rt: &impl Print) -> io::Result<()> {
    let b = show_bind(rt, &[2, 2, 2], &[0, 1, 2])?;
    take(rt, b, &[(1, 2), (0, 2), (0, 1)])?;
    Ok(())
}

// Read-only bodies may be taken again; the order asked is kept.
fn read_only(rt: &impl Print) -> io::Result<()> {
    let b = show_bind(rt, &[0, 2, 1, 2], &[0, 1, 2, 3])?;
    take(rt, b, &[(2, 0), (3, 0), (0, 2), (3, 1)])?;
    Ok(())
}

// The sample by `take_at`, its places 0, 1, 2 being the bodies 1, 2, 3; then two read-only bodies, taken again.
fn lent(rt: &impl Print) -> io::Result<()> {
    let b = show_bind(rt, &[0, 2, 2, 2, 1, 0], &[1, 2, 3, 4, 5])?;
    take_at(rt, b, &[(1, 2), (0, 2), (0, 1), (3, 4), (4, 3)])?;
    Ok(())
}

// Request 6's sample: logged bodies (type 3) are held and handed as dynamic ones are. (1, 2) and (3, 2) are taken, then (0, 1) gives 11 and
// (1, 3) gives 10.
fn logged(rt: &impl Print) -> io::Result<()> {
    let b = show_bind(rt, &[2, 3, 1, 3], &[0, 1, 2, 3])?;
    take(rt, b, &[(1, 2), (3, 2), (0, 1), (1, 3)])?;
    Ok(())
}

// Request 11's sample: takes of several positions, place 2 read-only and place 3 logged. The length is asked before the positions; (1, 2, 0)
// gives 10 for place 0 and takes nothing, so that (4, 3, 1) takes place 1 before it gives 11 for place 3; then (1, 4, 2) gives 10 for place 1.
fn several(rt: &impl Print) -> io::Result<()> {
    let mut b = show_bind(rt, &[2, 2, 0, 3, 2], &[0, 1, 2, 3, 4])?;
    b = bodies_at(rt, b, &[4])?;
    b = bodies_at(rt, b, &[0, 1, 2, 3, 4])?;
    b = take_bodies_at(rt, b, &[2, 2, 2, 2, 2])?;
    b = bodies_at(rt, b, &[3, 2, 0])?;
    b = bodies_at(rt, b, &[4, 2, 4])?;
    b = take_bodies_at(rt, b, &[1, 5])?;
    b = bodies_at(rt, b, &[1, 2, 0])?;
    b = take_bodies_at(rt, b, &[4, 3, 1])?;
    bodies_at(rt, b, &[1, 4, 2])?;
    Ok(())
}

// Questions 3, 5 and 8, and a count of 0 and of 1.
fn small(rt: &impl Print) -> io::Result<()> {
    let none = show_bind(rt, &[], &[])?;
    take(rt, none, &[(0, 1)])?;
    let one = show_bind(rt, &[2, 2], &[1])?;
    take(rt, one, &[(0, 0), (0, 1)])?;
    show_bind(rt, &[2, 2], &[2])?;
    show_bind(rt, &[2, 2], &[1, 1])?;
    show_bind(rt, &[2, 4], &[0, 1])?;
    Ok(())
}

// The numbers from 0 to 4,095.
fn rising() -> [u16; 4096] {
    array::from_fn(|i| i as u16)
}

// 4,096 bodies, and one more.
fn large(rt: &impl Print) -> io::Result<()> {
    let list = rising();
    let mut b = show_bind(rt, &[2; 4096], &list)?;
    b = take(rt, b, &[(4095, 0), (4095, 4096), (1, 4095)])?;
    b = take_bodies_at(rt, b, &[4094, 3, 4093, 2])?;
    bodies_at(rt, b, &[4, 5, 6, 4096])?;
    show_bind(rt, &[2; 4097], &list)?;
    Ok(())
}

fn forged(mark: u8, count: usize) -> BodyBinding {
    BodyBinding {
        bodies: [7; 4096],
        marks: [mark; 4096],
        count,
    }
}

// Bindings that no bind has made: any count, any mark.
fn any_value(rt: &impl Print) -> io::Result<()> {
    let mut b = forged(1, usize::MAX);
    b = take(rt, b, &[(0, 4096), (4096, 4095), (4095, 4094)])?;
    b = bodies_at(rt, b, &[0, 1, 2, 4096])?;
    take_bodies_at(rt, b, &[4093, 4092, 4091, 4090])?;
    take(rt, forged(1, 0), &[(0, 1)])?;
    take(rt, forged(3, 4096), &[(0, 1)])?;
    take(rt, forged(255, 4096), &[(1, 0)])?;
    bodies_at(rt, forged(0, 4096), &[])?;
    take_bodies_at(rt, forged(3, 4096), &[2, 1, 0])?;
    Ok(())
}

fn show_all(rt: &impl Print) -> io::Result<()> {
    sample(rt)?;
    read_only(rt)?;
    lent(rt)?;
    logged(rt)?;
    several(rt)?;
    small(rt)?;
    large(rt)?;
    any_value(rt)
}

// No exit status tells of a write that failed.
fn main(rt: HostRuntime) {
    let _ = show_all(&Heedless { to: &rt });
}
