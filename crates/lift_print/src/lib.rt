// What the program `generate_frame` prints for a text, made in a buffer: the test lift that its line asks for, or its refusal. Each function
// answers how many bytes it made.
#![tactic(auto)]

ghost use Rattle.frame.specs.Refusals.{number_of};
ghost use Rattle.lift_line.specs.Lines.{line_of};
ghost use Rattle.schedules.specs.Print.{refusal_line};
ghost use Rattle.lift_print.specs.Prints.{lift_of, Printed, LiftPrinted};

use frame::refusal::Refusal;
use generator::MAX_BYTES;
use lift_line::Wanted;
use writer::Writer;

// A refusal from the buffer's start on.
fn put_refusal(out: &mut [u8; MAX_BYTES], refusal: Refusal) -> usize
    ensures { Printed (refusal_line (number_of refusal)) out.old out.new result }
{
    let mut text = Writer { out, at: 0 };
    printing::put_refusal(&mut text, usize::from(refusal.number()));
    text.at
}

// A lift's file, or its refusal.
fn put_lift(out: &mut [u8; MAX_BYTES], wanted: Wanted) -> usize
    ensures { Printed (lift_of wanted.seed wanted.sizes.bodies wanted.sizes.manifolds wanted.sizes.joints) out.old out.new result }
{
    match generator::generate(wanted.seed, wanted.sizes, out) {
        Ok(length) => length,
        Err(refusal) => put_refusal(out, refusal),
    }
}

// The print of a text, if its line can be read.
pub fn put_print(text: &[u8], out: &mut [u8; MAX_BYTES]) -> Option<usize>
    ensures { LiftPrinted (line_of text.now) out.old out.new result }
{
    let wanted = lift_line::read_line(text)?;
    Some(put_lift(out, wanted))
}
