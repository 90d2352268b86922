// A binding with takes: types, a list, then pairs of positions, one byte each.
use crate::Answer;
use colored_bodies::{BodyBinding, Handed, Taken};
use frame::refusal::refusal_number;
use frame::{Frame, Refusal};
use records::{Reader, first};

// A body, and 1 for "dynamic".
fn put_handed(handed: Handed, out: &mut Answer) {
    out.half(handed.body);
    out.byte(u8::from(handed.dynamic));
}

fn put_take(taken: Result<Taken, Refusal>, out: &mut Answer) {
    match taken {
        Ok(taken) => {
            out.byte(0);
            put_handed(taken.first, out);
            put_handed(taken.second, out);
        }
        Err(refusal) => out.byte(refusal.number()),
    }
}

// The count, and the bodies and marks of its places and of the one past them.
fn put_binding(binding: &BodyBinding, out: &mut Answer) {
    let last = binding.count.min(Frame::MAX_BODIES - 1);
    out.half(last as u16);
    for (body, mark) in binding.bodies.iter().zip(&binding.marks).take(last + 1) {
        out.half(*body);
        out.byte(*mark);
    }
}

// The takes of a binding, each with what it leaves.
fn take_all(mut binding: BodyBinding, takes: u8, question: &mut Reader, out: &mut Answer) {
    for _ in 0..takes {
        let a = question.byte();
        let b = question.byte();
        let step = binding.pair_at(usize::from(a), usize::from(b));
        put_take(step.taken, out);
        put_binding(&step.binding, out);
        binding = step.binding;
    }
}

pub fn answer(question: &[u8], out: &mut Answer) {
    let mut question = Reader::new(question);
    let types = question.byte();
    let listed = question.byte();
    let takes = question.byte();
    let types = question.bytes(usize::from(types));
    let mut list = [0; 40];
    let list = first(&mut list, usize::from(listed));
    question.numbers(list);
    let bound = BodyBinding::bind(types, list);
    out.byte(refusal_number(&bound.asked));
    put_binding(&bound.binding, out);
    take_all(bound.binding, takes, &mut question, out);
}
