// Writing an answer.
ghost use Rattle.std.specs.Prelude.{◌≡◌, ◌∷◌, [], ◌++◌, ◌<◌, ◌≤◌, ◌/◌, ◌%◌, ◌+◌, ◌-◌, length, take};
ghost use Rattle.arrayvec.specs.ArrayVec.{array_vec_len};

use arrayvec::ArrayVec;
use std::convert::AsSlice;

// What is written of an answer, at most N bytes. What has no room is left out, byte by byte.
#[derive(Drop)]
pub struct Writer<const N: usize> {
    bytes: ArrayVec<u8, N>,
}

impl<const N: usize> Writer<N> {
    pub fn new() -> Self
        ensures { result.bytes.items ≡ [] }
    {
        Writer {
            bytes: ArrayVec::new(),
        }
    }

    // Nothing is written.
    pub fn clear(&mut self)
        ensures { self.new.bytes.items ≡ [] }
    {
        self.bytes.clear();
    }

    pub fn bytes(&mut self, from: &[u8])
        ensures whole { array_vec_len self.old.bytes + length from.now ≤ N → self.new.bytes.items ≡ self.old.bytes.items ++ from.now }
        ensures cut { self.new.bytes.items ≡ self.old.bytes.items ++ take (N - array_vec_len self.old.bytes) from.now }
    {
        let count = from.len().min(self.bytes.remaining_capacity());
        let _ = self.bytes.try_extend_from_slice(&from[..count]);
    }

    pub fn byte(&mut self, x: u8)
        ensures whole { array_vec_len self.old.bytes < N → self.new.bytes.items ≡ self.old.bytes.items ++ x ∷ [] }
        ensures cut { self.new.bytes.items ≡ self.old.bytes.items ++ take (N - array_vec_len self.old.bytes) (x ∷ []) }
    {
        self.bytes(&[x]);
    }

    // A number of 16 bits.
    pub fn half(&mut self, x: u16)
        ensures whole { array_vec_len self.old.bytes + 2 ≤ N → self.new.bytes.items ≡ self.old.bytes.items ++ x / 256 ∷ x % 256 ∷ [] }
        ensures cut { self.new.bytes.items ≡ self.old.bytes.items ++ take (N - array_vec_len self.old.bytes) (x / 256 ∷ x % 256 ∷ []) }
    {
        self.bytes(&x.to_be_bytes());
    }

    pub fn halves(&mut self, from: &[u16]) {
        for x in from {
            self.half(*x);
        }
    }
}

impl<const N: usize> AsSlice<u8> for Writer<N> {
    ghost items = { λ w. w.bytes.items };

    fn as_slice(&self) -> &[u8] {
        self.bytes.as_slice()
    }
}
