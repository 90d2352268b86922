// Writing into lent bytes, one text behind another. Internal: the caller has room.
#![tactic(auto)]

ghost use Rattle.std.specs.Prelude.{◌≡◌, ◌∷◌, [], ◌+◌, ◌≤◌, ◌<◌, leb, length};
ghost use Rattle.lists.specs.Basics.{put};
ghost use Rattle.writer.specs.Wrote.{Wrote};

// Lent bytes, and the place in them that is written next.
#[derive(Drop)]
pub struct Writer<'a> {
    pub out: &'a mut [u8],
    pub at: usize,
}

impl Writer<'_> {
    // Are `most` bytes left?
    pub fn has_room(&self, most: usize) -> bool
        ensures { result ≡ leb (self.now.at + most) (length self.now.out.now) }
    {
        most <= self.out.len() && self.at <= self.out.len() - most
    }

    // One byte.
    pub fn put_byte(&mut self, byte: u8)
        requires { self.old.at < length self.old.out.now }
        ensures { Wrote (byte ∷ []) self.old self.new }
    {
        self.out[self.at] = byte;
        self.at += 1;
    }

    // A word's bytes.
    pub fn put_word(&mut self, word: &[u8])
        requires { self.old.at + length word.now ≤ length self.old.out.now }
        ensures { Wrote word.now self.old self.new }
    {
        copy_at(self.out, self.at, word);
        self.at += word.len();
    }
}

// Copies a word to a place.
fn copy_at(out: &mut [u8], at: usize, word: &[u8])
    requires { at + length word.now ≤ length out.old }
    ensures { out.new ≡ put at word.now out.old }
{
    out[at..at + word.len()].copy_from_slice(word);
}
