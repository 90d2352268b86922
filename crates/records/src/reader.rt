// Reading a question.
ghost use Rattle.std.specs.Prelude.{◌≡◌, take, drop, get_or, ◌+◌, ◌*◌};

// What is left of a question. Past its end every byte is 0.
#[derive(Clone, Copy)]
pub struct Reader<'a> {
    rest: &'a [u8],
}

impl<'a> Reader<'a> {
    pub fn new(bytes: &'a [u8]) -> Self
        ensures { result.rest.now ≡ bytes.now }
    {
        Reader { rest: bytes }
    }

    // The next byte.
    pub fn byte(&mut self) -> u8
        ensures value { result ≡ get_or self.old.rest.now 0 0 }
        ensures rest { self.new.rest.now ≡ drop 1 self.old.rest.now }
    {
        match self.rest.split_first() {
            Some((first, rest)) => {
                self.rest = rest;
                *first
            }
            None => 0,
        }
    }

    // The next two bytes as a number.
    pub fn half(&mut self) -> u16
        ensures value { result ≡ 256 * get_or self.old.rest.now 0 0 + get_or self.old.rest.now 1 0 }
        ensures rest { self.new.rest.now ≡ drop 2 self.old.rest.now }
    {
        u16::from_be_bytes([self.byte(), self.byte()])
    }

    // The next n bytes, or those that are left.
    pub fn bytes(&mut self, n: usize) -> &'a [u8]
        ensures value { result.now ≡ take n self.old.rest.now }
        ensures rest { self.new.rest.now ≡ drop n self.old.rest.now }
    {
        let (taken, rest) = self.rest.split_at(n.min(self.rest.len()));
        self.rest = rest;
        taken
    }

    // All that is left.
    pub fn rest(self) -> &'a [u8]
        ensures { result.now ≡ self.entry.rest.now }
    {
        self.rest
    }

    // Fills a list with the next bytes, each a number.
    pub fn numbers(&mut self, to: &mut [u16]) {
        for x in to.iter_mut() {
            *x = u16::from(self.byte());
        }
    }
}
