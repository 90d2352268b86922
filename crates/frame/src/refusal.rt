// Refusals: which question got the first "no". Its number is what C is answered and what is printed.
ghost use Rattle.std.specs.Prelude.{◌≡◌, cond};
ghost use Rattle.frame.specs.Refusals.{number_of, refused_by};

use std::fmt;

#[derive(Clone, Copy, Debug, PartialEq, Eq)]
pub enum Refusal {
    Version = 1,
    FileLength = 2,
    TooMany = 3,
    Lengths = 4,
    Values = 5,
    Room = 6,
    Endpoints = 7,
    BodyList = 8,
    Positions = 9,
    LowerTaken = 10,
    HigherTaken = 11,
    NoConstraint = 12,
    NoPair = 13,
}

impl Refusal {
    pub fn number(self) -> u8
        ensures { result ≡ number_of self }
    {
        self as u8
    }
}

// A refusal is printed as its number.
impl fmt::Display for Refusal {
    ghost use Rattle.std.specs.Prelude.{Some};
    ghost use Rattle.std.specs.Fmt.{decimal};

    ghost output = { λ r. Some (decimal (number_of r)) };

    fn fmt<W: fmt::Write>(&self, f: &mut fmt::Formatter<W>) -> fmt::Result {
        let number = self.number();
        write!(f, "{number}")
    }
}

// The number of an answer: its refusal's, or 0.
pub fn refusal_number<T: Drop>(answer: &Result<T, Refusal>) -> u8
    ensures { result ≡ refused_by answer.now }
{
    match answer {
        Ok(_) => 0,
        Err(refusal) => refusal.number(),
    }
}

// A question: its refusal if the answer is "no".
#[inline(always)]
pub fn ask(yes: bool, refusal: Refusal) -> Result<(), Refusal>
    ensures { refused_by result ≡ cond yes 0 (number_of refusal) }
{
    if yes { Ok(()) } else { Err(refusal) }
}
