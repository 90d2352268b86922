// Fields of a print, written one behind another: a number, and a word with a number. Internal: the caller has room.
#![tactic(auto)]

ghost use Rattle.std.specs.Prelude.{◌≡◌, ◌∷◌, [], ◌++◌, ◌+◌, ◌≤◌, ◌<◌, length};
ghost use Rattle.schedules.specs.Print.{decimal};
ghost use Rattle.writer.specs.Wrote.{Wrote};

use writer::Writer;

// A number.
fn put_decimal(line: &mut Writer<'_>, n: usize)
    requires { line.old.at + 20 ≤ length line.old.out.now }
    ensures { Wrote (decimal n) line.old line.new }
{
    let mut buffer = itoa::Buffer::new();
    let digits = buffer.format(n).as_bytes();
    line.put_word(digits);
}

// A number and the byte that ends its field: a space or a newline.
pub fn put_number(line: &mut Writer<'_>, n: usize, end: u8)
    requires { line.old.at + 21 ≤ length line.old.out.now }
    ensures { Wrote (decimal n ++ end ∷ []) line.old line.new }
{
    put_decimal(line, n);
    line.put_byte(end);
}

// A word, a space, and a number with its end.
pub fn put_field(line: &mut Writer<'_>, word: &[u8], n: usize, end: u8)
    requires { line.old.at + length word.now + 22 ≤ length line.old.out.now }
    ensures { Wrote ((word.now ++ 32 ∷ []) ++ (decimal n ++ end ∷ [])) line.old line.new }
{
    line.put_word(word);
    line.put_byte(b' ');
    put_number(line, n, end);
}
