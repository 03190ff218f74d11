// Bytes, words and numbers put into a lent buffer at an index: each answers the index after. The lines of `walk` and `ask` stand on them.
#![tactic(auto)]

ghost use Rattle.std.specs.Prelude.{[], ◌∷◌, ◌+◌, ◌≤◌, ◌<◌, length};
ghost use Rattle.text.specs.Numbers.{decimal, hex, field};
ghost use Rattle.text.specs.Writing.{PutAt};

pub fn put_byte(buf: &mut [u8], at: usize, b: u8) -> usize
    requires { at < length buf.old }
    ensures { PutAt (b ∷ []) buf.old buf.new at result }
{
    buf[at] = b;
    at + 1
}

pub fn put_word(buf: &mut [u8], at: usize, word: &[u8]) -> usize
    requires { at + length word.now ≤ length buf.old }
    ensures { PutAt word.now buf.old buf.new at result }
{
    let end = at + word.len();
    buf[at..end].copy_from_slice(word);
    end
}

// A number in decimal: at most 20 digits.
pub fn put_number(buf: &mut [u8], at: usize, n: u64) -> usize
    requires { at + 20 ≤ length buf.old }
    ensures { PutAt (decimal n) buf.old buf.new at result }
{
    let mut digits = [0u8; 20];
    let k = io::decimal(n, &mut digits);
    put_word(buf, at, &digits[..k])
}

// The sixteen hexadecimal digits of a number, as of a double's bits.
pub fn put_hex(buf: &mut [u8], at: usize, n: u64) -> usize
    requires { at + 16 ≤ length buf.old }
    ensures { PutAt (hex n) buf.old buf.new at result }
{
    let mut digits = [0u8; 16];
    let k = io::hex(n, 16, &mut digits);
    put_word(buf, at, &digits[..k])
}

// A space, and a number in decimal.
pub fn put_spaced(buf: &mut [u8], at: usize, n: u64) -> usize
    requires { at + 21 ≤ length buf.old }
    ensures { PutAt (field n) buf.old buf.new at result }
{
    let next = put_byte(buf, at, b' ');
    put_number(buf, next, n)
}
