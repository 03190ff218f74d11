// The desk tool's answer to one line: the question read, its entry asked, and the answer written as a line, whole into a lent buffer or not at all.
#![tactic(auto)]

ghost use Rattle.std.specs.Prelude.{◌≡◌, ◌+◌, ◌≤◌, ◌<◌, length, get_or};
ghost use Rattle.std.specs.Float.{binary64};
ghost use Rattle.std.specs.Float.Ieee.{to_bits};
ghost use Rattle.reply.specs.Choice.{pick};
ghost use Rattle.text.specs.Writing.{PutAt, Wrote};
ghost use Rattle.lent.specs.Lent.{bits_of};
ghost use Rattle.ask_call.specs.Replies.{kinds_of, values_in};
ghost use Rattle.ask_answer.specs.Answers.{said_answer};
ghost use Rattle.ask_write.specs.Texts.{text_to, shown_of, values_text, answer_text, ask_text};
ghost use Rattle.ask_read.specs.declared.Asked.TheVariants.{Hexagon, Globe6};

use ask_answer::Answer;
use ask_read::Asked;

// No line is longer: 61 values of at most 20 bytes, a space or a newline after each.
pub const LONGEST: usize = 1300;

// The bits of a double. No answer holds a NaN; for one this is the pattern that the definition names.
fn bits(x: f64) -> u64
    ensures { result ≡ to_bits binary64 x }
{
    if x != x {
        return 0x7ff8_0000_0000_0000;
    }
    f64::to_bits(x)
}

// The next value: double d, or number n; 0 past their ends.
fn value_at(a: Answer, double: bool, n: usize, d: usize) -> u64
    ensures { result ≡ pick double (get_or (bits_of a.doubles) d 0) (get_or a.numbers n 0) }
{
    if double {
        return match a.doubles.get(d) {
            Some(&x) => bits(x),
            None => 0,
        };
    }
    match a.numbers.get(n) {
        Some(&v) => v,
        None => 0,
    }
}

// The first n of the values that the kinds name, d of which are doubles so far.
fn put_values(buf: &mut [u8; LONGEST], kinds: &[u8], n: usize, a: Answer) -> usize
    requires { (length kinds.now ≤ 61) × (n ≤ length kinds.now) }
    ensures { PutAt (text_to kinds.now (values_in kinds.now a.numbers (bits_of a.doubles)) n) buf.old buf.new 0 result × (result ≤ 1281) }
{
    let mut at = 0;
    let mut d = 0;
    for k in 0..n {
        let kind = kinds[k];
        let double = kind == b'x';
        let v = value_at(a, double, k - d, d);
        at = ask_text::put_field(buf, at, k, kind, v);
        d += usize::from(double);
    }
    at
}

// How many of the values are shown. A border shows as many points as its count says; more than twelve are all there are.
fn shown(len: usize, count: u64) -> usize
    requires { len ≤ 61 }
    ensures { (result ≡ shown_of len count) × (result ≤ len) }
{
    if len < 49 {
        return len;
    }
    if len as u64 <= count {
        return len;
    }
    let some = 1 + (len - 1) / 12 * (count as usize);
    len.min(some)
}

// The line of the values that the kinds name, a letter for each, which `ask_text` reads: as names of an enum the 61 of a border would be ten lines, and no plainer.
fn write_line(buf: &mut [u8; LONGEST], kinds: &[u8], a: Answer) -> usize
    requires { (length kinds.now ≤ 61) × (1 ≤ length kinds.now) }
    ensures { PutAt (values_text kinds.now (values_in kinds.now a.numbers (bits_of a.doubles))) buf.old buf.new 0 result × (result ≤ 1300) }
{
    let first = value_at(a, kinds[0] == b'x', 0, 0);
    let end = put_values(buf, kinds, shown(kinds.len(), first), a);
    text::put_byte(buf, end, b'\n')
}

// The line of a border on the plane, and of one on the sphere.
fn write_border(buf: &mut [u8; LONGEST], a: Answer) -> usize
    ensures { PutAt (values_text (kinds_of Hexagon) (values_in (kinds_of Hexagon) a.numbers (bits_of a.doubles))) buf.old buf.new 0 result × (result ≤ 1300) }
{
    write_line(buf, b"nnxxmnxxmnxxmnxxmnxxmnxxmnxxmnxxmnxxmnxxmnxxmnxxm", a)
}

fn write_globe(buf: &mut [u8; LONGEST], a: Answer) -> usize
    ensures { PutAt (values_text (kinds_of Globe6) (values_in (kinds_of Globe6) a.numbers (bits_of a.doubles))) buf.old buf.new 0 result × (result ≤ 1300) }
{
    write_line(
        buf,
        b"nnxxxmnxxxmnxxxmnxxxmnxxxmnxxxmnxxxmnxxxmnxxxmnxxxmnxxxmnxxxm",
        a,
    )
}

fn write_values(buf: &mut [u8; LONGEST], asked: Asked, a: Answer) -> usize
    ensures { PutAt (values_text (kinds_of asked) (values_in (kinds_of asked) a.numbers (bits_of a.doubles))) buf.old buf.new 0 result × (result ≤ 1300) }
{
    match asked {
        Asked::Round => write_line(buf, b"nnnxx", a),
        Asked::Centre => write_line(buf, b"xx", a),
        Asked::Meet => write_line(buf, b"xx", a),
        Asked::Turn => write_line(buf, b"nnnn", a),
        Asked::Step => write_line(buf, b"nnnn", a),
        Asked::Cross => write_line(buf, b"nnnno", a),
        Asked::Settle => write_line(buf, b"nnnnn", a),
        Asked::Direction => write_line(buf, b"n", a),
        Asked::Same => write_line(buf, b"a", a),
        Asked::Nearest => write_line(buf, b"nx", a),
        Asked::Place => write_line(buf, b"nnnnxx", a),
        Asked::Corners => write_line(buf, b"nnnnnnnnnnnnnnnnnnn", a),
        Asked::Hexagon => write_border(buf, a),
        Asked::Pentagon => write_border(buf, a),
        Asked::Root => write_line(buf, b"x", a),
        Asked::Sphere => write_line(buf, b"xxx", a),
        Asked::Globe6 => write_globe(buf, a),
        Asked::Globe5 => write_globe(buf, a),
        Asked::First => write_line(buf, b"nnnn", a),
        Asked::Help => 0,
        Asked::Unreadable => 0,
    }
}

// Writes the line of an answer at the buffer's start and answers its length. A buffer with fewer than LONGEST bytes stays as it was, and 0 is answered: no line is cut.
pub fn write_answer(asked: Asked, a: Answer, buf: &mut [u8]) -> usize
    ensures { Wrote 1300 (answer_text asked (said_answer asked a)) buf.old buf.new result }
{
    let Some(room) = buf.first_chunk_mut::<LONGEST>() else {
        return 0;
    };
    let number = a.number;
    if number == 0 {
        return write_values(room, asked, a);
    }
    ask_text::write_refused(room, number)
}

// Writes the answer's line to a question's line, on a frame, at the buffer's start, and answers its length. A buffer with fewer than LONGEST bytes is left unchanged and 0 answered. The help alone has no line: 0 where there is room.
pub fn reply_to(frame: &[f64], line: &[u8], buf: &mut [u8]) -> usize
    ensures { Wrote 1300 (ask_text frame.now line.now) buf.old buf.new result }
{
    let q = ask_read::read_question(line);
    let asked = q.asked;
    let answer = ask_answer::answer_to(frame, q);
    write_answer(asked, answer, buf)
}
