// How the desk tool's answers are written into a lent buffer: a value by the letter of its kind, and a refusal's line.
#![tactic(auto)]

ghost use Rattle.std.specs.Prelude.{◌≡◌, ◌+◌, ◌≤◌, ◌<◌, length};
ghost use Rattle.text.specs.Writing.{PutAt};
ghost use Rattle.ask_text.specs.Texts.{overage_text, kind_of, kind_text, field_text, name_of, refused_text};

// What a value is written as: a number, a double by its bits, or a word for how a crossing ended, whether corners agree, or what a point is.
#[derive(Clone, Copy, Debug, PartialEq, Eq)]
enum Kind {
    Number,
    Double,
    Overage,
    Agreed,
    Mark,
}

impl From<u8> for Kind {
    // The kind that a letter stands for; a number where it is none of the others.
    fn from(letter: u8) -> Kind
        ensures { result ≡ kind_of letter }
    {
        match letter {
            b'x' => Kind::Double,
            b'o' => Kind::Overage,
            b'a' => Kind::Agreed,
            b'm' => Kind::Mark,
            _ => Kind::Number,
        }
    }
}

#[tactic(auto, unfolding(crate::specs::Texts::overage_text))]
fn put_overage(buf: &mut [u8], at: usize, v: u64) -> usize
    requires { at + 20 ≤ length buf.old }
    ensures { PutAt (overage_text v) buf.old buf.new at result }
{
    match v {
        0 => text::put_word(buf, at, b"None"),
        1 => text::put_word(buf, at, b"FaceEdge"),
        _ => text::put_word(buf, at, b"NewFace"),
    }
}

#[tactic(auto, unfolding(crate::specs::Texts::agreed_text, crate::specs::Texts::mark_text))]
fn put_value(buf: &mut [u8], at: usize, kind: Kind, v: u64) -> usize
    requires { at + 20 ≤ length buf.old }
    ensures { PutAt (kind_text kind v) buf.old buf.new at result }
{
    match kind {
        Kind::Number => text::put_number(buf, at, v),
        Kind::Double => text::put_hex(buf, at, v),
        Kind::Overage => put_overage(buf, at, v),
        Kind::Agreed => text::put_word(buf, at, if v == 1 { b"yes" } else { b"no" }),
        Kind::Mark => text::put_word(buf, at, if v == 1 { b"corner" } else { b"crossing" }),
    }
}

// A value by the letter of its kind, with a space before each but the first.
#[tactic(auto, unfolding(crate::specs::Texts::field_text, crate::specs::Texts::value_text))]
pub fn put_field(buf: &mut [u8], at: usize, k: usize, kind: u8, v: u64) -> usize
    requires { at + 21 ≤ length buf.old }
    ensures { PutAt (field_text k kind v) buf.old buf.new at result }
{
    if k == 0 {
        return put_value(buf, at, Kind::from(kind), v);
    }
    let next = text::put_byte(buf, at, b' ');
    put_value(buf, next, Kind::from(kind), v)
}

fn put_name(buf: &mut [u8], at: usize, number: u32) -> usize
    requires { (0 < number) × (at + 11 ≤ length buf.old) }
    ensures { PutAt (name_of number) buf.old buf.new at result }
{
    match number {
        1 => text::put_word(buf, at, b"BadFrame"),
        2 => text::put_word(buf, at, b"BadRows"),
        3 => text::put_word(buf, at, b"BadFace"),
        4 => text::put_word(buf, at, b"BadLevel"),
        5 => text::put_word(buf, at, b"BadRange"),
        6 => text::put_word(buf, at, b"BadNumber"),
        7 => text::put_word(buf, at, b"OffSphere"),
        8 => text::put_word(buf, at, b"Behind"),
        9 => text::put_word(buf, at, b"TooFar"),
        10 => text::put_word(buf, at, b"NotReduced"),
        11 => text::put_word(buf, at, b"OutOfFace"),
        12 => text::put_word(buf, at, b"NotAdjacent"),
        13 => text::put_word(buf, at, b"NoCrossing"),
        14 => text::put_word(buf, at, b"BadLine"),
        _ => text::put_word(buf, at, b"BadList"),
    }
}

// The line of a refusal, at the buffer's start.
pub fn write_refused(buf: &mut [u8], number: u32) -> usize
    requires { (31 ≤ length buf.old) × (0 < number) }
    ensures { PutAt (refused_text number) buf.old buf.new 0 result × (result ≤ 31) }
{
    let start = text::put_word(buf, 0, b"refused");
    let numbered = text::put_spaced(buf, start, number as u64);
    let next = text::put_byte(buf, numbered, b' ');
    let end = put_name(buf, next, number);
    text::put_byte(buf, end, b'\n')
}
