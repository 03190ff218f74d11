// The lines that `walk` prints, each written whole into a lent buffer or not at all.
#![tactic(auto)]

ghost use Rattle.std.specs.Prelude.{◌≡◌, ◌+◌, ◌≤◌, length};
ghost use Rattle.text.specs.Writing.{PutAt, Wrote};
ghost use Rattle.walk_lines.specs.Lines.{place_fields, place_line, rest_line, refused_line, line_text};

use faceijk::{Place, Rested};
use reply::Refusal;

// A line that `walk` may print.
#[derive(Clone, Copy, Debug, PartialEq, Eq)]
pub enum Line {
    From(Place),
    Over(Place),
    Rest(Rested),
    Refused(Refusal),
}

// No line is longer: `rest`, four numbers of at most 10 digits, one of at most 20, a space before each, and a newline.
pub const LONGEST: usize = 70;

fn put_place(buf: &mut [u8], at: usize, p: Place) -> usize
    requires { at + 54 ≤ length buf.old }
    ensures { PutAt (place_fields p) buf.old buf.new at result }
{
    let face = text::put_spaced(buf, at, u64::from(p.face));
    let i = text::put_spaced(buf, face, u64::from(p.i));
    let j = text::put_spaced(buf, i, u64::from(p.j));
    text::put_spaced(buf, j, u64::from(p.k))
}

fn place_line(buf: &mut [u8; LONGEST], word: &[u8], p: Place) -> usize
    requires { length word.now ≡ 4 }
    ensures { PutAt (place_line word.now p) buf.old buf.new 0 result }
{
    let start = text::put_word(buf, 0, word);
    let end = put_place(buf, start, p);
    text::put_byte(buf, end, b'\n')
}

fn rest_line(buf: &mut [u8; LONGEST], rested: Rested) -> usize
    ensures { PutAt (rest_line rested) buf.old buf.new 0 result }
{
    let place = rested.place;
    let steps = rested.steps;
    let start = text::put_word(buf, 0, b"rest");
    let placed = put_place(buf, start, place);
    let end = text::put_spaced(buf, placed, steps);
    text::put_byte(buf, end, b'\n')
}

fn refused_line(buf: &mut [u8; LONGEST], refusal: Refusal) -> usize
    ensures { PutAt (refused_line refusal) buf.old buf.new 0 result }
{
    let number = refusal.number();
    let start = text::put_word(buf, 0, b"refused");
    let end = text::put_spaced(buf, start, u64::from(number));
    text::put_byte(buf, end, b'\n')
}

// Writes a line at the buffer's start and answers its length. A buffer with fewer than LONGEST bytes stays as it was, and 0 is answered: no line is cut.
pub fn write_line(line: Line, buf: &mut [u8]) -> usize
    ensures { Wrote 70 (line_text line) buf.old buf.new result }
{
    let Some(room) = buf.first_chunk_mut::<LONGEST>() else {
        return 0;
    };
    match line {
        Line::From(place) => place_line(room, b"from", place),
        Line::Over(place) => place_line(room, b"over", place),
        Line::Rest(rested) => rest_line(room, rested),
        Line::Refused(refusal) => refused_line(room, refusal),
    }
}
