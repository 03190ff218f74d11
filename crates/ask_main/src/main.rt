// Reads questions from standard input, a line each, to its end, and answers them in order on standard output, on the default frame.
#![tactic(auto)]

ghost use Rattle.std.specs.Prelude.{◌≡◌, ◌≤◌, ◌+◌, ◌-◌, ◌++◌, length, take, min, OnErr};

use std::error::Error;
use std::io::{Eprint, Read, Write};
use std::{fmt, io};

// A buffer, and how many of its bytes are filled.
#[derive(Drop)]
struct Held<const N: usize> {
    bytes: [u8; N],
    len: usize,
    ghost fits: { len ≤ N },
}

impl<const N: usize> Held<N> {
    fn new() -> Self
        ensures { result.len ≡ 0 }
    {
        Held {
            bytes: [0; N],
            len: 0,
        }
    }

    fn filled(&self) -> &[u8]
        ensures { result.now ≡ take self.now.len self.now.bytes }
    {
        &self.bytes[..self.len]
    }

    fn clear(&mut self)
        ensures { self.new.len ≡ 0 }
    {
        self.len = 0;
    }

    // Keeps as many of the bytes as there is room for.
    fn fill(&mut self, more: &[u8])
        ensures how_many { self.new.len ≡ min (self.old.len + length more.now) N }
        ensures which { take self.new.len self.new.bytes ≡ take self.old.len self.old.bytes ++ take (N - self.old.len) more.now }
    {
        let at = self.len;
        let n = more.len().min(N - at);
        let all = &mut self.bytes[..];
        all[at..at + n].copy_from_slice(&more[..n]);
        self.len = at + n;
    }
}

// What failed. It is said where it fails, nothing more is read or answered, and the exit status stays 0, as it was.
#[derive(Clone, Copy, Debug, PartialEq, Eq, Drop)]
enum Failed {
    Reading,
    Writing,
    Helping,
}

impl fmt::Display for Failed {
    fn fmt<W: fmt::Write>(&self, f: &mut fmt::Formatter<W>) -> fmt::Result {
        f.write_str(match self {
            Failed::Reading => "the input could not be read",
            Failed::Writing => "the answers could not be written",
            Failed::Helping => "the help could not be written",
        })
    }
}

impl Error for Failed {}

// Says what failed; where that fails too, nothing is left to say it to.
fn complain(rt: &impl Eprint, failed: Failed) -> Failed {
    let _ = eprintln!(rt; "ask: {failed}");
    failed
}

// Each question with its form, an example line and what it answers: those on the plane and of faces, of places, of cells, of roots and of the sphere, and the help itself; then why a line is refused.
const HELP: [&str; 25] = [
    "round X Y -- round 0.5 -0.5 -- I J K R1 R2: the coordinates that a plane point rounds to, and what was left over\n",
    "centre I J K -- centre 1 1 0 -- X Y: the plane point of coordinates\n",
    "meet X Y X Y X Y X Y -- meet 0 0 2 2 0 2 2 0 -- X Y: the meeting of two lines, each through two points\n",
    "direction FACE FACE -- direction 0 4 -- 0 the face itself, 1, 2, 3 over that edge, 7 any other\n",
    "nearest X Y Z -- nearest 0 0 1 -- FACE D: the face nearest to a unit vector, and the squared distance\n",
    "turn FACE I J K ccw|cw -- turn 0 1 0 0 ccw -- FACE I J K: the place turned by 60 degrees\n",
    "step FACE LEVEL p|s I J K EDGE -- step 0 0 p 3 0 0 2 -- FACE I J K: the place carried over an edge\n",
    "cross FACE LEVEL p|s I J K yes|no -- cross 0 0 p 3 0 0 no -- FACE I J K None|FaceEdge|NewFace: one crossing\n",
    "settle FACE LEVEL p|s I J K -- settle 0 0 p 3 0 0 -- FACE I J K STEPS: crossings until the place rests\n",
    "same LEVEL FACE I J K FACE I J K -- same 0 4 4 0 2 0 4 2 0 -- yes or no: whether two places are names of one corner\n",
    "first FACE LEVEL I J K -- first 4 0 4 0 2 -- FACE I J K: the first name of a corner, that of its lowest face\n",
    "place LEVEL X Y Z -- place 3 0 0 1 -- FACE I J K R1 R2: the place of a unit vector, and what was left over\n",
    "corners FACE LEVEL I J K -- corners 0 0 1 0 0 -- LEVEL, then I J K of each of the six corners of a cell\n",
    "hexagon FACE LEVEL I J K START LENGTH -- hexagon 0 1 1 0 0 0 6 -- COUNT, then FACE X Y corner|crossing of each point\n",
    "pentagon FACE LEVEL I J K START LENGTH -- pentagon 0 1 6 0 2 0 5 -- COUNT, then FACE X Y corner|crossing of each point\n",
    "root X -- root 2 -- R: the square root of a double\n",
    "sphere FACE LEVEL X Y -- sphere 0 0 1 0 -- X Y Z: the unit vector of a plane point of a face\n",
    "globe6 FACE LEVEL I J K START LENGTH -- globe6 0 1 1 0 0 0 6 -- COUNT, then FACE X Y Z corner|crossing of each point\n",
    "globe5 FACE LEVEL I J K START LENGTH -- globe5 0 1 6 0 2 0 5 -- COUNT, then FACE X Y Z corner|crossing of each point\n",
    "help -- help -- these lines\n",
    "any question may be refused: refused NUMBER NAME, and the README says what each number means\n",
    "a line is refused 14 BadLine if its first word is none of these, if a field is missing or one too many, or if two spaces stand together or one at either end\n",
    "a number is refused if it has a sign, a leading zero, a letter, or is 4294967296 or more\n",
    "a double (X, Y, Z) is the 16 hex digits of its bits, or a decimal such as 12, -0.5 or 0.1, which is rounded to the nearest double; it is refused if it has more than 15 digits, an exponent, a plus, a leading zero as 01 has, or no digit before or after its point\n",
    "the words p, s, ccw, cw, yes and no are written just so\n",
];

// Each line is tried, whether or not those before it could be written.
fn print_help(rt: &impl Print) -> io::Result<()> {
    let mut said = Ok(());
    for line in HELP {
        let written = io::writer(rt).write_all(line.as_bytes());
        said = said.and(written);
    }
    said
}

// Writes the answers that are held, and holds none from then on, written or not.
fn hand_over(rt: &(impl Print + Eprint), answers: &mut Held<65536>) -> Result<(), Failed>
    ensures { answers.new.len ≡ 0 }
{
    let written = io::writer(rt).write_all(answers.filled());
    answers.clear();
    match written {
        Ok(()) => Ok(()),
        Err(_) => Err(complain(rt, Failed::Writing)),
    }
}

// The help has no answer's line: it is said at once, after what is held, and tried even where that could not be written.
fn help(rt: &(impl Print + Eprint), answers: &mut Held<65536>) -> Result<(), Failed>
    ensures { answers.new.len ≡ 0 }
{
    let handed = hand_over(rt, answers);
    let helped = print_help(rt);
    handed?;
    match helped {
        Ok(()) => Ok(()),
        Err(_) => Err(complain(rt, Failed::Helping)),
    }
}

// Answers a line into the buffer: what may leave too little room for any answer is written first. Where it could not be, no answer is held, but the help is tried.
fn answer(
    rt: &(impl Print + Eprint),
    frame: &[f64],
    line: &[u8],
    answers: &mut Held<65536>,
) -> Result<(), Failed>
    ensures { OnErr result (answers.new.len ≡ 0) }
{
    let mut handed = Ok(());
    if 65536 - answers.len < ask_write::LONGEST {
        handed = hand_over(rt, answers);
    }
    let at = answers.len;
    let n = ask_write::reply_to(frame, line, &mut answers.bytes[at..]);
    if (n == 0) & handed.is_ok() {
        return help(rt, answers);
    }
    if n == 0 {
        let _ = print_help(rt);
    }
    handed?;
    answers.len = at + n;
    Ok(())
}

// Takes the last bytes of a line, up to its newline, of which a carriage return is a part. A line that fills its buffer is longer than any good one.
fn end_line(
    rt: &(impl Print + Eprint),
    frame: &[f64],
    line: &mut Held<512>,
    bytes: &[u8],
    answers: &mut Held<65536>,
) -> Result<(), Failed>
    ensures ended { line.new.len ≡ 0 }
    ensures emptied { OnErr result (answers.new.len ≡ 0) }
{
    if line.len == 0 {
        let n = ask_read::without_end(bytes, b'\r');
        return answer(rt, frame, &bytes[..n], answers);
    }
    line.fill(bytes);
    let all = line.filled();
    let n = ask_read::without_end(all, b'\r');
    let answered = answer(rt, frame, &all[..n], answers);
    line.clear();
    answered
}

// Ends a line at each newline of bytes, and keeps what stands after the last one.
fn take_bytes(
    rt: &(impl Print + Eprint),
    frame: &[f64],
    line: &mut Held<512>,
    bytes: &[u8],
    answers: &mut Held<65536>,
) -> Result<(), Failed>
    ensures { OnErr result (answers.new.len ≡ 0) }
{
    let mut rest = bytes;
    while let Some(end) = rest.iter().position(|b| *b == b'\n') {
        end_line(rt, frame, line, &rest[..end], answers)?;
        rest = &rest[end + 1..];
    }
    line.fill(rest);
    Ok(())
}

// Takes the whole input, and writes its answers before more is read, so that a person sees them at once. A proved loop has to end and no input has to, so the turns are as many as no run uses up.
fn take_all(
    rt: &(impl Input + Print + Eprint),
    frame: &[f64],
    line: &mut Held<512>,
    bytes: &mut [u8],
    answers: &mut Held<65536>,
) -> Result<(), Failed>
    ensures { answers.new.len ≡ 0 }
{
    answers.clear();
    let mut input = rt.reader();
    for _turn in 0..u64::MAX {
        let n = match input.read(bytes) {
            Ok(n) => n,
            Err(_) => return Err(complain(rt, Failed::Reading)),
        };
        if n == 0 {
            break;
        }
        take_bytes(rt, frame, line, &bytes[..n], answers)?;
        hand_over(rt, answers)?;
    }
    Ok(())
}

// What follows the last newline is a line too, unless nothing does.
fn answer_all(rt: &(impl Input + Print + Eprint)) -> Result<(), Failed> {
    let frame = frame::default_frame();
    let mut line = Held::<512>::new();
    let mut bytes = [0u8; 65536];
    let mut answers = Held::<65536>::new();
    take_all(rt, &frame, &mut line, &mut bytes, &mut answers)?;
    if line.len > 0 {
        answer(rt, &frame, line.filled(), &mut answers)?;
        hand_over(rt, &mut answers)?;
    }
    Ok(())
}

fn main(rt: HostRuntime) {
    let _ = answer_all(&rt);
}
