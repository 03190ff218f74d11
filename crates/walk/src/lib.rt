// `walk`: a line that names a place, and the text of its settling, written into a lent buffer by as many whole lines as fit.
#![tactic(auto)]

ghost use Rattle.std.specs.Prelude.{◌≡◌, false, ◌-◌, ◌≤◌, ◌<◌, ltb, length};
ghost use Rattle.level.specs.Levels.{bad_grid, limit_of};
ghost use Rattle.faceijk.specs.Places.{sum_at};
ghost use Rattle.walk_lines.specs.Lines.{line_text};
ghost use Rattle.walk.specs.Texts.{begun_at, Begins, walking_step, step_of};
ghost use Rattle.walk.specs.Writing.{Wrote, PutLine, OneMore};

use faceijk::{Place, Rested};
use level::GridLevel;
use reply::Refusal;
use walk_lines::Line;
use walk_question::Question;

// A walk on its way: the place reached, where it will rest and after how many steps, and the grid.
#[derive(Clone, Copy, Debug, PartialEq, Eq)]
pub struct Walk {
    pub place: Place,
    pub rest: Rested,
    pub level: GridLevel,
    pub substrate: bool,
}

// What is to be printed next: the start, the walk's further lines, a refusal, or nothing.
#[derive(Clone, Copy, Debug, PartialEq, Eq)]
pub enum State {
    Starting(Walk),
    Walking(Walk),
    Refusing(Refusal),
    Finished,
}

// The state from which to go on, and how many bytes were written.
#[derive(Clone, Copy, Debug, PartialEq, Eq)]
pub struct Written {
    pub state: State,
    pub len: usize,
}

fn begin_at(q: Question) -> State
    ensures { result ≡ begun_at q }
{
    let place = q.place;
    let level = q.level;
    let settled = place.settle(level, q.substrate);
    match settled {
        Ok(rest) => State::Starting(Walk {
            place,
            rest,
            level,
            substrate: q.substrate,
        }),
        Err(refusal) => State::Refusing(refusal),
    }
}

// The state in which the walk of an input begins. Input of any length and any bytes is taken.
pub fn begin(input: &[u8]) -> State
    ensures { Begins input.now result }
{
    let reading = walk_question::read_line(input);
    match reading {
        Some(q) => begin_at(q),
        None => State::Refusing(Refusal::BadLine),
    }
}

// Whether the coordinate sum exceeds the limit, so that crossing steps over an edge.
fn is_beyond(p: Place, level: GridLevel, substrate: bool) -> bool
    ensures { bad_grid level.0 ≡ false → result ≡ ltb (limit_of level.0 substrate) (sum_at p) }
{
    let sum = p.sum();
    match level.grid(substrate) {
        Ok(grid) => u64::from(grid.limit) < sum,
        Err(_) => false,
    }
}

// The line of a walk on its way: `over` for a step, `rest` where there is none.
fn walking_step(w: Walk) -> Option<(Line, State)>
    ensures { result ≡ walking_step w }
{
    let place = w.place;
    let level = w.level;
    let rest = w.rest;
    let crossed = place.cross(level, w.substrate, false);
    match crossed {
        Ok(landed) => {
            let next = landed.place;
            if is_beyond(place, level, w.substrate) {
                return Some((
                    Line::Over(next),
                    State::Walking(Walk {
                        place: next,
                        rest,
                        level,
                        substrate: w.substrate,
                    }),
                ));
            }
            Some((Line::Rest(rest), State::Finished))
        }
        Err(refusal) => Some((Line::Refused(refusal), State::Finished)),
    }
}

fn next_line(state: State) -> Option<(Line, State)>
    ensures { result ≡ step_of state }
{
    match state {
        State::Starting(w) => {
            let place = w.place;
            Some((Line::From(place), State::Walking(w)))
        }
        State::Walking(w) => walking_step(w),
        State::Refusing(refusal) => Some((Line::Refused(refusal), State::Finished)),
        State::Finished => None,
    }
}

// Writes a line at an index if it fits there, and answers the index after it; or the same index, and nothing is written.
fn put_line(line: Line, buf: &mut [u8], at: usize) -> usize
    requires { at ≤ length buf.old }
    ensures { PutLine (line_text line) buf.old buf.new at result }
{
    let mut bytes = [0u8; 70];
    let n = walk_lines::write_line(line, &mut bytes);
    if buf.len() - at < n {
        return at;
    }
    text::put_word(buf, at, &bytes[..n])
}

// One line more, if there is one and it fits.
fn one_more(w: Written, buf: &mut [u8]) -> Written
    requires { w.len ≤ length buf.old }
    ensures { OneMore w buf.old buf.new result }
{
    let state = w.state;
    let at = w.len;
    let step = next_line(state);
    match step {
        Some((line, after)) => {
            let end = put_line(line, buf, at);
            if at < end {
                return Written {
                    state: after,
                    len: end,
                };
            }
            Written { state, len: at }
        }
        None => Written { state, len: at },
    }
}

// Writes as many whole lines as fit, from the buffer's start.
pub fn write_lines(state: State, buf: &mut [u8]) -> Written
    ensures { Wrote state buf.old buf.new result }
{
    let mut w = Written { state, len: 0 };
    loop {
        let at = w.len;
        w = one_more(w, buf);
        if w.len == at {
            return w;
        }
    }
}
