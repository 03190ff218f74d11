// Plane points, `Vec2d` of the source: rounding to a hexagon with what is left over, the centre of a hexagon, where two lines meet, and near-equality.
#![tactic(auto)]

ghost use Rattle.std.specs.Prelude.{◌≡◌, ◌≤◌, ◌<◌, ◌^◌};
ghost use Rattle.reply.specs.Choice.{pick};
ghost use Rattle.vec2d.specs.Points.{point, is_point, said_pointed};
ghost use Rattle.vec2d.specs.Rounding.{too_far, inside, round_verdict, Near, quantized_of, steps, steps_of, raised_by, fold_of, found_of, said_rounded, round_reply};
ghost use Rattle.vec2d.specs.Nearest.{Shown};
ghost use Rattle.vec2d.specs.Centre.{centre_of, centre_reply};
ghost use Rattle.vec2d.specs.Meeting.{along, divisor_of, share_of, reached_of, crossing_of, met_of, is_line, meet_reply};
ghost use Rattle.vec2d.specs.Closeness.{within, close, said_alike, alike_reply};

use coordijk::CoordIJK;
use reply::Refusal;
use std::hint;

#[derive(Clone, Copy, Debug, PartialEq)]
pub struct Vec2d {
    pub x: f64,
    pub y: f64,
}

#[derive(Clone, Copy, Debug, PartialEq)]
pub struct Line {
    pub from: Vec2d,
    pub to: Vec2d,
}

// What is left of a point's two coordinates without their whole parts: each at least 0 and below 1.
#[derive(Clone, Copy, Debug, PartialEq)]
pub struct Leftovers {
    pub r1: f64,
    pub r2: f64,
}

// The hexagon of a point, and the leftovers by which it was chosen.
#[derive(Clone, Copy, Debug, PartialEq)]
pub struct Found {
    pub hexagon: CoordIJK,
    pub left: Leftovers,
}

// The whole parts m1, m2 of a point's two coordinates and the leftovers r1, r2.
#[derive(Clone, Copy)]
struct Quantized {
    pub m1: u32,
    pub m2: u32,
    pub r1: f64,
    pub r2: f64,
}

// Whether the hexagon is one past the whole part, in either coordinate. Public for the margin.
#[derive(Clone, Copy, Debug, PartialEq, Eq)]
pub struct Steps {
    pub i: bool,
    pub j: bool,
}

// A hexagon of the quarter where x and y are not below zero.
#[derive(Clone, Copy)]
struct Axial {
    pub i: u32,
    pub j: u32,
}

// What the meeting formula gives: its divisor, and the point.
#[derive(Clone, Copy, Debug, PartialEq)]
pub struct Crossing {
    pub divisor: f64,
    pub at: Vec2d,
}

impl Steps {
    fn new(i: bool, j: bool) -> Steps
        ensures { result ≡ steps i j }
    {
        Steps { i, j }
    }

    // One of two, as sums of tests: no branch is taken, so none is guessed wrong.
    fn either(yes: bool, a: Steps, b: Steps) -> Steps
        ensures { result ≡ pick yes a b }
    {
        Steps {
            i: (yes & a.i) | (!yes & b.i),
            j: (yes & a.j) | (!yes & b.j),
        }
    }
}

// Which hexagon, by the two leftovers alone: four stripes of r1 in the source's order, and in each one test for i and one for j. Public for the margin.
pub fn chosen(r1: f64, r2: f64) -> Steps
    ensures { result ≡ steps_of r1 r2 }
{
    let past = r2 >= 1.0 - r1;
    let below_third = Steps::new(false, r2 >= (1.0 + r1) / 2.0);
    let below_half = Steps::new(past & (r2 < 2.0 * r1), past);
    let below_two_thirds = Steps::new((r2 <= 2.0 * r1 - 1.0) | past, past);
    let rest = Steps::new(true, r2 >= r1 / 2.0);
    Steps::either(
        r1 < 0.5,
        Steps::either(r1 < 1.0 / 3.0, below_third, below_half),
        Steps::either(r1 < 2.0 / 3.0, below_two_thirds, rest),
    )
}

// m, or the next number where `up` says so.
fn raised(m: u32, up: bool) -> u32
    requires { m < 2 ^ 26 }
    ensures raises { result ≡ raised_by up m }
    ensures bounded { result ≤ 2 ^ 26 }
{
    if up { m + 1 } else { m }
}

impl Axial {
    // The folds: for x < 0 the first coordinate becomes j - i, and for y < 0 it becomes i - j while j changes sign. They mirror the hexagon, whose centre
    // lies at x = i - j/2 and y = j·sin 60°; the source's offset for j's parity cancels. What stands here is the same without a number below zero, since one
    // number added to all three coordinates changes nothing once they are reduced; and without a branch to be guessed wrong, since both numbers are at hand.
    fn fold(self, left: bool, down: bool) -> CoordIJK
        requires { (self.i ≤ 2 ^ 26) × (self.j ≤ 2 ^ 26) }
        ensures { result ≡ fold_of left down self.i self.j }
    {
        let i = self.i;
        let j = self.j;
        // x < 0: j - i, j, 0. With j taken off that is -i, 0, -j, and reduced with the greater of i and j added.
        let most = i.max(j);
        let first = hint::select_unpredictable(left, most - i, i);
        let second = hint::select_unpredictable(left, most, j);
        let third = hint::select_unpredictable(left, most - j, 0);
        // y < 0: i - j, -j, 0. With j added that is i, 0, j: the last two change places, after the other fold too.
        CoordIJK::new(
            first,
            hint::select_unpredictable(down, third, second),
            hint::select_unpredictable(down, second, third),
        )
    }
}

impl Vec2d {
    // Two points are equal if both parts differ by at most 2^-23.
    pub const TOLERANCE: f64 = 0.00000011920928955078125;

    // A part of size 2^25 or more is too far to be rounded.
    pub const LIMIT: f64 = 33554432.0;

    // 1 / sin 60 degrees.
    pub const RSIN60: f64 = 1.1547005383792515;

    pub const SIN60: f64 = 0.8660254037844386;

    pub fn new(x: f64, y: f64) -> Vec2d
        ensures { result ≡ point x y }
    {
        Vec2d { x, y }
    }

    fn is_point(self) -> bool
        ensures { result ≡ is_point self }
    {
        double::is_finite(self.x) & double::is_finite(self.y)
    }

    fn is_far(self) -> bool
        ensures { result ≡ too_far self }
    {
        (double::size(self.x) >= Vec2d::LIMIT) | (double::size(self.y) >= Vec2d::LIMIT)
    }

    // Whether both parts lie between -2^25 and 2^25: such a point is finite too, and is taken.
    fn is_inside(self) -> bool
        ensures { result ≡ inside self }
    {
        (self.x < Vec2d::LIMIT)
            & (-Vec2d::LIMIT < self.x)
            & (self.y < Vec2d::LIMIT)
            & (-Vec2d::LIMIT < self.y)
    }

    fn verdict(self) -> Result<(), Refusal>
        ensures { result ≡ round_verdict self }
    {
        if self.is_inside() {
            return Ok(());
        }
        let bad = !self.is_point();
        let far = self.is_far();
        if bad {
            return Err(Refusal::BadNumber);
        }
        if far {
            return Err(Refusal::TooFar);
        }
        Ok(())
    }

    // Whole parts and leftovers together.
    fn quantize(self) -> Quantized
        requires { Near self }
        ensures quantizes { result ≡ quantized_of self }
        ensures bounded { (result.m1 < 2 ^ 26) × (result.m2 < 2 ^ 26) }
    {
        let x2 = double::magnitude(self.y) * Vec2d::RSIN60;
        let x1 = double::magnitude(self.x) + x2 / 2.0;
        let first = double::split(x1);
        let second = double::split(x2);
        Quantized {
            m1: first.whole,
            m2: second.whole,
            r1: first.left,
            r2: second.left,
        }
    }

    fn nearest(self) -> Found
        requires { Near self }
        ensures { result ≡ found_of self }
    {
        let q = self.quantize();
        let s = chosen(q.r1, q.r2);
        let hexagon = Axial {
            i: raised(q.m1, s.i),
            j: raised(q.m2, s.j),
        }
        .fold(self.x < 0.0, self.y < 0.0);
        Found {
            hexagon,
            left: Leftovers { r1: q.r1, r2: q.r2 },
        }
    }

    // The hexagon and the leftovers of the point x, y. The two stand apart, so that they come in registers: a point read back from memory at once costs a third more.
    fn rounded(x: f64, y: f64) -> Result<Found, Refusal>
        ensures replies { said_rounded result ≡ round_reply (point x y) }
        ensures shown { Shown (point x y) result }
    {
        let at = Vec2d::new(x, y);
        at.verdict()?;
        Ok(at.nearest())
    }

    // The hexagon that holds the point, `From<Vec2d> for CoordIJK` of the source, and the leftovers that its branches saw. Its centre is shown to be the nearest.
    pub fn to_ijk(self) -> Result<Found, Refusal>
        ensures replies { said_rounded result ≡ round_reply self }
        ensures shown { Shown self result }
    {
        Vec2d::rounded(self.x, self.y)
    }

    // The centre of a hexagon by the bare formula, of any triple; boundaries use it.
    pub fn from_ijk(c: CoordIJK) -> Vec2d
        ensures { result ≡ centre_of c }
    {
        let k = c.k as f64;
        let i = (c.i as f64) - k;
        let j = (c.j as f64) - k;
        Vec2d::new(i - j / 2.0, j * Vec2d::SIN60)
    }

    // The centre of a hexagon.
    pub fn centre(c: CoordIJK) -> Result<Vec2d, Refusal>
        ensures { said_pointed result ≡ centre_reply c }
    {
        c.verdict()?;
        Ok(Vec2d::from_ijk(c))
    }

    // Whether both parts differ by at most the tolerance, of any two points; boundaries use it.
    pub fn is_close(self, other: Vec2d) -> bool
        ensures { result ≡ close self other }
    {
        is_within(self.x, other.x) & is_within(self.y, other.y)
    }

    // Near-equality of two points.
    pub fn alike(self, other: Vec2d) -> Result<bool, Refusal>
        ensures { said_alike result ≡ alike_reply self other }
    {
        if self.is_point() & other.is_point() {
            return Ok(self.is_close(other));
        }
        Err(Refusal::BadNumber)
    }
}

fn is_within(a: f64, b: f64) -> bool
    ensures { result ≡ within a b }
{
    double::size(a - b) <= Vec2d::TOLERANCE
}

fn divisor(s1: Vec2d, s2: Vec2d) -> f64
    ensures { result ≡ divisor_of s1 s2 }
{
    double::mul_add(-s2.x, s1.y, s1.x * s2.y)
}

// How far along the line from p the line from q in the direction s is met.
fn share(p: Vec2d, q: Vec2d, s: Vec2d, divisor: f64) -> f64
    ensures { result ≡ share_of p q s divisor }
{
    double::mul_add(s.x, p.y - q.y, -s.y * (p.x - q.x)) / divisor
}

fn reached(p: Vec2d, s: Vec2d, t: f64) -> Vec2d
    ensures { result ≡ reached_of p s t }
{
    Vec2d::new(double::mul_add(t, s.x, p.x), double::mul_add(t, s.y, p.y))
}

impl Crossing {
    // The point, unless the divisor is zero or a result is not finite. Boundaries use it.
    pub fn met(self) -> Result<Vec2d, Refusal>
        ensures { result ≡ met_of self }
    {
        let at = self.at;
        if self.divisor == 0.0 {
            return Err(Refusal::NoCrossing);
        }
        if at.is_point() {
            return Ok(at);
        }
        Err(Refusal::NoCrossing)
    }
}

impl Line {
    fn along(self) -> Vec2d
        ensures { result ≡ along self }
    {
        Vec2d::new(self.to.x - self.from.x, self.to.y - self.from.y)
    }

    fn is_line(self) -> bool
        ensures { result ≡ is_line self }
    {
        self.from.is_point() & self.to.is_point()
    }

    // The formula of `Vec2d::intersection` on any two lines; boundaries use it.
    pub fn crossing(self, other: Line) -> Crossing
        ensures { result ≡ crossing_of self other }
    {
        let s1 = self.along();
        let s2 = other.along();
        let below = divisor(s1, s2);
        let t = share(self.from, other.from, s2, below);
        Crossing {
            divisor: below,
            at: reached(self.from, s1, t),
        }
    }

    // Where two lines meet.
    pub fn meet(self, other: Line) -> Result<Vec2d, Refusal>
        ensures { said_pointed result ≡ meet_reply self other }
    {
        if self.is_line() & other.is_line() {
            return self.crossing(other).met();
        }
        Err(Refusal::BadNumber)
    }
}
