// Places on the twenty faces, `FaceIJK` of the source: reducing, turning, stepping over an edge, crossing, settling.
#![tactic(auto)]

ghost use Rattle.std.specs.Prelude.{◌≡◌, ◌<◌, ◌≤◌};
ghost use Rattle.level.specs.Levels.{Sound, grid_of};
ghost use Rattle.coordijk.specs.Coordinates.{reduced};
ghost use Rattle.faceijk.specs.Places.{place, coord_of, same_place, sum_at, QAt, Okay, Ready, place_verdict, edge_verdict, over_edge_verdict, on_grid_of};
ghost use Rattle.faceijk.specs.Faces.{face_over, word_over, dir_to, direction_number};
ghost use Rattle.faceijk.specs.Steps.{polar, step_of};
ghost use Rattle.faceijk.specs.Crossing.{edge_out, about_corner, start_out, step_out, landed, on_edge, crossing_of, settle_from};
ghost use Rattle.faceijk.specs.Entries.{reduce_of, said_moved, turn_map, turn_reply, step_reply, overage_number, said_crossed, cross_reply, said_settled, settle_reply, said_directed, direction_reply};

use coordijk::{CoordIJK, GridMap};
use level::{Grid, GridLevel};
use reply::Refusal;
use std::fmt;

#[derive(Clone, Copy, Debug, PartialEq, Eq)]
pub struct Place {
    pub face: u32,
    pub i: u32,
    pub j: u32,
    pub k: u32,
}

// How a crossing ended, with the paper's number.
#[derive(Clone, Copy, Debug, PartialEq, Eq)]
pub enum Overage {
    None = 0,
    FaceEdge = 1,
    NewFace = 2,
}

// Where a crossing ended, and how.
#[derive(Clone, Copy, Debug, PartialEq, Eq)]
pub struct Landed {
    pub place: Place,
    pub overage: Overage,
}

// Where settling ended, and after how many steps over an edge.
#[derive(Clone, Copy, Debug, PartialEq, Eq)]
pub struct Rested {
    pub place: Place,
    pub steps: u64,
}

// Where another face lies, with the paper's direction number.
#[derive(Clone, Copy, Debug, PartialEq, Eq)]
pub enum Direction {
    Itself = 0,
    OverIJ = 1,
    OverKI = 2,
    OverJK = 3,
    Elsewhere = 7,
}

fn placed(face: u32, c: CoordIJK) -> Place
    ensures { result ≡ place face c }
{
    Place::new(face, c.i, c.j, c.k)
}

fn landing(place: Place, overage: Overage) -> Landed
    ensures { result ≡ landed place overage }
{
    Landed { place, overage }
}

fn turn_map(clockwise: bool) -> GridMap
    ensures { result ≡ turn_map clockwise }
{
    if clockwise {
        GridMap::SixthTurnCw
    } else {
        GridMap::SixthTurnCcw
    }
}

fn reduced_at(face: u32, i: u32, j: u32, k: u32) -> Place
    ensures { result ≡ place face (reduced i j k) }
{
    placed(face, CoordIJK::new(i, j, k).reduce())
}

// The faces over an edge, five bits a face from the lowest on: those of faces 0..9, or those of 10..19. Words and not a table, since a
// table of sixty would be laid out in memory anew at each reading.
fn faces_over(edge: u32, low: bool) -> u64
    ensures { result ≡ word_over edge low }
{
    if edge == 1 {
        if low {
            return 507299327181828;
        }
        return 549293577739461;
    }
    if edge == 2 {
        if low {
            return 470980141124673;
        }
        return 652576900292838;
    }
    if low {
        return 144105826163909;
    }
    507299344500239
}

// The place in the word is the face's remainder by ten, without the multiplication that settling would wait for at each step.
fn face_over(face: u32, edge: u32) -> u32
    requires { (face < 20) × (1 ≤ edge) × (edge ≤ 3) }
    ensures { result ≡ face_over face edge }
{
    let low = face < 10;
    let at = if low { face } else { face - 10 };
    ((faces_over(edge, low) >> (5 * at)) % 32) as u32
}

fn is_polar(face: u32) -> bool
    ensures { result ≡ polar face }
{
    (face < 5) | (14 < face)
}

// The direction from a face to another. Public for boundaries, as `Place::over`.
pub fn direction_to(from: u32, to: u32) -> Direction
    requires { from < 20 }
    ensures { direction_number result ≡ dir_to from to }
{
    if from == to {
        return Direction::Itself;
    }
    if face_over(from, 1) == to {
        return Direction::OverIJ;
    }
    if face_over(from, 2) == to {
        return Direction::OverKI;
    }
    if face_over(from, 3) == to {
        return Direction::OverJK;
    }
    Direction::Elsewhere
}

// The edge that leads back from the face over an edge, without a search: among the faces about a pole IJ and KI lead back over each other,
// any other edge over itself. Public for boundaries, as `Place::over`.
pub fn back_edge(face: u32, edge: u32) -> u32
    requires { (face < 20) × (1 ≤ edge) × (edge ≤ 3) }
    ensures { result ≡ dir_to (face_over face edge) face }
{
    if (edge < 3) & is_polar(face) {
        3 - edge
    } else {
        edge
    }
}

// The direction from one face to another.
pub fn face_direction(from: u32, to: u32) -> Result<Direction, Refusal>
    ensures { said_directed result ≡ direction_reply from to }
{
    if (Place::LAST_FACE < from) | (Place::LAST_FACE < to) {
        return Err(Refusal::BadFace);
    }
    Ok(direction_to(from, to))
}

impl Overage {
    pub fn number(self) -> u32
        ensures { result ≡ overage_number self }
    {
        self as u32
    }
}

impl Direction {
    pub fn number(self) -> u32
        ensures { result ≡ direction_number self }
    {
        self as u32
    }
}

// Face, i, j, k.
impl fmt::Display for Place {
    fn fmt<W: fmt::Write>(&self, f: &mut fmt::Formatter<W>) -> fmt::Result {
        write!(f, "{} {} {} {}", self.face, self.i, self.j, self.k)
    }
}

impl Place {
    pub const LAST_FACE: u32 = 19;

    pub fn new(face: u32, i: u32, j: u32, k: u32) -> Place
        ensures { result ≡ record { face = face; i = i; j = j; k = k } }
    {
        Place { face, i, j, k }
    }

    pub fn coord(self) -> CoordIJK
        ensures { result ≡ coord_of self }
    {
        CoordIJK::new(self.i, self.j, self.k)
    }

    pub fn is_same(self, other: Place) -> bool
        ensures { result ≡ same_place self other }
    {
        self == other
    }

    // The least coordinate taken from all three; any place is taken, and its face stays.
    pub fn reduce(self) -> Place
        ensures { result ≡ reduce_of self }
    {
        reduced_at(self.face, self.i, self.j, self.k)
    }

    // Whether the place is taken: a face 0..19, reduced, and no coordinate above 2^26.
    pub fn verdict(self) -> Result<(), Refusal>
        ensures { result ≡ place_verdict self }
    {
        if Place::LAST_FACE < self.face {
            return Err(Refusal::BadFace);
        }
        self.coord().verdict()
    }

    // The tests that follow those of face and level.
    fn over_edge(self, grid: Grid, bad_edge: bool) -> Result<Grid, Refusal>
        ensures { result ≡ on_grid_of (edge_verdict self bad_edge) grid }
    {
        if bad_edge {
            return Err(Refusal::BadRange);
        }
        self.coord().verdict()?;
        Ok(grid)
    }

    // The tests of an entry on a grid, in the order of their numbers.
    fn on_grid(self, level: GridLevel, substrate: bool, bad_edge: bool) -> Result<Grid, Refusal>
        ensures { result ≡ on_grid_of (over_edge_verdict self level.0 bad_edge) (grid_of level.0 substrate) }
    {
        if Place::LAST_FACE < self.face {
            return Err(Refusal::BadFace);
        }
        let grid = level.grid(substrate)?;
        self.over_edge(grid, bad_edge)
    }

    // A sixth turn about the face's centre.
    pub fn turn(self, clockwise: bool) -> Result<Place, Refusal>
        ensures { said_moved result ≡ turn_reply self clockwise }
    {
        if Place::LAST_FACE < self.face {
            return Err(Refusal::BadFace);
        }
        let c = self.coord().map(turn_map(clockwise))?;
        Ok(placed(self.face, c))
    }

    // The step over an edge: the table's turns and translations, as sums. Public for boundaries and names, which have tested place and grid.
    pub fn over(self, edge: u32, grid: Grid) -> Place
        requires { Ready self × (self.face < 20) × (1 ≤ edge) × (edge ≤ 3) × Sound grid }
        ensures { result ≡ step_of self edge grid.unit }
    {
        let face = face_over(self.face, edge);
        let m = grid.limit;
        let a = self.i + self.j;
        let b = self.j + self.k;
        let c = self.k + self.i;
        if edge == 3 {
            return reduced_at(face, b, c + m, a + m);
        }
        if is_polar(self.face) {
            if edge == 1 {
                return reduced_at(face, c + m, a, b + m);
            }
            return reduced_at(face, a + m, b + m, c);
        }
        if edge == 1 {
            return reduced_at(face, b + m, c + m, a);
        }
        reduced_at(face, b + m, c, a + m)
    }

    // The bare step over a named edge: 1 is IJ, 2 is KI, 3 is JK.
    pub fn step(self, level: GridLevel, substrate: bool, edge: u32) -> Result<Place, Refusal>
        ensures { said_moved result ≡ step_reply self level.0 substrate edge }
    {
        let grid = self.on_grid(level, substrate, (edge < 1) | (3 < edge))?;
        Ok(self.over(edge, grid))
    }

    // s of the paper, which crossing compares with the limit.
    pub fn sum(self) -> u64
        ensures { result ≡ sum_at self }
    {
        u64::from(self.i) + u64::from(self.j) + u64::from(self.k)
    }

    // The edge that crossing steps over.
    fn edge_out(self) -> u32
        ensures { result ≡ edge_out self }
    {
        if 0 < self.k {
            if 0 < self.j { 3 } else { 2 }
        } else {
            1
        }
    }

    // The sixth turn CW about (m,0,0): m more in j and k is m less in i.
    fn about_corner(self, m: u32) -> Place
        requires { Okay self × (m < 67108864) }
        ensures { result ≡ place self.face (about_corner m (coord_of self)) }
    {
        let j = self.j + m;
        let k = self.k + m;
        let turned = CoordIJK::new(self.i + j, j + k, k + self.i).reduce();
        reduced_at(self.face, turned.i + m, turned.j, turned.k)
    }

    // Where the step starts: after the pentagon turn, if that is asked and the edge is KI.
    fn start(self, turn: bool, edge: u32, grid: Grid) -> Place
        requires { Okay self × Sound grid }
        ensures { result ≡ start_out turn edge grid self }
    {
        if turn & (edge == 2) {
            return self.about_corner(grid.limit);
        }
        self
    }

    // The step that crossing makes.
    fn out(self, turn: bool, grid: Grid) -> Place
        requires { Okay self × Sound grid }
        ensures { result ≡ step_out turn grid self }
    {
        let edge = self.edge_out();
        let start = self.start(turn, edge, grid);
        start.over(edge, grid)
    }

    fn on_edge(self, grid: Grid) -> bool
        ensures { result ≡ on_edge grid self }
    {
        grid.substrate & (self.sum() == u64::from(grid.limit))
    }

    // Crossing on a grid. Public for boundaries, as above.
    pub fn crossed(self, turn: bool, grid: Grid) -> Landed
        requires { Okay self × Sound grid }
        ensures { result ≡ crossing_of turn grid self }
    {
        if self.on_edge(grid) {
            return landing(self, Overage::FaceEdge);
        }
        if u64::from(grid.limit) < self.sum() {
            let next = self.out(turn, grid);
            if next.on_edge(grid) {
                return landing(next, Overage::FaceEdge);
            }
            return landing(next, Overage::NewFace);
        }
        landing(self, Overage::None)
    }

    // `adjust_overage_class2` of the source, with or without the pentagon turn.
    pub fn cross(self, level: GridLevel, substrate: bool, turn: bool) -> Result<Landed, Refusal>
        ensures { said_crossed result ≡ cross_reply self level.0 substrate turn }
    {
        let grid = self.on_grid(level, substrate, false)?;
        Ok(self.crossed(turn, grid))
    }

    // Crossing until the place lies within the limit. Q falls with each step. Public for boundaries, as above.
    pub fn settled(self, grid: Grid) -> Rested
        requires { Okay self × Sound grid }
        ensures { result ≡ settle_from (QAt self) grid self 0 }
    {
        let limit = u64::from(grid.limit);
        let mut place = self;
        let mut steps: u64 = 0;
        let mut sum = place.sum();
        while limit < sum {
            place = place.out(false, grid);
            steps += 1;
            sum = place.sum();
        }
        Rested { place, steps }
    }

    // `adjust_pentagon_vertex_overage` of the source, and the same on a plain grid.
    pub fn settle(self, level: GridLevel, substrate: bool) -> Result<Rested, Refusal>
        ensures { said_settled result ≡ settle_reply self level.0 substrate }
    {
        let grid = self.on_grid(level, substrate, false)?;
        Ok(self.settled(grid))
    }
}
