// The corners of a cell and its boundary on the plane: `vertices`, `hexagon_boundary` and `pentagon_boundary` of the source.
#![tactic(auto)]

ghost use Rattle.std.specs.Prelude.{◌≡◌, false, not, ◌||◌, ◌+◌, ◌≤◌, ◌<◌, eqb, pos, Ok};
ghost use Rattle.std.specs.Float.{binary64};
ghost use Rattle.std.specs.Float.Ieee.{of_int};
ghost use Rattle.level.specs.Levels.{bad_grid, raised_of, grid_of, Sound};
ghost use Rattle.coordijk.specs.Coordinates.{Taken, coord};
ghost use Rattle.coordijk.specs.Maps.{map_of};
ghost use Rattle.coordijk.specs.declared.GridMap.TheVariants.{Aperture7Cw};
ghost use Rattle.vec2d.specs.Points.{point};
ghost use Rattle.vec2d.specs.Centre.{centre_of};
ghost use Rattle.vec2d.specs.Closeness.{close};
ghost use Rattle.faceijk.specs.Places.{place, coord_of, Okay};
ghost use Rattle.faceijk.specs.Faces.{dir_to};
ghost use Rattle.faceijk.specs.Crossing.{landed};
ghost use Rattle.faceijk.specs.declared.Overage.{Overage};
ghost use Rattle.boundary.specs.Corners.{class_iii, through_apertures, offset_of, corner_of, six_corners, said_corners, corners_reply};
ghost use Rattle.boundary.specs.Landing.{cell_of, substrate_of, corner_place, vertex_of, land_at};
ghost use Rattle.boundary.specs.CrossingPoints.{point_on, corner_point, edge_line, cross_at, is_face_edge, away_face, edge_crossing, hexagon_crossing, pentagon_crossing};
ghost use Rattle.boundary.specs.Boundaries.{points_to, verdict_to, turns_for, said_boundary, boundary_reply};
ghost use Rattle.boundary.specs.AsWalked.{digit_of, cell_verdict, range_verdict, Upto, before_from, boundary_of, within_of, Solid, Fit, Deep};

use coordijk::CoordIJK;
use faceijk::{Landed, Overage, Place};
use level::{CellLevel, Grid, GridLevel};
use reply::Refusal;
use vec2d::{Line, Vec2d};

// The six corners of a cell on the substrate grid of its grid level, on the centre's face; a pentagon takes the first five.
#[derive(Clone, Copy, Debug, PartialEq, Eq)]
pub struct Corners {
    pub level: GridLevel,
    pub corners: [CoordIJK; 6],
}

// A point of a boundary on the plane of a face. The mark says what it is: a corner, a crossing point, or, at 0, unused.
#[derive(Clone, Copy, Debug, PartialEq)]
pub struct BoundaryPoint {
    pub face: u32,
    pub mark: u32,
    pub x: f64,
    pub y: f64,
}

// A count, and in the same record room for twelve points.
#[derive(Clone, Copy, Debug, PartialEq)]
pub struct Boundary {
    pub count: u32,
    pub points: [BoundaryPoint; 12],
}

// A cell on its substrate grid: its centre there, the grid level, that grid, the limit m of the plain grid, and whether it is of Class III. Public for the
// globe, as are `Shape` and what makes and asks them.
#[derive(Clone, Copy, Debug, PartialEq, Eq)]
pub struct Cell {
    pub centre: Place,
    pub level: GridLevel,
    pub grid: Grid,
    pub m: u32,
    pub odd: bool,
}

// What is walked round: a cell, how many sides it has, and the first corner.
#[derive(Clone, Copy, Debug, PartialEq, Eq)]
pub struct Shape {
    pub cell: Cell,
    pub sides: u32,
    pub start: u32,
}

// The tests that follow those of face and level.
fn range_verdict(centre: CoordIJK, bad_range: bool) -> Result<(), Refusal>
    ensures { result ≡ range_verdict centre bad_range }
{
    if bad_range {
        return Err(Refusal::BadRange);
    }
    centre.verdict()
}

// The tests of an entry on a cell, in the order of their numbers. Public for the globe.
pub fn cell_verdict(centre: Place, level: CellLevel, bad_range: bool) -> Result<(), Refusal>
    ensures { result ≡ cell_verdict centre level.0 bad_range }
{
    if Place::LAST_FACE < centre.face {
        return Err(Refusal::BadFace);
    }
    level.verdict()?;
    range_verdict(centre.coord(), bad_range)
}

// Aperture 3 CCW, then CW: three times the coordinates.
fn aperture3_twice(c: CoordIJK) -> CoordIJK
    requires { Taken c }
    ensures { result ≡ through_apertures false c }
{
    CoordIJK::new(3 * c.i, 3 * c.j, 3 * c.k)
}

fn aperture7_cw(c: CoordIJK) -> CoordIJK
    requires { Upto 201326592 c }
    ensures { result ≡ map_of Aperture7Cw c }
{
    CoordIJK::new(3 * c.i + c.k, 3 * c.j + c.i, 3 * c.k + c.j).reduce()
}

fn through_apertures(c: CoordIJK, odd: bool) -> CoordIJK
    requires { Taken c }
    ensures { result ≡ through_apertures odd c }
{
    let q = aperture3_twice(c);
    if odd {
        return aperture7_cw(q);
    }
    q
}

// What follows is handed on to entries that take it for sure.
fn grid_level(level: CellLevel) -> GridLevel
    requires { level.0 ≤ 15 }
    ensures { result ≡ record { 0 = raised_of level.0 } }
{
    level.raise().unwrap()
}

fn plain_grid(level: GridLevel) -> Grid
    requires { bad_grid level.0 ≡ false }
    ensures { result ≡ grid_of level.0 false }
{
    level.grid(false).unwrap()
}

fn is_odd(level: CellLevel) -> bool
    ensures { result ≡ class_iii level.0 }
{
    level.0 % 2 == 1
}

// The hexadecimal digit v of each of three words.
fn digits(i: u32, j: u32, k: u32, v: usize) -> CoordIJK
    requires { v < 6 }
    ensures { result ≡ coord (digit_of i v) (digit_of j v) (digit_of k v) }
{
    let s = 4 * v as u32;
    CoordIJK::new((i >> s) % 16, (j >> s) % 16, (k >> s) % 16)
}

impl Cell {
    // The cell of a centre at a cell level, both tested before. The substrate grid is the plain grid threefold, so the level is looked up once.
    pub fn made(centre: Place, level: CellLevel) -> Cell
        requires { Taken (coord_of centre) × (level.0 ≤ 15) }
        ensures { result ≡ cell_of centre level.0 }
    {
        let odd = is_odd(level);
        let c = through_apertures(centre.coord(), odd);
        let grid = grid_level(level);
        let plain = plain_grid(grid);
        Cell {
            centre: Place::new(centre.face, c.i, c.j, c.k),
            level: grid,
            grid: Grid {
                unit: 3 * plain.unit,
                limit: 3 * plain.limit,
                substrate: true,
            },
            m: plain.limit,
            odd,
        }
    }

    // The tables `VERTS_CII` and `VERTS_CIII` by columns, a hexadecimal digit a corner from the lowest on: a table would be laid out in
    // memory anew at each reading.
    fn offset(self, v: usize) -> CoordIJK
        requires { v < 6 }
        ensures { result ≡ offset_of self.odd v }
    {
        if self.odd {
            return digits(0x540015, 0x001554, 0x155400, v);
        }
        digits(0x210012, 0x001221, 0x122100, v)
    }

    // The corner v, still on the centre's face.
    fn corner(self, v: usize) -> CoordIJK
        requires { Upto 805306368 (coord_of self.centre) × (v < 6) }
        ensures { result ≡ corner_of self.odd (coord_of self.centre) v }
    {
        let o = self.offset(v);
        let c = self.centre;
        CoordIJK::new(c.i + o.i, c.j + o.j, c.k + o.k).reduce()
    }

    fn corners(self) -> [CoordIJK; 6]
        requires { Upto 805306368 (coord_of self.centre) }
        ensures { result ≡ six_corners self.odd (coord_of self.centre) }
    {
        [
            self.corner(0),
            self.corner(1),
            self.corner(2),
            self.corner(3),
            self.corner(4),
            self.corner(5),
        ]
    }
}

// The corners of a cell, `vertices` of the source.
pub fn corners_of(centre: Place, level: CellLevel) -> Result<Corners, Refusal>
    ensures { said_corners result ≡ corners_reply centre level.0 }
{
    cell_verdict(centre, level, false)?;
    let cell = Cell::made(centre, level);
    Ok(Corners {
        level: cell.level,
        corners: cell.corners(),
    })
}

// The direction number from one face to another.
fn edge_to(from: u32, to: u32) -> u32
    requires { from < 20 }
    ensures { result ≡ dir_to «from» to }
{
    faceijk::direction_to(from, to).number()
}

fn is_face_edge(overage: Overage) -> bool
    ensures { result ≡ is_face_edge overage }
{
    matches!(overage, Overage::FaceEdge)
}

// The edge of a face in a direction, on the substrate grid.
fn edge_line(edge: u32, m: u32) -> Line
    ensures { result ≡ edge_line edge (of_int binary64 (pos m)) }
{
    let max = f64::from(m);
    let v0 = Vec2d::new(3.0 * max, 0.0);
    let v1 = Vec2d::new(-1.5 * max, 3.0 * Vec2d::SIN60 * max);
    let v2 = Vec2d::new(-1.5 * max, -3.0 * Vec2d::SIN60 * max);
    if edge == 1 {
        return Line { from: v0, to: v1 };
    }
    if edge == 2 {
        return Line { from: v2, to: v0 };
    }
    Line { from: v1, to: v2 }
}

// Where the line from a to b meets an edge of a face.
fn cross_at(
    m: u32,
    face: u32,
    a: Vec2d,
    b: Vec2d,
    edge: u32,
) -> Result<Option<BoundaryPoint>, Refusal>
    ensures { result ≡ cross_at m face a b edge }
{
    if (edge < 1) | (3 < edge) {
        return Err(Refusal::NotAdjacent);
    }
    let line = Line { from: a, to: b };
    // A point that is met lies on the face that it is projected with.
    let met = line.crossing(edge_line(edge, m)).met()?;
    Ok(Some(BoundaryPoint::on(face, met, BoundaryPoint::CROSSING)))
}

// The face that the line between two corners leaves home for, or comes from.
fn away_face(home: u32, last: u32, now: u32) -> u32
    ensures { result ≡ away_face home last now }
{
    if last == home { now } else { last }
}

impl Cell {
    // Where the line to the corner v from the one before it meets the edge to another face, both corners taken on the centre's face.
    fn edge_crossing(self, away: u32, v: usize) -> Result<Option<BoundaryPoint>, Refusal>
        requires { Upto 805306368 (coord_of self.centre) × (self.centre.face < 20) × (v < 6) }
        ensures { result ≡ edge_crossing self away v }
    {
        let a = Vec2d::from_ijk(self.corner((v + 5) % 6));
        let b = Vec2d::from_ijk(self.corner(v));
        let home = self.centre.face;
        let edge = edge_to(home, away);
        // No point is needed where it equals one of the two corners.
        let met = cross_at(self.m, home, a, b, edge)?;
        Ok(met.filter(|p| !p.is_close(a, b)))
    }

    // The crossing point before the corner v of a hexagon. The tests stand apart from what they let through, so that they cost no call; a walk and the
    // globe ask it, and of a function that is called from two places the compiler would make neither's part.
    #[inline(always)]
    fn hexagon_crossing(
        self,
        last: Landed,
        now: u32,
        v: usize,
    ) -> Result<Option<BoundaryPoint>, Refusal>
        requires { Upto 805306368 (coord_of self.centre) × (self.centre.face < 20) × (v < 6) }
        ensures { result ≡ hexagon_crossing self last now v }
    {
        if last.place.face == now {
            return Ok(None);
        }
        let overage = last.overage;
        if is_face_edge(overage) {
            return Ok(None);
        }
        self.edge_crossing(away_face(self.centre.face, last.place.face, now), v)
    }

    // The crossing point between two corners of a pentagon, the second stepped over to the face of the first, whose point there is a.
    #[inline(always)]
    fn pentagon_crossing(
        self,
        last: Place,
        a: Vec2d,
        now: Place,
    ) -> Result<Option<BoundaryPoint>, Refusal>
        requires { Okay now × (self.grid ≡ substrate_of self.level) × Sound self.grid × (a ≡ centre_of (coord_of last)) }
        ensures { result ≡ pentagon_crossing self last now }
    {
        let edge = edge_to(now.face, last.face);
        if (edge < 1) | (3 < edge) {
            return Err(Refusal::NotAdjacent);
        }
        let back = faceijk::back_edge(now.face, edge);
        let over = now.over(edge, self.grid);
        let b = Vec2d::from_ijk(over.coord());
        cross_at(self.m, over.face, a, b, back)
    }
}

impl BoundaryPoint {
    pub const CORNER: u32 = 1;

    pub const CROSSING: u32 = 2;

    const UNUSED: BoundaryPoint = BoundaryPoint {
        face: 0,
        mark: 0,
        x: 0.0,
        y: 0.0,
    };

    fn on(face: u32, v: Vec2d, mark: u32) -> BoundaryPoint
        ensures { result ≡ point_on face v mark }
    {
        BoundaryPoint {
            face,
            mark,
            x: v.x,
            y: v.y,
        }
    }

    // Whether it equals one of two corners.
    fn is_close(self, a: Vec2d, b: Vec2d) -> bool
        ensures { result ≡ (close a (point self.x self.y) || close b (point self.x self.y)) }
    {
        let v = Vec2d::new(self.x, self.y);
        a.is_close(v) | b.is_close(v)
    }

    pub fn corner(place: Place) -> BoundaryPoint
        ensures { result ≡ corner_point place }
    {
        BoundaryPoint::on(
            place.face,
            Vec2d::from_ijk(place.coord()),
            BoundaryPoint::CORNER,
        )
    }
}

// A full length makes one more turn. Public for the globe, which has tested the length.
pub fn turns_for(sides: u32, length: u32) -> u32
    requires { (sides ≤ 6) × (length ≤ sides) }
    ensures { result ≡ turns_for sides length }
{
    if length == sides {
        return length + 1;
    }
    length
}

// A pentagon's landing, whose overage is never asked for.
fn rested(place: Place) -> Landed
    ensures { result ≡ landed place Overage.None }
{
    Landed {
        place,
        overage: Overage::None,
    }
}

impl Shape {
    // The number of the corner at turn k.
    fn vertex(self, k: u32) -> usize
        requires { Solid self × (k ≤ self.sides) }
        ensures { result ≡ vertex_of self k }
    {
        let v = self.start + k;
        if v < self.sides {
            v as usize
        } else {
            (v - self.sides) as usize
        }
    }

    // The corner at turn k, still on the centre's face. Public for the globe.
    pub fn corner(self, k: u32) -> Place
        requires { Fit self × (k ≤ self.sides) }
        ensures { result ≡ corner_place self.cell (vertex_of self k) }
    {
        let c = self.cell.corner(self.vertex(k));
        Place::new(self.cell.centre.face, c.i, c.j, c.k)
    }

    // A hexagon's corner is crossed once.
    fn crossed(self, k: u32) -> Landed
        requires { Fit self × (k ≤ self.sides) × (self.sides ≡ 6) }
        ensures { result ≡ land_at self k }
    {
        self.corner(k).crossed(false, self.cell.grid)
    }

    // A pentagon's corner is settled.
    fn settled(self, k: u32) -> Landed
        requires { Fit self × (k ≤ self.sides) × (self.sides ≡ 5) }
        ensures { result ≡ land_at self k }
    {
        rested(self.corner(k).settled(self.cell.grid).place)
    }

    // The same at any turn: after the last corner comes the first again, which the walk has kept.
    fn settled_once(self, k: u32, first: Landed) -> Landed
        requires { Fit self × (k ≤ self.sides) × (self.sides ≡ 5) × (0 < k → first ≡ land_at self 0) }
        ensures { result ≡ land_at self k }
    {
        if k < 5 { self.settled(k) } else { first }
    }

    // Whether nothing can stand before the corner at turn k: it is the first, or the cell is of Class II.
    fn bare(self, k: u32) -> bool
        ensures { result ≡ (eqb k 0 || not self.cell.odd) }
    {
        let odd = self.cell.odd;
        (k == 0) | !odd
    }

    // What stands before a hexagon's corner at turn k.
    fn hexagon_before(
        self,
        k: u32,
        last: Landed,
        now: Landed,
    ) -> Result<Option<BoundaryPoint>, Refusal>
        requires { Fit self × (k ≤ self.sides) × (self.sides ≡ 6) }
        ensures { result ≡ before_from self k last now }
    {
        if self.bare(k) {
            return Ok(None);
        }
        self.cell
            .hexagon_crossing(last, now.place.face, self.vertex(k))
    }

    // What stands before a pentagon's corner at turn k; a is the last corner's point.
    fn pentagon_before(
        self,
        k: u32,
        last: Landed,
        a: Vec2d,
        now: Landed,
    ) -> Result<Option<BoundaryPoint>, Refusal>
        requires { Fit self × Okay now.place × (self.sides ≡ 5) × (0 < k → a ≡ centre_of (coord_of last.place)) }
        ensures { result ≡ before_from self k last now }
    {
        if self.bare(k) {
            return Ok(None);
        }
        self.cell.pentagon_crossing(last.place, a, now.place)
    }

    // How the corner at turn k lands. Public for the globe, as is what follows.
    pub fn landed(self, k: u32) -> Landed
        requires { Fit self × (k ≤ self.sides) }
        ensures { result ≡ land_at self k }
    {
        if self.sides == 5 {
            return self.settled(k);
        }
        self.crossed(k)
    }

    // What stands before the corner at turn k.
    pub fn before(self, k: u32, last: Landed, now: Landed) -> Result<Option<BoundaryPoint>, Refusal>
        requires { Fit self × (k ≤ self.sides) × Okay now.place }
        ensures { result ≡ before_from self k last now }
    {
        if self.bare(k) {
            return Ok(None);
        }
        if self.sides == 5 {
            let a = Vec2d::from_ijk(last.place.coord());
            return self.cell.pentagon_crossing(last.place, a, now.place);
        }
        self.cell
            .hexagon_crossing(last, now.place.face, self.vertex(k))
    }

    // The points of so many turns round a hexagon, or the refusal of the first crossing point needed. A turn past all corners only looks for a
    // crossing point.
    fn hexagon_walk(self, turns: u32) -> Result<Boundary, Refusal>
        requires { Fit self × (turns ≤ self.sides + 1) × (self.sides ≡ 6) }
        ensures { result ≡ boundary_of (verdict_to self turns) (points_to self turns) }
    {
        let mut points = [BoundaryPoint::UNUSED; 12];
        let mut count: usize = 0;
        let centre = self.cell.centre;
        let mut last = Landed {
            place: centre,
            overage: Overage::None,
        };
        for k in 0..turns {
            let now = self.crossed(k);
            if let Some(point) = self.hexagon_before(k, last, now)? {
                points[count] = point;
                count += 1;
            }
            if k < 6 {
                points[count] = BoundaryPoint::corner(now.place);
                count += 1;
            }
            last = now;
        }
        Ok(Boundary {
            count: count as u32,
            points,
        })
    }

    // The same round a pentagon; the first corner and the last one's point are kept, as both are needed again. The two walks stand apart, as in
    // the source: joined, neither would be compiled into its entry.
    fn pentagon_walk(self, turns: u32) -> Result<Boundary, Refusal>
        requires { Fit self × (turns ≤ self.sides + 1) × (self.sides ≡ 5) }
        ensures { result ≡ boundary_of (verdict_to self turns) (points_to self turns) }
    {
        let mut points = [BoundaryPoint::UNUSED; 12];
        let mut count: usize = 0;
        let centre = self.cell.centre;
        let mut last = rested(centre);
        let mut first = last;
        let mut at = Vec2d::new(0.0, 0.0);
        for k in 0..turns {
            let now = self.settled_once(k, first);
            if k == 0 {
                first = now;
            }
            if let Some(point) = self.pentagon_before(k, last, at, now)? {
                points[count] = point;
                count += 1;
            }
            at = Vec2d::from_ijk(now.place.coord());
            if k < 5 {
                points[count] = BoundaryPoint::on(now.place.face, at, BoundaryPoint::CORNER);
                count += 1;
            }
            last = now;
        }
        Ok(Boundary {
            count: count as u32,
            points,
        })
    }

    // A hexagon whose corners are all within the limit, whichever they are: they stay where they are, and no line leaves the face.
    fn inside(self, length: u32) -> Boundary
        requires { Deep self × (length ≤ self.sides) }
        ensures { Ok result ≡ boundary_of (verdict_to self (turns_for self.sides length)) (points_to self (turns_for self.sides length)) }
    {
        let mut points = [BoundaryPoint::UNUSED; 12];
        for k in 0..length {
            points[k as usize] = BoundaryPoint::corner(self.corner(k));
        }
        Boundary {
            count: length,
            points,
        }
    }

    // A hexagon's boundary, unless the centre lies out of its face. No offset of a corner has a sum above 9.
    fn hexagon(self, length: u32) -> Result<Boundary, Refusal>
        requires { Solid self × (length ≤ self.sides) × (self.sides ≡ 6) }
        ensures { result ≡ within_of self length }
    {
        let centre = self.cell.centre;
        let sum = centre.sum();
        let limit = 3 * u64::from(self.cell.m);
        if limit < sum {
            return Err(Refusal::OutOfFace);
        }
        if sum + 9 < limit {
            return Ok(self.inside(length));
        }
        self.hexagon_walk(turns_for(6, length))
    }

    // A pentagon's boundary, unless the centre lies out of its face.
    fn pentagon(self, length: u32) -> Result<Boundary, Refusal>
        requires { Solid self × (length ≤ self.sides) × (self.sides ≡ 5) }
        ensures { result ≡ within_of self length }
    {
        let centre = self.cell.centre;
        let limit = 3 * u64::from(self.cell.m);
        if limit < centre.sum() {
            return Err(Refusal::OutOfFace);
        }
        self.pentagon_walk(turns_for(5, length))
    }
}

// The boundary of a hexagon: length corners from the corner start on, with the crossing points between them.
pub fn hexagon_boundary(
    centre: Place,
    level: CellLevel,
    start: u32,
    length: u32,
) -> Result<Boundary, Refusal>
    ensures { said_boundary result ≡ boundary_reply 6 centre level.0 start length }
{
    cell_verdict(centre, level, (6 <= start) | (6 < length))?;
    let cell = Cell::made(centre, level);
    Shape {
        cell,
        sides: 6,
        start,
    }
    .hexagon(length)
}

// The same of a pentagon.
pub fn pentagon_boundary(
    centre: Place,
    level: CellLevel,
    start: u32,
    length: u32,
) -> Result<Boundary, Refusal>
    ensures { said_boundary result ≡ boundary_reply 5 centre level.0 start length }
{
    cell_verdict(centre, level, (5 <= start) | (5 < length))?;
    let cell = Cell::made(centre, level);
    Shape {
        cell,
        sides: 5,
        start,
    }
    .pentagon(length)
}
