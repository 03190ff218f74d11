// The C face: every entry that answers a question, as a C function. It returns the refusal's number, 0 for none, and writes its values
// into a lent slice; on a refusal it writes nothing. A slice with fewer elements than the values gets 2. The crates `lent_..` do the work.
#![tactic(auto)]

ghost use Rattle.std.specs.Prelude.{false};
ghost use Rattle.reply.specs.Replies.{answer};
ghost use Rattle.level.specs.Levels.{raise_reply, grid_reply};
ghost use Rattle.coordijk.specs.Coordinates.{coord, reduced, coord_values};
ghost use Rattle.faceijk.specs.Entries.{turn_reply, step_reply, cross_reply, settle_reply, direction_reply};
ghost use Rattle.names.specs.Entries.{first_reply, same_reply};
ghost use Rattle.vec2d.specs.Points.{point};
ghost use Rattle.vec2d.specs.Rounding.{leftovers, round_reply};
ghost use Rattle.vec2d.specs.Centre.{centre_reply};
ghost use Rattle.margin.specs.Margins.{margin_reply};
ghost use Rattle.vec2d.specs.Closeness.{alike_reply};
ghost use Rattle.vec3d.specs.Frame.{bad_frame};
ghost use Rattle.vec3d.specs.Nearest.{nearest_reply};
ghost use Rattle.face_projection.specs.Projection.{plane_reply};
ghost use Rattle.locate.specs.Locating.{locate_reply};
ghost use Rattle.boundary.specs.Corners.{corners_reply};
ghost use Rattle.boundary.specs.Boundaries.{boundary_reply};
ghost use Rattle.root.specs.Root.{root_reply};
ghost use Rattle.globe.specs.Points.{sphere_reply};
ghost use Rattle.globe.specs.Boundaries.{globe_reply};
ghost use Rattle.frame.specs.Default.{default_frame};
ghost use Rattle.region.specs.Entries.{read_reply, has_reply};
ghost use Rattle.region_check.specs.Checks.{check_reply};
ghost use Rattle.lent.specs.Lent.{Gives, GivesFramed, GivesParts, bits_of, at};
ghost use Rattle.lent_grid.specs.Lines.{lines_reply};
ghost use Rattle.lent_grid.specs.Numbered.{numbered_reply};
ghost use Rattle.lent_places.specs.Places.{vec, GivesBatch};
ghost use Rattle.lent_borders.specs.Borders.{GivesBoundary};
ghost use Rattle.lent_globe.specs.Globes.{GivesGlobe};
ghost use Rattle.lent_regions.specs.Regions.{GivesList};

use reply::Refusal;

// A cell level to its grid level.
#[unsafe(no_mangle)]
pub extern "C" fn heddleplume_raise(level: u32, out: &mut [u32]) -> u32
    ensures { Gives 1 (raise_reply level) out.old out.new result }
{
    lent::status(lent_grid::raise(level, out))
}

// The grid of a level: unit scale, limit, and 1 for a substrate grid, 0 for a plain one.
#[unsafe(no_mangle)]
pub extern "C" fn heddleplume_grid(level: u32, substrate: bool, out: &mut [u32]) -> u32
    ensures { Gives 3 (grid_reply level substrate) out.old out.new result }
{
    lent::status(lent_grid::grid(level, substrate, out))
}

// A triple reduced: i, j, k.
#[unsafe(no_mangle)]
pub extern "C" fn heddleplume_reduce(i: u32, j: u32, k: u32, out: &mut [u32]) -> u32
    ensures { Gives 3 (answer (coord_values (reduced i j k))) out.old out.new result }
{
    lent::status(lent_grid::reduce(i, j, k, out))
}

// A triple under one of the five maps, 1..5: i, j, k.
#[unsafe(no_mangle)]
pub extern "C" fn heddleplume_map(map: u32, i: u32, j: u32, k: u32, out: &mut [u32]) -> u32
    ensures { Gives 3 (numbered_reply map (coord i j k)) out.old out.new result }
{
    lent::status(lent_grid::map(map, i, j, k, out))
}

// The hexagon of a plane point: i, j, k; and the leftovers by which it was chosen: r1, r2.
#[unsafe(no_mangle)]
pub extern "C" fn heddleplume_round(x: f64, y: f64, out: &mut [u32], left: &mut [f64]) -> u32
    ensures { GivesParts false 3 2 (round_reply (point x y)) out.old out.new (bits_of left.old) (bits_of left.new) result }
{
    lent::status(lent_grid::round(x, y, out, left))
}

// How far a point with these leftovers was from the nearest border of its hexagon, in hexagons: 0 on the border, 1/2 at the centre.
#[unsafe(no_mangle)]
pub extern "C" fn heddleplume_margin(r1: f64, r2: f64, out: &mut [f64]) -> u32
    ensures { Gives 1 (margin_reply (leftovers r1 r2)) (bits_of out.old) (bits_of out.new) result }
{
    lent::status(lent_grid::margin(r1, r2, out))
}

// The centre of a hexagon: x, y.
#[unsafe(no_mangle)]
pub extern "C" fn heddleplume_centre(i: u32, j: u32, k: u32, out: &mut [f64]) -> u32
    ensures { Gives 2 (centre_reply (coord i j k)) (bits_of out.old) (bits_of out.new) result }
{
    lent::status(lent_grid::centre(i, j, k, out))
}

// Where two lines meet: x, y. The lines are eight doubles, x and y of the first from and to, then of the second.
#[unsafe(no_mangle)]
pub extern "C" fn heddleplume_meet(lines: &[f64], out: &mut [f64]) -> u32
    ensures { Gives 2 (lines_reply lines.now) (bits_of out.old) (bits_of out.new) result }
{
    lent::status(lent_grid::meet(lines, out))
}

// Whether two plane points are equal within the tolerance: 1 yes, 0 no.
#[unsafe(no_mangle)]
pub extern "C" fn heddleplume_alike(
    x: f64,
    y: f64,
    other_x: f64,
    other_y: f64,
    out: &mut [u32],
) -> u32
    ensures { Gives 1 (alike_reply (point x y) (point other_x other_y)) out.old out.new result }
{
    lent::status(lent_grid::alike(x, y, other_x, other_y, out))
}

// The direction from one face to another: 0, 1, 2, 3 or 7.
#[unsafe(no_mangle)]
pub extern "C" fn heddleplume_direction(from: u32, to: u32, out: &mut [u32]) -> u32
    ensures { Gives 1 (direction_reply from to) out.old out.new result }
{
    lent::status(lent_grid::direction(from, to, out))
}

// A sixth turn: face, i, j, k.
#[unsafe(no_mangle)]
pub extern "C" fn heddleplume_turn(
    face: u32,
    i: u32,
    j: u32,
    k: u32,
    clockwise: bool,
    out: &mut [u32],
) -> u32
    ensures { Gives 4 (turn_reply (at face i j k) clockwise) out.old out.new result }
{
    lent::status(lent_grid::turn(face, i, j, k, clockwise, out))
}

// The step over a named edge: face, i, j, k.
#[unsafe(no_mangle)]
pub extern "C" fn heddleplume_step(
    face: u32,
    i: u32,
    j: u32,
    k: u32,
    level: u32,
    substrate: bool,
    edge: u32,
    out: &mut [u32],
) -> u32
    ensures { Gives 4 (step_reply (at face i j k) level substrate edge) out.old out.new result }
{
    lent::status(lent_grid::step(face, i, j, k, level, substrate, edge, out))
}

// Crossing: face, i, j, k, and 0 for None, 1 for FaceEdge, 2 for NewFace.
#[unsafe(no_mangle)]
pub extern "C" fn heddleplume_cross(
    face: u32,
    i: u32,
    j: u32,
    k: u32,
    level: u32,
    substrate: bool,
    turn: bool,
    out: &mut [u32],
) -> u32
    ensures { Gives 5 (cross_reply (at face i j k) level substrate turn) out.old out.new result }
{
    lent::status(lent_grid::cross(face, i, j, k, level, substrate, turn, out))
}

// Settling: face, i, j, k, and the number of steps.
#[unsafe(no_mangle)]
pub extern "C" fn heddleplume_settle(
    face: u32,
    i: u32,
    j: u32,
    k: u32,
    level: u32,
    substrate: bool,
    out: &mut [u64],
) -> u32
    ensures { Gives 5 (settle_reply (at face i j k) level substrate) out.old out.new result }
{
    lent::status(lent_grid::settle(face, i, j, k, level, substrate, out))
}

// Whether two corners are the same, by whatever names: 1 yes, 0 no. The answer that compared two places is gone.
#[unsafe(no_mangle)]
pub extern "C" fn heddleplume_same_corner(
    face: u32,
    i: u32,
    j: u32,
    k: u32,
    other_face: u32,
    other_i: u32,
    other_j: u32,
    other_k: u32,
    level: u32,
    out: &mut [u32],
) -> u32
    ensures { Gives 1 (same_reply (at face i j k) (at other_face other_i other_j other_k) level) out.old out.new result }
{
    lent::status(lent_grid::same_corner(
        face, i, j, k, other_face, other_i, other_j, other_k, level, out,
    ))
}

// The first name of a corner: face, i, j, k.
#[unsafe(no_mangle)]
pub extern "C" fn heddleplume_first_name(
    face: u32,
    i: u32,
    j: u32,
    k: u32,
    level: u32,
    out: &mut [u32],
) -> u32
    ensures { Gives 4 (first_reply (at face i j k) level) out.old out.new result }
{
    lent::status(lent_grid::first_name(face, i, j, k, level, out))
}

// The face nearest to a unit vector, and its squared distance.
#[unsafe(no_mangle)]
pub extern "C" fn heddleplume_nearest(
    frame: &[f64],
    x: f64,
    y: f64,
    z: f64,
    face: &mut [u32],
    distance: &mut [f64],
) -> u32
    ensures { GivesParts (bad_frame frame.now) 1 1 (nearest_reply frame.now (vec x y z)) face.old face.new (bits_of distance.old) (bits_of distance.new) result }
{
    lent::status(lent_places::nearest(frame, x, y, z, face, distance))
}

// The plane point of a unit vector on a named face at a cell level: x, y.
#[unsafe(no_mangle)]
pub extern "C" fn heddleplume_plane_point(
    frame: &[f64],
    face: u32,
    level: u32,
    x: f64,
    y: f64,
    z: f64,
    out: &mut [f64],
) -> u32
    ensures { GivesFramed (bad_frame frame.now) 2 (plane_reply frame.now face level (vec x y z)) (bits_of out.old) (bits_of out.new) result }
{
    lent::status(lent_places::plane_point(frame, face, level, x, y, z, out))
}

// The place of a unit vector at a cell level: face, i, j, k; and the leftovers by which its hexagon was chosen: r1, r2.
#[unsafe(no_mangle)]
pub extern "C" fn heddleplume_place(
    frame: &[f64],
    x: f64,
    y: f64,
    z: f64,
    level: u32,
    out: &mut [u32],
    left: &mut [f64],
) -> u32
    ensures { GivesParts (bad_frame frame.now) 4 2 (locate_reply frame.now level (vec x y z)) out.old out.new (bits_of left.old) (bits_of left.new) result }
{
    lent::status(lent_places::place(frame, x, y, z, level, out, left))
}

// The places of a batch, one row of face, i, j, k for each vector; a refused row holds minus its refusal and zeros. `refused`: how many.
#[unsafe(no_mangle)]
pub extern "C" fn heddleplume_batch(
    frame: &[f64],
    level: u32,
    input: &[f64],
    out: &mut [i32],
    first: usize,
    refused: &mut [u64],
) -> u32
    ensures { GivesBatch frame.now level input.now first out.old out.new refused.old refused.new result }
{
    lent::status(lent_places::batch(frame, level, input, out, first, refused))
}

// The corners of a cell: the grid level, then i, j, k six times; a pentagon takes the first five.
#[unsafe(no_mangle)]
pub extern "C" fn heddleplume_corners(
    face: u32,
    i: u32,
    j: u32,
    k: u32,
    level: u32,
    out: &mut [u32],
) -> u32
    ensures { Gives 19 (corners_reply (at face i j k) level) out.old out.new result }
{
    lent::status(lent_borders::corners(face, i, j, k, level, out))
}

// The boundary of a hexagon. marks: the count, then face and mark twelve times (1 corner, 2 crossing point, 0 unused); points: x, y twelve times.
#[unsafe(no_mangle)]
pub extern "C" fn heddleplume_hexagon(
    face: u32,
    i: u32,
    j: u32,
    k: u32,
    level: u32,
    start: u32,
    length: u32,
    marks: &mut [u32],
    points: &mut [f64],
) -> u32
    ensures { GivesBoundary (boundary_reply 6 (at face i j k) level start length) marks.old marks.new (bits_of points.old) (bits_of points.new) result }
{
    lent::status(lent_borders::hexagon(face, i, j, k, level, start, length, marks, points))
}

// The same of a pentagon.
#[unsafe(no_mangle)]
pub extern "C" fn heddleplume_pentagon(
    face: u32,
    i: u32,
    j: u32,
    k: u32,
    level: u32,
    start: u32,
    length: u32,
    marks: &mut [u32],
    points: &mut [f64],
) -> u32
    ensures { GivesBoundary (boundary_reply 5 (at face i j k) level start length) marks.old marks.new (bits_of points.old) (bits_of points.new) result }
{
    lent::status(lent_borders::pentagon(face, i, j, k, level, start, length, marks, points))
}

// The square root of a number.
#[unsafe(no_mangle)]
pub extern "C" fn heddleplume_root(x: f64, out: &mut [f64]) -> u32
    ensures { Gives 1 (root_reply x) (bits_of out.old) (bits_of out.new) result }
{
    lent::status(lent_globe::root(x, out))
}

// The unit vector of a plane point of a face on the substrate grid of a grid level: x, y, z.
#[unsafe(no_mangle)]
pub extern "C" fn heddleplume_sphere(
    frame: &[f64],
    face: u32,
    level: u32,
    x: f64,
    y: f64,
    out: &mut [f64],
) -> u32
    ensures { GivesFramed (bad_frame frame.now) 3 (sphere_reply frame.now face level (point x y)) (bits_of out.old) (bits_of out.new) result }
{
    lent::status(lent_globe::sphere(frame, face, level, x, y, out))
}

// The boundary of a hexagon on the sphere. marks: as for the plane; points: x, y, z twelve times.
#[unsafe(no_mangle)]
pub extern "C" fn heddleplume_hexagon_sphere(
    frame: &[f64],
    face: u32,
    i: u32,
    j: u32,
    k: u32,
    level: u32,
    start: u32,
    length: u32,
    marks: &mut [u32],
    points: &mut [f64],
) -> u32
    ensures { GivesGlobe (bad_frame frame.now) (globe_reply 6 frame.now (at face i j k) level start length) marks.old marks.new (bits_of points.old) (bits_of points.new) result }
{
    lent::status(lent_globe::hexagon(frame, face, i, j, k, level, start, length, marks, points))
}

// The same of a pentagon.
#[unsafe(no_mangle)]
pub extern "C" fn heddleplume_pentagon_sphere(
    frame: &[f64],
    face: u32,
    i: u32,
    j: u32,
    k: u32,
    level: u32,
    start: u32,
    length: u32,
    marks: &mut [u32],
    points: &mut [f64],
) -> u32
    ensures { GivesGlobe (bad_frame frame.now) (globe_reply 5 frame.now (at face i j k) level start length) marks.old marks.new (bits_of points.old) (bits_of points.new) result }
{
    lent::status(lent_globe::pentagon(frame, face, i, j, k, level, start, length, marks, points))
}

// The default frame: 180 doubles.
#[unsafe(no_mangle)]
pub extern "C" fn heddleplume_frame(out: &mut [f64]) -> u32
    ensures { Gives 180 (answer (bits_of default_frame)) (bits_of out.old) (bits_of out.new) result }
{
    let Some(values) = out.first_chunk_mut::<180>() else {
        return Refusal::BadRows.number();
    };
    *values = frame::default_frame();
    0
}

// A region list of sorted rows, four numbers each; the output has 16 bytes a row and 88 more.
#[unsafe(no_mangle)]
pub extern "C" fn heddleplume_region_write(level: u32, rows: &[i32], out: &mut [u8]) -> u32
    ensures { GivesList level rows.now out.old out.new result }
{
    lent::status(lent_regions::write(level, rows, out))
}

// The full check of a region list: its level, and how many records it has.
#[unsafe(no_mangle)]
pub extern "C" fn heddleplume_region_check(list: &[u8], out: &mut [u32]) -> u32
    ensures { Gives 2 (check_reply list.now) out.old out.new result }
{
    lent::status(lent_regions::check(list, out))
}

// The record of a region list with a number: face, i, j, k.
#[unsafe(no_mangle)]
pub extern "C" fn heddleplume_region_record(list: &[u8], number: u32, out: &mut [u32]) -> u32
    ensures { Gives 4 (read_reply list.now number) out.old out.new result }
{
    lent::status(lent_regions::record(list, number, out))
}

// Whether a place is in a region list: 1 yes, 0 no.
#[unsafe(no_mangle)]
pub extern "C" fn heddleplume_region_has(
    list: &[u8],
    face: u32,
    i: u32,
    j: u32,
    k: u32,
    out: &mut [u32],
) -> u32
    ensures { Gives 1 (has_reply list.now (at face i j k)) out.old out.new result }
{
    lent::status(lent_regions::has(list, face, i, j, k, out))
}
