// The place of a unit vector at a cell level, `FaceIJK::from_vec3d` of the source: one vector with what its rounding left over, or a whole batch into lent rows.
#![tactic(auto)]

ghost use Rattle.std.specs.Prelude.{◌≡◌, false, ◌+◌, ◌*◌, ◌/◌, ◌≤◌, length};
ghost use Rattle.std.proofs.lemmas.List.Edits.{sets};
ghost use Rattle.reply.specs.Replies.{first, refusal, reply};
ghost use Rattle.reply.specs.Replies.{fine};
ghost use Rattle.vec3d.specs.Vectors.{vector_verdict};
ghost use Rattle.vec3d.specs.Frame.{bad_frame};
ghost use Rattle.vec2d.specs.Rounding.{round_verdict, nearest_of, leftovers_of};
ghost use Rattle.faceijk.specs.Places.{place, place_values, Okay};
ghost use Rattle.locate.specs.Locating.{near_face, Passed, Entered, spot, spot_of, spot_values, front_reasons, said_located, row_reply, locate_reply};
ghost use Rattle.words.specs.Rows.{count_to, Filled};
ghost use Rattle.locate.specs.Batch.{signed, row_of, cells, Ahead, row_at, refused_at, bad_rows, reasons_for, said_batch, batch_outcome, Given};

use faceijk::Place;
use level::CellLevel;
use reply::Refusal;
use vec2d::{Found, Leftovers, Vec2d};
use vec3d::Vec3d;

// A place, and the leftovers by which its hexagon was chosen.
#[derive(Clone, Copy, Debug, PartialEq)]
pub struct Spot {
    pub place: Place,
    pub left: Leftovers,
}

// A row of a batch: face, i, j, k, without the leftovers; or minus the refusal, 0, 0, 0.
#[derive(Clone, Copy, Debug, PartialEq, Eq)]
pub struct Row {
    pub face: i32,
    pub i: i32,
    pub j: i32,
    pub k: i32,
}

// The place of a plane point on a face.
fn rounded(face: u32, point: Vec2d) -> Result<Spot, Refusal>
    ensures { said_located result ≡ reply 6 (round_verdict point) (spot_values (spot (place face (nearest_of point)) (leftovers_of point))) }
{
    let Found { hexagon, left } = point.to_ijk()?;
    let place = Place::new(face, hexagon.i, hexagon.j, hexagon.k);
    Ok(Spot { place, left })
}

// The place of a vector that has passed, on its nearest face, which the caller has found.
fn on_nearest(frame: &[f64], level: CellLevel, face: u32, p: Vec3d) -> Result<Spot, Refusal>
    requires { Entered frame.now level.0 p × (face ≡ near_face frame.now p) }
    ensures { said_located result ≡ reply 6 (first (front_reasons frame.now level.0 p)) (spot_values (spot_of frame.now level.0 p)) }
{
    let point = face_projection::project(vec3d::face_at(frame, face), level, p)?;
    rounded(face, point)
}

// The place of any vector, with a frame and a level that have passed, and the face that is nearest to the vector if it passes. Its parts stand apart, so
// that they come in registers: a vector read back from memory at once costs a tenth more.
fn place_of(
    frame: &[f64],
    level: CellLevel,
    face: u32,
    x: f64,
    y: f64,
    z: f64,
) -> Result<Spot, Refusal>
    requires { Passed frame.now level.0 ×
        (vector_verdict (record { x = x; y = y; z = z }) ≡ fine → face ≡ near_face frame.now (record { x = x; y = y; z = z })) }
    ensures { said_located result ≡ row_reply frame.now level.0 (record { x = x; y = y; z = z }) }
{
    let p = Vec3d::new(x, y, z);
    p.verdict()?;
    on_nearest(frame, level, face, p)
}

// The place of a unit vector at a cell level.
pub fn locate(frame: &[f64], level: CellLevel, p: Vec3d) -> Result<Spot, Refusal>
    ensures { said_located result ≡ locate_reply frame.now level.0 p }
{
    if vec3d::bad_frame(frame) {
        return Err(Refusal::BadFrame);
    }
    level.verdict()?;
    let face = vec3d::nearest_of(frame, p).face;
    place_of(frame, level, face, p.x, p.y, p.z)
}

impl From<Refusal> for Row {
    fn from(found: Refusal) -> Row
        ensures { cells result ≡ row_of (refusal 6 found) }
    {
        let number = found.number() as i32;
        Row {
            face: -number,
            i: 0,
            j: 0,
            k: 0,
        }
    }
}

impl Row {
    // A place that is taken everywhere fits signed numbers.
    fn of_place(p: Place) -> Row
        requires { Okay p }
        ensures { cells result ≡ signed (place_values p) }
    {
        Row {
            face: p.face as i32,
            i: p.i as i32,
            j: p.j as i32,
            k: p.k as i32,
        }
    }

    fn of(located: Result<Spot, Refusal>) -> Row
        requires { Given located }
        ensures { cells result ≡ row_of (said_located located) }
    {
        match located {
            Ok(found) => Row::of_place(found.place),
            Err(refusal) => Row::from(refusal),
        }
    }
}

// Writes a row where four numbers begin; it knows nothing of what the row means.
fn put_row(out: &mut [i32], at: usize, row: Row)
    requires { at + 4 ≤ length out.old }
    ensures { out.new ≡ sets out.old at (cells row) }
{
    out[at..at + 4].copy_from_slice(&[row.face, row.i, row.j, row.k]);
}

// The face nearest to vector k, or 0 after the last.
fn face_ahead(frame: &[f64], input: &[f64], k: usize) -> u32
    requires { bad_frame frame.now ≡ false }
    ensures { Ahead frame.now input.now k result }
{
    if k < input.len() / 3 {
        return vec3d::nearest_of(frame, vec3d::vec_at(input, 3 * k)).face;
    }
    0
}

// Fills the first rows of the lent part, one for each vector of the input, and counts those refused. The face of the next vector is looked for before
// this one is placed: neither waits for the other, so the processor works at both at once.
fn write_rows(frame: &[f64], level: CellLevel, input: &[f64], out: &mut [i32]) -> usize
    requires { Passed frame.now level.0 × (4 * (length input.now / 3) ≤ length out.old) }
    ensures { (result ≡ count_to (refused_at frame.now level.0 input.now) (length input.now / 3)) ×
        Filled 4 (row_at frame.now level.0 input.now) (length input.now / 3) out.old out.new }
{
    let n = input.len() / 3;
    let mut refused = 0;
    let mut ahead = face_ahead(frame, input, 0);
    for k in 0..n {
        let face = ahead;
        ahead = face_ahead(frame, input, k + 1);
        let p = vec3d::vec_at(input, 3 * k);
        let located = place_of(frame, level, face, p.x, p.y, p.z);
        put_row(out, 4 * k, Row::of(located));
        refused += usize::from(located.is_err());
    }
    refused
}

// Written so that no sum can overflow: the rows that are left from the first row on are compared with those needed.
fn bad_rows(ins: usize, outs: usize, start: usize) -> bool
    ensures { result ≡ bad_rows ins outs start }
{
    let rows = outs / 4;
    if rows < start {
        return true;
    }
    (ins % 3 != 0) | (outs % 4 != 0) | (rows - start < ins / 3)
}

fn batch_verdict(
    frame: &[f64],
    level: CellLevel,
    ins: usize,
    outs: usize,
    start: usize,
) -> Result<(), Refusal>
    ensures { result ≡ first (reasons_for frame.now level.0 ins outs start) }
{
    if vec3d::bad_frame(frame) {
        return Err(Refusal::BadFrame);
    }
    if bad_rows(ins, outs, start) {
        return Err(Refusal::BadRows);
    }
    level.verdict()
}

// The places of 3n numbers' vectors, one row each, from the first row that the caller names on. The frame is tested once.
pub fn locate_all(
    frame: &[f64],
    level: CellLevel,
    input: &[f64],
    out: &mut [i32],
    first_row: usize,
) -> Result<usize, Refusal>
    ensures { record { said = said_batch result; rows = out.new } ≡
        batch_outcome frame.now level.0 input.now out.old first_row }
{
    batch_verdict(frame, level, input.len(), out.len(), first_row)?;
    let start = 4 * first_row;
    let refused = write_rows(frame, level, input, &mut out[start..]);
    Ok(refused)
}
