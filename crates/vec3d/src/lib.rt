// Unit vectors, the lent frame of twenty faces, and the face that is nearest to a vector: the face choice of the source's `vec3d.rs`.
#![tactic(auto)]

ghost use Rattle.std.specs.Prelude.{◌≡◌, Bool, true, false, ℕ, ◌+◌, ◌*◌, ◌≤◌, ◌<◌, length};
ghost use Rattle.reply.specs.Replies.{fine};
ghost use Rattle.double.specs.Double.{finite};
ghost use Rattle.vec3d.specs.Vectors.{dot_of, minus_of, bad_number, off_sphere, vector_verdict};
ghost use Rattle.vec3d.specs.Frame.{vec_at, face_at, some_below, bad_frame};
ghost use Rattle.vec3d.specs.Nearest.{distance_of, closer_of, nearest_by, nearest_to, said_nearest, nearest_reply};
ghost use Rattle.vec3d.specs.AsAsked.{narrow, loose, unfit, near_one, doubtful, pair_of, distance_at, Distances, NearestIf};

use reply::Refusal;

#[derive(Clone, Copy, Debug, PartialEq)]
pub struct Vec3d {
    pub x: f64,
    pub y: f64,
    pub z: f64,
}

// What the frame holds of a face: its centre, the tangent u along its i-axis, and v, u turned a quarter counterclockwise.
#[derive(Clone, Copy, Debug, PartialEq)]
pub struct FaceAxes {
    pub centre: Vec3d,
    pub u: Vec3d,
    pub v: Vec3d,
}

// A face, and the squared distance of its centre.
#[derive(Clone, Copy, Debug, PartialEq)]
pub struct Nearest {
    pub face: u32,
    pub distance: f64,
}

// What one look at a frame gives: whether a face is doubtful, and the nearest one.
#[derive(Clone, Copy)]
struct Looked {
    pub doubt: bool,
    pub nearest: Nearest,
}

// Whether x is from -3 to 3, by two comparisons: a NaN is not.
fn is_narrow(x: f64) -> bool
    ensures { result ≡ narrow x }
{
    (x <= Vec3d::WIDEST) & (-Vec3d::WIDEST <= x)
}

impl Vec3d {
    // How far from 1 the dot product of a unit vector with itself may be: 2^-40.
    pub const TOLERANCE: f64 = 0.0000000000009094947017729282379150390625;

    // Half of it, 2^-41: nearer to 1 than that a square is beyond doubt.
    const CERTAIN: f64 = 0.00000000000045474735088646411895751953125;

    // How large a part of u or v may be.
    pub const WIDEST: f64 = 3.0;

    // Its square: squares that sum to less are of no part so large.
    const WIDEST_SQUARE: f64 = 9.0;

    pub fn new(x: f64, y: f64, z: f64) -> Vec3d
        ensures { result ≡ record { x = x; y = y; z = z } }
    {
        Vec3d { x, y, z }
    }

    // ax·bx + (ay·by + az·bz), each operation rounded.
    pub fn dot(self, other: Vec3d) -> f64
        ensures { result ≡ dot_of self other }
    {
        double::mul_add(
            self.x,
            other.x,
            double::mul_add(self.y, other.y, self.z * other.z),
        )
    }

    fn minus(self, other: Vec3d) -> Vec3d
        ensures { result ≡ minus_of self other }
    {
        Vec3d::new(self.x - other.x, self.y - other.y, self.z - other.z)
    }

    // Whether a part is a NaN or an infinity.
    fn bad_number(self) -> bool
        ensures { result ≡ bad_number self }
    {
        !double::is_finite(self.x) | !double::is_finite(self.y) | !double::is_finite(self.z)
    }

    // Written as "not within", so that a NaN is off the sphere too.
    fn off_sphere(self) -> bool
        ensures { result ≡ off_sphere self }
    {
        let square = self.dot(self);
        !((1.0 - Vec3d::TOLERANCE <= square) & (square <= 1.0 + Vec3d::TOLERANCE))
    }

    // Whether a part is above 3 in size or no finite number. Written as "not within", so that a NaN is loose too.
    fn loose(self) -> bool
        ensures { result ≡ loose self }
    {
        !(is_narrow(self.x) & is_narrow(self.y) & is_narrow(self.z))
    }

    // Whether this is a unit vector: a BadNumber comes before an OffSphere. A vector on the sphere has no bad number, so that one test is enough for it.
    pub fn verdict(self) -> Result<(), Refusal>
        ensures { result ≡ vector_verdict self }
    {
        if self.off_sphere() {
            if self.bad_number() {
                return Err(Refusal::BadNumber);
            }
            return Err(Refusal::OffSphere);
        }
        Ok(())
    }
}

// The vector whose three numbers begin at a place of a slice. Public for the batch, which reads its vectors so.
pub fn vec_at(s: &[f64], at: usize) -> Vec3d
    requires { at + 3 ≤ length s.now }
    ensures { result ≡ vec_at s.now at }
{
    Vec3d::new(s[at], s[at + 1], s[at + 2])
}

// The one way to a face's centre, u and v. Public for the projection, which has tested the frame.
pub fn face_at(frame: &[f64], face: u32) -> FaceAxes
    requires { 9 * face + 9 ≤ length frame.now }
    ensures { result ≡ face_at frame.now face }
{
    let at = 9 * (face as usize);
    FaceAxes {
        centre: vec_at(frame, at),
        u: vec_at(frame, at + 3),
        v: vec_at(frame, at + 6),
    }
}

fn unfit(frame: &[f64], face: u32) -> bool
    requires { 9 * face + 9 ≤ length frame.now }
    ensures { result ≡ unfit frame.now face }
{
    let FaceAxes { centre, u, v } = face_at(frame, face);
    u.loose() | v.loose() | centre.off_sphere()
}

// Whether a square is 1 beyond doubt: it differs by at most half of what a unit vector's may, so that the rounding of the difference decides nothing.
fn is_unit(square: f64) -> bool
    ensures { result ≡ near_one square }
{
    let off = square - 1.0;
    (-Vec3d::CERTAIN <= off) & (off <= Vec3d::CERTAIN)
}

// Whether a face is not fit beyond doubt. Every face of an icosahedron passes, and the three sums of squares take less time than the tests of the parts.
fn doubtful(frame: &[f64], face: u32) -> bool
    requires { 9 * face + 9 ≤ length frame.now }
    ensures { result ≡ doubtful frame.now face }
{
    let FaceAxes { centre, u, v } = face_at(frame, face);
    !((u.dot(u) < Vec3d::WIDEST_SQUARE)
        & (v.dot(v) < Vec3d::WIDEST_SQUARE)
        & is_unit(centre.dot(centre)))
}

// One pass over the faces finds what is not finite too. All twenty are looked at: a loop that ends at the first that fails is slower on a good frame.
fn some_fails<F: Fn(u32) -> bool>(fails: F) -> bool
    requires { (face : ℕ) → face < 20 → F.pre fails face }
    ensures { (test : ℕ → Bool) → ((face : ℕ) (b : Bool) → face < 20 → F.post fails face b → b ≡ test face) → result ≡ some_below test 20 }
{
    let mut found = false;
    for face in 0..20 {
        found |= fails(face);
    }
    found
}

// Whether the frame is refused. An entry asks once; what stands below asks that the answer was no. Only a frame with a doubtful face is tested
// part by part.
pub fn bad_frame(frame: &[f64]) -> bool
    ensures { result ≡ bad_frame frame.now }
{
    if frame.len() != 180 {
        return true;
    }
    if some_fails(|face| doubtful(frame, face)) {
        return some_fails(|face| unfit(frame, face));
    }
    false
}

impl Nearest {
    // Strictly smaller wins, so ties stay with the lower face.
    fn closer(self, face: u32, distance: f64) -> Nearest
        ensures { result ≡ closer_of self face distance }
    {
        if distance < self.distance {
            Nearest { face, distance }
        } else {
            self
        }
    }
}

fn distance_to(frame: &[f64], face: u32, p: Vec3d) -> f64
    requires { 9 * face + 9 ≤ length frame.now }
    ensures { result ≡ distance_of frame.now p face }
{
    let centre = face_at(frame, face).centre;
    let away = p.minus(centre);
    away.dot(away)
}

// Each face's squared distance from a vector.
fn distances(frame: &[f64], p: Vec3d) -> [f64; 20]
    requires { length frame.now ≡ 180 }
    ensures { Distances frame.now p result }
{
    let mut far = [0.0; 20];
    for face in 0..20 {
        far[face as usize] = distance_to(frame, face, p);
    }
    far
}

// The nearer one of a face and the next.
fn pair_at(far: [f64; 20], face: u32) -> Nearest
    requires { face ≤ 18 }
    ensures { result ≡ pair_of (distance_at far) face }
{
    let at = face as usize;
    let first = Nearest {
        face,
        distance: far[at],
    };
    first.closer(face + 1, far[at + 1])
}

// The nearest of twenty faces by their squared distances, if these are numbers. Two faces are compared with each other before the nearer one is
// compared with the best so far, which halves the comparisons that wait for one another.
fn least(far: [f64; 20]) -> Nearest
    ensures { ((k : ℕ) → k < 20 → finite (distance_at far k) ≡ true) → result ≡ nearest_by (distance_at far) 19 }
{
    let mut best = pair_at(far, 0);
    for half in 1..10 {
        let pair = pair_at(far, 2 * half);
        best = best.closer(pair.face, pair.distance);
    }
    best
}

// The nearest face of a frame that has passed. It asks that the vector passes too: of one that does not, it promises nothing about the face it names.
// Public for `locate`, which tests frame and vector itself.
pub fn nearest_of(frame: &[f64], p: Vec3d) -> Nearest
    requires { bad_frame frame.now ≡ false }
    ensures { vector_verdict p ≡ fine → result ≡ nearest_to frame.now p 19 }
{
    least(distances(frame, p))
}

// The nearest face of a vector, and in the same pass whether a face is doubtful: each centre is read once for both.
fn look(frame: &[f64], p: Vec3d) -> Looked
    requires { length frame.now ≡ 180 }
    ensures { (result.doubt ≡ some_below (doubtful frame.now) 20) × NearestIf frame.now p result.nearest }
{
    let mut far = [0.0; 20];
    let mut doubt = false;
    for face in 0..20 {
        doubt |= doubtful(frame, face);
        far[face as usize] = distance_to(frame, face, p);
    }
    Looked {
        doubt,
        nearest: least(far),
    }
}

// The face nearest to a unit vector, and its squared distance. As in `bad_frame`, only a frame with a doubtful face is tested part by part.
pub fn nearest_face(frame: &[f64], p: Vec3d) -> Result<Nearest, Refusal>
    ensures { said_nearest result ≡ nearest_reply frame.now p }
{
    if frame.len() != 180 {
        return Err(Refusal::BadFrame);
    }
    let looked = look(frame, p);
    let nearest = looked.nearest;
    if looked.doubt {
        if some_fails(|face| unfit(frame, face)) {
            return Err(Refusal::BadFrame);
        }
    }
    p.verdict()?;
    Ok(nearest)
}
