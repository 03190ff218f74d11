// What the functions of the C face share: a list of values stored into a lent slice, a place as numbers, and what C is told of a refusal.
#![tactic(auto)]

ghost use Rattle.std.specs.Prelude.{◌≡◌, ◌+◌, ◌≤◌, length};
ghost use Rattle.reply.specs.Replies.{verdict_number};
ghost use Rattle.faceijk.specs.Places.{place_values};
ghost use Rattle.lent.specs.Lent.{stored};

use faceijk::Place;
use reply::Refusal;

// Each caller has seen before that there is room.
pub fn put<T: Copy>(out: &mut [T], at: usize, from: &[T])
    requires { at + length from.now ≤ length out.old }
    ensures { out.new ≡ stored out.old at from.now }
{
    out[at..at + from.len()].copy_from_slice(from);
}

// A place as the C face writes it: face, i, j, k.
pub fn numbers(p: Place) -> [u32; 4]
    ensures { result ≡ place_values p }
{
    [p.face, p.i, p.j, p.k]
}

// What a C function returns: the refusal's number, 0 for none.
pub fn status(outcome: Result<(), Refusal>) -> u32
    ensures { result ≡ verdict_number outcome }
{
    match outcome {
        Ok(()) => 0,
        Err(refusal) => refusal.number(),
    }
}
