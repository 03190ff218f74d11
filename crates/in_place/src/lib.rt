// Settling in place, on a lent place, as the source has it; and the one caller that lends a place of its own.
#![tactic(auto)]

ghost use Rattle.std.specs.Prelude.{◌≡◌};
ghost use Rattle.in_place.specs.Lent.{place_after, said_stepped, steps_reply};

use faceijk::Place;
use level::GridLevel;
use reply::Refusal;

// What a lent place holds afterwards, and what is said of it.
#[derive(Clone, Copy, Debug, PartialEq, Eq)]
pub struct Lent {
    pub place: Place,
    pub answer: Result<u64, Refusal>,
}

// Settling in place: the settled place is stored back, and a refused place stays unchanged.
pub fn settle_in(p: &mut Place, level: GridLevel, substrate: bool) -> Result<u64, Refusal>
    ensures { (p.new ≡ place_after p.old level.0 substrate)
        × (said_stepped result ≡ steps_reply p.old level.0 substrate) }
{
    let rested = p.settle(level, substrate)?;
    *p = rested.place;
    Ok(rested.steps)
}

// A place of one's own, lent to `settle_in` and had back.
pub fn settle_lent(p: Place, level: GridLevel, substrate: bool) -> Lent
    ensures { (result.place ≡ place_after p level.0 substrate) × (said_stepped result.answer ≡ steps_reply p level.0 substrate) }
{
    let mut q = p;
    let answer = settle_in(&mut q, level, substrate);
    Lent { place: q, answer }
}

// The same with plain numbers.
pub fn settle_at(face: u32, i: u32, j: u32, k: u32, level: u32, substrate: bool) -> Lent
    ensures { (result.place ≡ place_after (record { face = face; i = i; j = j; k = k }) level substrate)
        × (said_stepped result.answer ≡ steps_reply (record { face = face; i = i; j = j; k = k }) level substrate) }
{
    settle_lent(Place::new(face, i, j, k), GridLevel(level), substrate)
}
