// The full check of a region list: its length, its records in order, the twenty starts, the level.
#![tactic(auto)]

ghost use Rattle.std.specs.Prelude.{◌≡◌, ◌||◌, ℕ, ◌+◌, ◌-◌, ◌*◌, ◌≤◌, ◌<◌, ltb, leb, eqb, length};
ghost use Rattle.region.specs.Lists.{record_at, start_of, level_of, count_of};
ghost use Rattle.region_check.specs.Sound.{wrong_place, follows as followsOf, sound_to};
ghost use Rattle.region_check.specs.Starts.{splits};
ghost use Rattle.region_check.specs.Checks.{face_at, starts_split, passes as passesOf, said_checked, check_reply};

use faceijk::Place;
use level::CellLevel;
use reply::Refusal;

// What a list that passes says of itself.
#[derive(Clone, Copy, Debug, PartialEq, Eq)]
pub struct Facts {
    pub level: u32,
    pub count: u32,
}

fn wrong_place(p: Place) -> bool
    ensures { result ≡ wrong_place p }
{
    p.verdict().is_err()
}

// Whether a place may stand at number n after the one before it. Public, with the next one, for the crates above.
pub fn follows(n: usize, last: Place, here: Place) -> bool
    ensures { result ≡ followsOf n last here }
{
    if wrong_place(here) {
        return false;
    }
    if n == 0 {
        return true;
    }
    region::is_before(last, here)
}

// Whether the places with the numbers below a count, each given by its number, stand in order and none is wrong.
pub fn all_sound<F: Fn(usize) -> Place>(count: usize, place_at: F) -> bool
    requires { (n : ℕ) → n < count → F.pre place_at n }
    ensures { (at : ℕ → Place) → ((n : ℕ) (p : Place) → n < count → F.post place_at n p → p ≡ at n) → result ≡ sound_to at count }
{
    for n in 0..count {
        let last = place_at(n.saturating_sub(1));
        let here = place_at(n);
        if !follows(n, last, here) {
            return false;
        }
    }
    true
}

// The record before n lies on a lower face.
fn lower_before(list: &[u8], face: u32, n: usize) -> bool
    requires { 16 * n ≤ length list.now }
    ensures { result ≡ (eqb n 0 || ltb (face_at list.now (n - 1)) face) }
{
    if n == 0 {
        return true;
    }
    region::record_at(list, n - 1).face < face
}

// Record n, if there is one, lies on no lower face.
fn none_lower(list: &[u8], face: u32, n: usize, count: usize) -> bool
    requires { (16 * count ≤ length list.now) × (n ≤ count) }
    ensures { result ≡ (eqb n count || leb face (face_at list.now n)) }
{
    if n == count {
        return true;
    }
    face <= region::record_at(list, n).face
}

fn start_splits(list: &[u8], face: u32, count: usize) -> bool
    requires { (length list.now ≡ 88 + 16 * count) × (face < 20) }
    ensures { result ≡ splits (face_at list.now) count face (start_of list.now face) }
{
    let start = region::start_of(list, face);
    if count < start {
        return false;
    }
    lower_before(list, face, start) & none_lower(list, face, start, count)
}

fn starts_split(list: &[u8], count: usize) -> bool
    requires { (length list.now ≡ 88 + 16 * count) × (count ≡ count_of list.now) }
    ensures { result ≡ starts_split list.now }
{
    (0..20).all(|face| start_splits(list, face, count))
}

fn level_of(list: &[u8]) -> u32
    requires { 88 ≤ length list.now }
    ensures { result ≡ level_of list.now }
{
    words::word_at(list, list.len() - 8)
}

fn passes(list: &[u8]) -> bool
    ensures { result ≡ passesOf list.now }
{
    if region::wrong_length(list) {
        return false;
    }
    let count = region::count_of(list);
    if !all_sound(count, |n| region::record_at(list, n)) {
        return false;
    }
    starts_split(list, count) & !(CellLevel::FINEST < level_of(list))
}

// The level and the count of a list that passes.
pub fn check(list: &[u8]) -> Result<Facts, Refusal>
    ensures { said_checked result ≡ check_reply list.now }
{
    if !passes(list) {
        return Err(Refusal::BadList);
    }
    Ok(Facts {
        level: level_of(list),
        count: region::count_of(list) as u32,
    })
}
