// Region lists: a file of places at one cell level, sorted, with an index at the tail. Reading a record, and whether a place is in the list.
#![tactic(auto)]

ghost use Rattle.std.specs.Prelude.{◌≡◌, Bool, false, ℕ, ◌+◌, ◌-◌, ◌*◌, ◌≤◌, ◌<◌, length};
ghost use Rattle.words.specs.Words.{word_at};
ghost use Rattle.region.specs.Places.{before};
ghost use Rattle.region.specs.Lists.{record_at, start_of, end_of, count_of, wrong_length, bad_span};
ghost use Rattle.region.specs.Entries.{said_recorded, read_reply, halved, sought_in, bad_for, has_verdict, said_listed, has_reply};

use faceijk::Place;
use reply::Refusal;

// The bytes of a record, those after the records, and how many records there may be.
pub const RECORD: usize = 16;

pub const TAIL: usize = 88;

pub const MOST: usize = 2147483647;

// The order of a list: by face, then i, j, k. With branches: in a long list the search takes half the time that one joined test takes.
pub fn is_before(p: Place, q: Place) -> bool
    ensures { result ≡ before p q }
{
    if p.face != q.face {
        return p.face < q.face;
    }
    if p.i != q.i {
        return p.i < q.i;
    }
    if p.j != q.j {
        return p.j < q.j;
    }
    p.k < q.k
}

// A number of a list, as a record number.
fn number_at(list: &[u8], at: usize) -> usize
    requires { at + 4 ≤ length list.now }
    ensures { (result ≡ word_at list.now at) × (result < 4294967296) }
{
    words::word_at(list, at) as usize
}

// Public, as the two functions below it, for the full check; each asks only that the bytes are there.
pub fn record_at(list: &[u8], n: usize) -> Place
    requires { 16 * n + 16 ≤ length list.now }
    ensures { result ≡ record_at list.now n }
{
    let at = RECORD * n;
    Place {
        face: words::word_at(list, at),
        i: words::word_at(list, at + 4),
        j: words::word_at(list, at + 8),
        k: words::word_at(list, at + 12),
    }
}

pub fn count_of(list: &[u8]) -> usize
    requires { 88 ≤ length list.now }
    ensures { (result ≡ count_of list.now) × (result < 4294967296) }
{
    number_at(list, list.len() - 4)
}

pub fn start_of(list: &[u8], face: u32) -> usize
    requires { (88 ≤ length list.now) × (face < 20) }
    ensures { result ≡ start_of list.now face }
{
    number_at(list, list.len() - TAIL + 4 * (face as usize))
}

// Where a face ends: where the next one begins, or at the count.
fn end_of(list: &[u8], face: u32) -> usize
    requires { (88 ≤ length list.now) × (face < 20) }
    ensures { result ≡ end_of list.now face }
{
    if face == Place::LAST_FACE {
        return count_of(list);
    }
    start_of(list, face + 1)
}

// All that the quick question and the reader ask of a list besides its starts. Public for the full check.
pub fn wrong_length(list: &[u8]) -> bool
    ensures { result ≡ wrong_length list.now }
{
    if list.len() < TAIL {
        return true;
    }
    let count = count_of(list);
    (MOST < count) | (list.len() != TAIL + RECORD * count)
}

// The record with a number.
pub fn read(list: &[u8], n: usize) -> Result<Place, Refusal>
    ensures { said_recorded result ≡ read_reply list.now n }
{
    if wrong_length(list) {
        return Err(Refusal::BadList);
    }
    if count_of(list) <= n {
        return Err(Refusal::BadRange);
    }
    Ok(record_at(list, n))
}

fn bad_span(list: &[u8], face: u32) -> bool
    requires { (88 ≤ length list.now) × (face < 20) }
    ensures { result ≡ bad_span list.now face }
{
    let end = end_of(list, face);
    (end < start_of(list, face)) | (count_of(list) < end)
}

fn bad_for(list: &[u8], face: u32) -> bool
    ensures { result ≡ bad_for list.now face }
{
    if wrong_length(list) {
        return true;
    }
    if Place::LAST_FACE < face {
        return false;
    }
    bad_span(list, face)
}

fn has_verdict(list: &[u8], place: Place) -> Result<(), Refusal>
    ensures { result ≡ has_verdict list.now place }
{
    if bad_for(list, place.face) {
        return Err(Refusal::BadList);
    }
    place.verdict()
}

// Where the numbers that lie low end, from one number up to another, found by halves as a slice's `partition_point` finds it. Public for the writer.
pub fn halve<F: Fn(usize) -> bool>(from: usize, to: usize, is_low: F) -> usize
    requires ordered { from ≤ to }
    requires callable { (n : ℕ) → from ≤ n → n < to → F.pre is_low n }
    ensures end { (low : ℕ → Bool) → ((n : ℕ) (b : Bool) → from ≤ n → n < to → F.post is_low n b → b ≡ low n) → result ≡ halved low (to - from) from to }
    ensures within { result ≤ to }
{
    let mut lo = from;
    let mut hi = to;
    while lo < hi {
        let mid = lo + (hi - lo) / 2;
        if is_low(mid) {
            lo = mid + 1;
        } else {
            hi = mid;
        }
    }
    lo
}

fn sought_in(list: &[u8], place: Place) -> bool
    requires face_value { bad_for list.now place.face ≡ false }
    requires face_bound { place.face < 20 }
    ensures { result ≡ sought_in list.now place }
{
    let face = place.face;
    let end = end_of(list, face);
    let at = halve(
        start_of(list, face),
        end,
        |n| is_before(record_at(list, n), place),
    );
    if end <= at {
        return false;
    }
    record_at(list, at) == place
}

// Whether a place is in a list: looks only between the start of its face and that of the next.
pub fn has(list: &[u8], place: Place) -> Result<bool, Refusal>
    ensures { said_listed result ≡ has_reply list.now place }
{
    has_verdict(list, place)?;
    Ok(sought_in(list, place))
}
