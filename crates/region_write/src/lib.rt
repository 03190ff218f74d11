// Writing a region list from lent rows, four signed numbers a place, as a batch leaves them.
#![tactic(auto)]

ghost use Rattle.std.specs.Prelude.{◌≡◌, true, false, ◌++◌, ◌+◌, ◌-◌, ◌*◌, ◌/◌, ◌≤◌, ◌<◌, length};
ghost use Rattle.std.proofs.lemmas.List.Edits.{sets};
ghost use Rattle.words.specs.Words.{word_bytes};
ghost use Rattle.words.specs.Rows.{Filled};
ghost use Rattle.region_check.specs.Sound.{faces_of, sound_to};
ghost use Rattle.region_check.specs.Starts.{begins};
ghost use Rattle.region_write.specs.Signed.{number_in, place_in};
ghost use Rattle.region_write.specs.Files.{place_bytes, start_bytes, tail_bytes};
ghost use Rattle.region_write.specs.Writing.{bad_room, bad_records, write_verdict, said_written, write_outcome};

use faceijk::Place;
use level::CellLevel;
use reply::Refusal;

// A number below 0 becomes the largest one, which is no face and no coordinate.
fn number_in(rows: &[i32], at: usize) -> u32
    requires { at < length rows.now }
    ensures { result ≡ number_in rows.now at }
{
    let x = rows[at];
    if x < 0 { u32::MAX } else { x as u32 }
}

fn place_in(rows: &[i32], n: usize) -> Place
    requires { 4 * n + 4 ≤ length rows.now }
    ensures { result ≡ place_in rows.now n }
{
    let at = 4 * n;
    Place {
        face: number_in(rows, at),
        i: number_in(rows, at + 1),
        j: number_in(rows, at + 2),
        k: number_in(rows, at + 3),
    }
}

// Written so that no product can overflow.
fn bad_room(ins: usize, outs: usize) -> bool
    ensures { result ≡ bad_room ins outs }
{
    if outs < region::TAIL {
        return true;
    }
    let room = outs - region::TAIL;
    (ins % 4 != 0) | (room % region::RECORD != 0) | (room / region::RECORD != ins / 4)
}

fn bad_records(rows: &[i32]) -> bool
    ensures { result ≡ bad_records rows.now }
{
    let count = rows.len() / 4;
    if region::MOST < count {
        return true;
    }
    !region_check::all_sound(count, |n| place_in(rows, n))
}

fn write_verdict(level: CellLevel, rows: &[i32], outs: usize) -> Result<(), Refusal>
    ensures { result ≡ write_verdict level.0 rows.now outs }
{
    if bad_room(rows.len(), outs) {
        return Err(Refusal::BadRows);
    }
    if bad_records(rows) {
        return Err(Refusal::BadList);
    }
    level.verdict()
}

fn put_pair(out: &mut [u8], at: usize, a: u32, b: u32)
    requires { at + 8 ≤ length out.old }
    ensures { out.new ≡ sets out.old at (word_bytes a ++ word_bytes b) }
{
    words::put_word(out, at, a);
    words::put_word(out, at + 4, b);
}

fn put_place(out: &mut [u8], at: usize, p: Place)
    requires { at + 16 ≤ length out.old }
    ensures { out.new ≡ sets out.old at (place_bytes p) }
{
    put_pair(out, at, p.face, p.i);
    put_pair(out, at + 8, p.j, p.k);
}

fn put_places(rows: &[i32], out: &mut [u8])
    requires { 16 * (length rows.now / 4) ≤ length out.old }
    ensures { Filled 16 (λ n. place_bytes (place_in rows.now n)) (length rows.now / 4) out.old out.new }
{
    let count = rows.len() / 4;
    for row in 0..count {
        put_place(out, region::RECORD * row, place_in(rows, row));
    }
}

// Where a face begins, found by halves: the rows stand in order.
fn begin_of(rows: &[i32], count: usize, face: u32) -> usize
    requires { (4 * count ≤ length rows.now) × (sound_to (place_in rows.now) count ≡ true) × (face ≤ 20) }
    ensures { (result ≡ begins (faces_of (place_in rows.now)) count face) × (result ≤ count) }
{
    region::halve(0, count, |n| place_in(rows, n).face < face)
}

fn put_starts(rows: &[i32], count: usize, out: &mut [u8])
    requires count_in_bounds { (4 * count ≤ length rows.now) × (sound_to (place_in rows.now) count ≡ true) }
    requires count_bound { (count ≤ 2147483647) × (80 ≤ length out.old) }
    ensures { Filled 4 (start_bytes (place_in rows.now) count) 20 out.old out.new }
{
    for face in 0..20 {
        let start = begin_of(rows, count, face);
        words::put_word(out, 4 * (face as usize), start as u32);
    }
}

fn put_tail(level: CellLevel, rows: &[i32], count: usize, out: &mut [u8])
    requires count_in_bounds { (4 * count ≤ length rows.now) × (sound_to (place_in rows.now) count ≡ true) }
    requires count_bound { (count ≤ 2147483647) × (length out.old ≡ 88) }
    ensures { out.new ≡ tail_bytes (place_in rows.now) count level.0 }
{
    put_starts(rows, count, out);
    put_pair(out, 80, level.0, count as u32);
}

// Writes the list of sorted rows; a refused call writes nothing.
pub fn write(level: CellLevel, rows: &[i32], out: &mut [u8]) -> Result<(), Refusal>
    ensures { record { said = said_written result; bytes = out.new } ≡ write_outcome level.0 rows.now out.old }
{
    write_verdict(level, rows, out.len())?;
    let count = rows.len() / 4;
    let end = region::RECORD * count;
    put_places(rows, out);
    put_tail(level, rows, count, &mut out[end..]);
    Ok(())
}
