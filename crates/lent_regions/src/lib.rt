// What the C face does with region lists: one written from rows, the full check, a record, whether a place is in a list. A slice with fewer
// elements than the values gets BadRows, whatever the entry would say, and a refusal writes nothing.
#![tactic(auto)]

ghost use Rattle.reply.specs.Replies.{verdict_number};
ghost use Rattle.region.specs.Entries.{read_reply, has_reply};
ghost use Rattle.region_check.specs.Checks.{check_reply};
ghost use Rattle.lent.specs.Lent.{Gives, at};
ghost use Rattle.lent_regions.specs.Regions.{GivesList};

use faceijk::Place;
use level::CellLevel;
use reply::Refusal;

// The list of sorted rows: 16 bytes a row, then the last 88.
pub fn write(level: u32, rows: &[i32], out: &mut [u8]) -> Result<(), Refusal>
    ensures { GivesList level rows.now out.old out.new (verdict_number result) }
{
    region_write::write(CellLevel(level), rows, out)
}

// The full check: the list's level, and how many records it has.
pub fn check(list: &[u8], out: &mut [u32]) -> Result<(), Refusal>
    ensures { Gives 2 (check_reply list.now) out.old out.new (verdict_number result) }
{
    let values = out.first_chunk_mut::<2>().ok_or(Refusal::BadRows)?;
    let facts = region_check::check(list)?;
    lent::put(values, 0, &[facts.level, facts.count]);
    Ok(())
}

// The record with a number: face, i, j, k.
pub fn record(list: &[u8], number: u32, out: &mut [u32]) -> Result<(), Refusal>
    ensures { Gives 4 (read_reply list.now number) out.old out.new (verdict_number result) }
{
    let values = out.first_chunk_mut::<4>().ok_or(Refusal::BadRows)?;
    let p = region::read(list, number as usize)?;
    lent::put(values, 0, &lent::numbers(p));
    Ok(())
}

// Whether a place is in a list: 1 yes, 0 no.
pub fn has(list: &[u8], face: u32, i: u32, j: u32, k: u32, out: &mut [u32]) -> Result<(), Refusal>
    ensures { Gives 1 (has_reply list.now (at face i j k)) out.old out.new (verdict_number result) }
{
    let values = out.first_chunk_mut::<1>().ok_or(Refusal::BadRows)?;
    let listed = region::has(list, Place::new(face, i, j, k))?;
    lent::put(values, 0, &[u32::from(listed)]);
    Ok(())
}
