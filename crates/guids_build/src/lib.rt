// The GUID table at the end of a guest firmware image: started, and extended by one entry.
#![tactic(auto)]

ghost use Rattle.std.specs.Prelude.{◌≡◌, ◌+◌, ◌≤◌, length};
ghost use Rattle.reply.specs.Reply.{given, told_alone};
ghost use Rattle.le.specs.Le.{put_bytes};
ghost use Rattle.guids.specs.Ending.{end_length, behind_table};
ghost use Rattle.guids.specs.Table.{end_bytes};
ghost use Rattle.guids_build.specs.Write.{start_of, started_by, all_zero, room_for, extend_of, extended_by};

use guids::{Guid, GuidEntry, Totals};
use reply::Refusal;

// Writes what the table and each entry end with: a length in two bytes, and a GUID.
#[tactic(auto, using(crate::proofs::Writing::put_end_lem))]
fn put_end(buf: &mut [u8], at: usize, n: u16, guid: Guid)
    requires { at + end_length ≤ length buf.old }
    ensures { buf.new ≡ put_bytes (end_bytes n guid) buf.old at }
{
    le::put16(buf, at + GuidEntry::WHOLE_LENGTH, n);
    le::put64(buf, at + GuidEntry::LOW, guid.low);
    le::put64(buf, at + GuidEntry::HIGH, guid.high);
}

// Starts a table with no entries: the footer and the total, 18, are written and nothing else.
#[tactic(auto, using(crate::proofs::Writing::start_none, crate::proofs::Writing::start_some, guids::proofs::Walk::footer_is))]
pub fn start(buf: &mut [u8]) -> Result<u32, Refusal>
    ensures result_value { told_alone result ≡ start_of buf.old }
    ensures buf_after { buf.new ≡ started_by buf.old (start_of buf.old) }
{
    if buf.len() < Totals::SHORTEST {
        return Err(Refusal::Room);
    }
    let at = buf.len() - Totals::SHORTEST;
    put_end(buf, at, GuidEntry::END as u16, Guid::FOOTER);
    Ok(GuidEntry::END as u32)
}

// Are all bytes zero? A `for`, since `iter().all` takes some three times the instructions for each byte.
#[tactic(auto, using(crate::proofs::Writing::zero_end, crate::proofs::Writing::zero_step, crate::proofs::Writing::zero_stop))]
fn all_zero(bytes: &[u8]) -> bool
    ensures { result ≡ all_zero bytes.now }
{
    for byte in bytes {
        if *byte != 0 {
            return false;
        }
    }
    true
}

// Has a good table room for an entry of `more` bytes that brings it to this total?
#[tactic(auto, using(std::proofs::lemmas::Bool::Decides::nat_tests), unfolding(crate::specs::Write::room_for))]
fn room_for(buf: &[u8], more: usize, total: usize) -> Result<u32, Refusal>
    requires { (more ≤ total) × (behind_table ≤ length buf.now) }
    ensures { told_alone result ≡ room_for buf.now more total }
{
    if Totals::LARGEST < total {
        return Err(Refusal::Limits);
    }
    if buf.len() - Totals::BEHIND < total {
        return Err(Refusal::Room);
    }
    let from = buf.len() - Totals::BEHIND - total;
    if !all_zero(&buf[from..from + more]) {
        return Err(Refusal::Written);
    }
    Ok(total as u32)
}

// What an extend with these data bytes answers, and nothing is written: the new total.
#[tactic(auto, using(guids::proofs::Walk::good_table))]
pub fn admit(buf: &[u8], bytes: &[u8]) -> Result<u32, Refusal>
    ensures { told_alone result ≡ extend_of buf.now bytes.now }
{
    let more = bytes.len() + GuidEntry::END;
    room_for(buf, more, guids::table(buf)?.total as usize + more)
}

// Writes the new total, and the entry at the table's far end.
fn append(buf: &mut [u8], total: u32, guid: Guid, bytes: &[u8])
    requires { extend_of buf.old bytes.now ≡ given total }
    ensures { buf.new ≡ extended_by buf.old guid bytes.now (given total) }
{
    let at = buf.len() - Totals::SHORTEST;
    let from = buf.len() - Totals::BEHIND - total as usize;
    let behind = from + bytes.len();
    le::put16(buf, at + GuidEntry::WHOLE_LENGTH, total as u16);
    le::put_bytes(buf, from, bytes);
    put_end(buf, behind, (bytes.len() + GuidEntry::END) as u16, guid);
}

// Extends a table by an entry with this GUID and these data bytes, farthest from the footer: the new total.
pub fn extend(buf: &mut [u8], guid: Guid, bytes: &[u8]) -> Result<u32, Refusal>
    ensures result_value { told_alone result ≡ extend_of buf.old bytes.now }
    ensures buf_after { buf.new ≡ extended_by buf.old guid bytes.now (extend_of buf.old bytes.now) }
{
    let total = admit(buf, bytes)?;
    append(buf, total, guid, bytes);
    Ok(total)
}
