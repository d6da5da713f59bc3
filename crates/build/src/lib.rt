// A directory started at a buffer's start, and extended there by one entry.
#![tactic(auto)]

ghost use Rattle.std.specs.Prelude.{◌≡◌, ◌+◌, ◌*◌, ◌-◌, ◌<◌, ◌≤◌, ◌^◌, length};
ghost use Rattle.reply.specs.Reply.{given, told};
ghost use Rattle.le.specs.Le.{put_bytes};
ghost use Rattle.le.specs.Field.{get};
ghost use Rattle.directory.specs.Header as header;
ghost use Rattle.directory.specs.Directory.{psp_kind, total_at, checksum_at};
ghost use Rattle.build.specs.Write.{entry_bytes, start_of, started_by, room_for, extend_of, extended_by};

use directory::{Directory, Kind};
use reply::{Fault, Refusal};
use window::Offset;

// What a writer is given of an entry: any numbers, since `extend` checks them.
#[derive(Clone, Copy, Debug, PartialEq, Eq)]
pub struct Fields {
    pub class: u8,
    pub subprogram: u8,
    pub size: u32,
    pub location: u64,
    pub mode: u32,
}

// The checksum of a directory with no entries.
const EMPTY: u32 = 0xFFFF_FFFF;

// The largest total of a directory.
const LIMIT: u32 = 512;

// The bytes of a PSP directory's entry.
const ENTRY: usize = 16;

// Starts a directory of a level: an empty one is written at the buffer's start, and nothing else.
#[tactic(auto, using(crate::proofs::Cases::header_put, directory::proofs::Cases::level_above), unfolding(crate::specs::Write::start_of))]
pub fn start(buf: &mut [u8], level: u32) -> Result<u32, Fault>
    ensures result_value { told result ≡ start_of level buf.old }
    ensures buf_after { buf.new ≡ started_by level buf.old (start_of level buf.old) }
{
    if level < 1 || 2 < level {
        return Err(Refusal::Range.into());
    }
    if buf.len() < Directory::HEADER {
        return Err(Refusal::Room.into());
    }
    le::put32(
        buf,
        Directory::COOKIE,
        directory::cookie_of(directory::psp_kind(), level),
    );
    le::put32(buf, Directory::CHECKSUM, EMPTY);
    le::put32(buf, Directory::TOTAL, 0);
    le::put32(buf, Directory::RESERVED, 0);
    Ok(0)
}

// What is asked of an entry for a good directory in a buffer: the new total.
#[tactic(auto, unfolding(crate::specs::Write::room_for))]
fn room_for(buf: &[u8], d: Directory, f: Fields) -> Result<u32, Fault>
    ensures { told result ≡ room_for f buf.now d }
{
    let kind = directory::psp_kind();
    let n = d.total();
    if 0x3FFF_FFFF_FFFF_FFFF < f.location || 3 < f.mode {
        return Err(Refusal::Field.into());
    }
    if !directory::may_stand(kind, d.level(), f.class) {
        return Err(Refusal::Misplaced.into());
    }
    if entries::holds_in(buf, kind, d, f.class, f.subprogram) {
        return Err(Refusal::Repeated.into());
    }
    if LIMIT <= n {
        return Err(Refusal::Limits.into());
    }
    if buf.len() < Directory::HEADER + (n as usize) * ENTRY + ENTRY {
        return Err(Refusal::Room.into());
    }
    Ok(n + 1)
}

// What an extend by this entry answers, with no byte written.
pub fn admit(buf: &[u8], f: Fields) -> Result<u32, Fault>
    ensures { told result ≡ extend_of f buf.now }
{
    let d = directory::directory_by_cookie(buf, directory::psp_kind(), LIMIT, Offset(0))?;
    room_for(buf, d, f)
}

// Writes an entry's sixteen bytes at the start of a part.
#[tactic(auto, using(crate::proofs::Cases::entry_put))]
fn put_entry(part: &mut [u8], f: Fields)
    requires { (f.location < 2 ^ 62) × (f.mode ≤ 3) × (16 ≤ length part.old) }
    ensures { part.new ≡ put_bytes (entry_bytes f) part.old 0 }
{
    let word = f.location + (f.mode as u64) * 0x4000_0000_0000_0000;
    le::put8(part, Kind::CLASS, f.class);
    le::put8(part, Kind::SUBPROGRAM, f.subprogram);
    le::put16(part, Kind::FLAGS, 0);
    le::put32(part, Kind::SIZE, f.size);
    le::put64(part, Kind::LOCATION, word);
}

// Writes the entry as the last of `total`, the total, and the new checksum. That is made of the old one and the entry's own, with no second pass: the words
// before the entry weigh eight more, and the first of them, the total, is one larger.
fn append(buf: &mut [u8], f: Fields, total: u32)
    requires location_bound { (f.location < 2 ^ 62) × (f.mode ≤ 3) }
    requires le_total { (1 ≤ total) × (total ≤ 512) × (16 + total * 16 ≤ length buf.old) }
    requires buf_value { (total_at buf.old 0 ≡ total - 1) × (get header.checksum buf.old 0 ≡ checksum_at psp_kind buf.old 0 (total - 1)) }
    ensures { buf.new ≡ extended_by f buf.old (given total) }
{
    let at = Directory::HEADER + (total as usize - 1) * ENTRY;
    let words = 4 + (total as u16 - 1) * 8;
    let before = fletcher::raised(le::u32_at(buf, Directory::CHECKSUM), words);
    put_entry(&mut buf[at..], f);
    le::put32(buf, Directory::TOTAL, total);
    let entry = fletcher::fletcher(&buf[at..at + ENTRY]);
    le::put32(buf, Directory::CHECKSUM, fletcher::joined(before, 8, entry));
}

// Extends the directory at the buffer's start by one entry: the new total. Refused, every byte is kept.
pub fn extend(buf: &mut [u8], f: Fields) -> Result<u32, Fault>
    ensures result_value { told result ≡ extend_of f buf.old }
    ensures buf_after { buf.new ≡ extended_by f buf.old (extend_of f buf.old) }
{
    let total = admit(buf, f)?;
    append(buf, f, total);
    Ok(total)
}
