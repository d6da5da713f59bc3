// The entries of a directory: their fields, where their locations lead, and the lookup with its count.
#![tactic(auto)]

ghost use Rattle.std.specs.Prelude.{◌≡◌, ◌+◌};
ghost use Rattle.reply.specs.Reply.{told, told_alone, told_search};
ghost use Rattle.window.specs.Length.{sized};
ghost use Rattle.directory.specs.Directory.{entry_place, class_at};
ghost use Rattle.entries.specs.Entry.{fields_at, entry_in, lead_in, matches, holds_in, find_in};
ghost use Rattle.entries.specs.Part.{place_in, leads_to, part_within, part_of, part_in, bytes_of, begin_of};

use directory::{Directory, Kind};
use reply::{Fault, Met, Missed, Refusal};
use window::{Image, Offset, Physical};

// An entry's fields. A location of mode 0 is physical, of mode 1 a flash offset, and of mode 2 counts from the directory.
#[derive(Clone, Copy, Debug, PartialEq, Eq)]
pub struct Entry {
    pub class: u8,
    pub subprogram: u8,
    pub size: u32,
    pub location: u64,
    pub mode: u8,
}

// The fields of entry i, as the bytes there tell them.
fn fields_at(image: &[u8], kind: Kind, at: Offset, i: u32) -> Entry
    ensures { result ≡ fields_at image.now (entry_place kind at.0 i) }
{
    let place = directory::entry_place(kind, at, i);
    let word = le::u64_at(image, place + Kind::LOCATION);
    Entry {
        class: le::u8_at(image, place + Kind::CLASS),
        subprogram: le::u8_at(image, place + Kind::SUBPROGRAM),
        size: le::u32_at(image, place + Kind::SIZE),
        location: word % 0x4000_0000_0000_0000,
        mode: (word / 0x4000_0000_0000_0000 % 4) as u8,
    }
}

// The fields of the entry that begins where these bytes do. A caller that knows where an entry lies hands over its sixteen bytes, and no read of them is tested.
// `fields_at` says the same once more: one function for both would not be inlined, and its reads would be tested.
pub fn fields_of(bytes: &[u8]) -> Entry
    ensures { result ≡ fields_at bytes.now 0 }
{
    let word = le::u64_at(bytes, Kind::LOCATION);
    Entry {
        class: le::u8_at(bytes, Kind::CLASS),
        subprogram: le::u8_at(bytes, Kind::SUBPROGRAM),
        size: le::u32_at(bytes, Kind::SIZE),
        location: word % 0x4000_0000_0000_0000,
        mode: (word / 0x4000_0000_0000_0000 % 4) as u8,
    }
}

// Entry i of a directory.
pub fn entry_in(image: &[u8], kind: Kind, d: Directory, i: usize) -> Result<Entry, Fault>
    ensures { told result ≡ entry_in kind image.now d i }
{
    if (d.total() as usize) <= i {
        return Err(Refusal::Absent.into());
    }
    Ok(fields_at(image, kind, d.place(), i as u32))
}

// The type of entry i.
pub fn class_at(image: &[u8], kind: Kind, at: Offset, i: u32) -> u8
    ensures { result ≡ class_at kind image.now at.0 i }
{
    le::u8_at(image, directory::entry_place(kind, at, i) + Kind::CLASS)
}

// An entry that leads to level two, and its index.
#[derive(Clone, Copy, Debug, PartialEq, Eq)]
pub struct Lead {
    pub index: u32,
    pub entry: Entry,
}

// The lowest entry of a directory that leads to level two.
#[tactic(auto, using(crate::proofs::Cases::lead_start, crate::proofs::Cases::lead_end, crate::proofs::Cases::lead_here, crate::proofs::Cases::lead_past))]
pub fn lead_in(image: &[u8], kind: Kind, d: Directory) -> Result<Lead, Fault>
    ensures { told result ≡ lead_in kind image.now d }
{
    let n = d.total();
    let at = d.place();
    for i in 0..n {
        if class_at(image, kind, at, i) == kind.lead {
            return Ok(Lead {
                index: i,
                entry: fields_at(image, kind, at, i),
            });
        }
    }
    Err(Refusal::Absent.into())
}

// A lookup's match: its index, and the number of entries tested.
#[derive(Clone, Copy, Debug, PartialEq, Eq)]
pub struct Match {
    pub index: u32,
    pub tested: u32,
}

// Does an entry have this type and subprogram?
pub fn matches(e: Entry, class: u8, sub: u8) -> bool
    ensures { result ≡ matches e class sub }
{
    e.class == class && e.subprogram == sub
}

// Does entry i have this type and subprogram? Its first two bytes tell.
pub fn entry_matches(image: &[u8], kind: Kind, at: Offset, i: u32, class: u8, sub: u8) -> bool
    ensures { result ≡ matches (fields_at image.now (entry_place kind at.0 i)) class sub }
{
    let place = directory::entry_place(kind, at, i);
    le::u8_at(image, place + Kind::CLASS) == class
        && le::u8_at(image, place + Kind::SUBPROGRAM) == sub
}

// The lookup by type and subprogram in a directory.
#[tactic(auto, using(crate::proofs::Cases::find_start, crate::proofs::Cases::find_end, crate::proofs::Cases::find_here, crate::proofs::Cases::find_past))]
pub fn find_in(
    image: &[u8],
    kind: Kind,
    d: Directory,
    class: u8,
    sub: u8,
) -> Result<Match, Missed<Fault>>
    ensures { told_search result ≡ find_in kind image.now d class sub }
{
    let n = d.total();
    let at = d.place();
    for i in 0..n {
        if entry_matches(image, kind, at, i, class, sub) {
            return Ok(Match {
                index: i,
                tested: i + 1,
            });
        }
    }
    Err(Missed::Absent(n))
}

// Has some entry of a directory this type and subprogram?
#[tactic(auto, using(crate::proofs::Lowest::held_told))]
pub fn holds_in(image: &[u8], kind: Kind, d: Directory, class: u8, sub: u8) -> bool
    ensures { result ≡ holds_in kind image.now d class sub }
{
    find_in(image, kind, d, class, sub).is_ok()
}

// The place so many bytes behind another, where it does not lie beyond an image.
fn place_in(image: &Image, base: u32, location: u64) -> Result<Offset, Refusal>
    ensures { told_alone result ≡ place_in image.now (base + location) }
{
    let end = image.bytes().len();
    let from = location as usize;
    let base = base as usize;
    if end < from || end - from < base {
        return Err(Refusal::Outside);
    }
    Ok(Offset((base + from) as u32))
}

// Where the location of an entry leads.
#[tactic(auto, unfolding(crate::specs::Part::leads_to))]
fn place_of(image: &Image, window: usize, at: Offset, e: Entry) -> Result<Offset, Refusal>
    ensures { told_alone result ≡ leads_to window image.now at.0 e }
{
    match e.mode {
        0 => Physical(e.location).offset(window)?.within(image.bytes()),
        1 => place_in(image, 0, e.location),
        3 => Err(Refusal::Mode),
        _ => place_in(image, at.0, e.location),
    }
}

// Where the location of an entry leads, in a directory at an offset, through a window of so many bytes.
pub fn leads_to(image: &[u8], window: usize, at: Offset, e: Entry) -> Result<Offset, Refusal>
    ensures { told_alone result ≡ sized image.now (leads_to window image.now at.0 e) }
{
    place_of(&Image::new(image)?, window, at, e)
}

// A part of the image: where it begins, and its length.
#[derive(Clone, Copy, Debug, PartialEq, Eq)]
pub struct Part {
    pub place: Offset,
    pub length: usize,
}

// The part of so many bytes at a place, where it ends within the image.
#[tactic(auto, unfolding(crate::specs::Part::part_within))]
fn part_within(image: &[u8], place: Offset, size: u32) -> Result<Part, Fault>
    ensures { told result ≡ part_within image.now size place }
{
    let length = size as usize;
    if image.len() < (place.0 as usize) + length {
        return Err(Refusal::Outside.into());
    }
    Ok(Part { place, length })
}

// Where an entry's bytes lie.
#[tactic(auto, unfolding(crate::specs::Part::part_of))]
fn part_of(image: &Image, kind: Kind, window: usize, at: Offset, e: Entry) -> Result<Part, Fault>
    ensures { told result ≡ part_of kind window image.now at.0 e }
{
    if (e.class as u16) == kind.value {
        return Err(Refusal::Value.into());
    }
    part_within(image.bytes(), place_of(image, window, at, e)?, e.size)
}

// Where the bytes of an entry lie, in a directory at an offset, through a window of so many bytes, or why there are none.
pub fn entry_part(
    image: &[u8],
    kind: Kind,
    window: usize,
    at: Offset,
    e: Entry,
) -> Result<Part, Fault>
    ensures { told result ≡ sized image.now (part_of kind window image.now at.0 e) }
{
    part_of(&Image::new(image)?, kind, window, at, e)
}

// Where the bytes of entry i of a directory lie, or why there are none: a refusal of the entry was met there.
pub fn part_in(
    image: &[u8],
    kind: Kind,
    window: usize,
    d: Directory,
    i: usize,
) -> Result<Part, Fault>
    ensures { told result ≡ sized image.now (part_in kind window image.now d i) }
{
    let image = Image::new(image)?;
    let e = entry_in(image.bytes(), kind, d, i)?;
    part_of(&image, kind, window, d.place(), e).map_err(|fault| Fault {
        refusal: fault.refusal,
        met: Met::Entry {
            level: d.level(),
            index: i as u32,
            directory: d.place().0,
        },
    })
}

// The bytes of entry i of a directory: that part of the caller's image. Where refused there are none, and `part_in` gives the number.
#[tactic(auto, using(crate::proofs::Parts::sized_inside))]
pub fn bytes_in<'a>(image: &'a [u8], kind: Kind, window: usize, d: Directory, i: usize) -> &'a [u8]
    ensures result_value { result.now ≡ bytes_of image.now (sized image.now (part_in kind window image.now d i)) }
    ensures ref_ptr_value { result.ref_ptr ≡ begin_of image.entry.ref_ptr (sized image.now (part_in kind window image.now d i)) }
{
    match part_in(image, kind, window, d, i) {
        Ok(p) => {
            let start = p.place.0 as usize;
            let end = start + p.length;
            &image[start..end]
        }
        Err(_) => &image[0..0],
    }
}
