// The GUID table at the end of a guest firmware image: read and looked up.
#![tactic(auto)]

ghost use Rattle.std.specs.Prelude.{◌≡◌, ◌+◌, ◌-◌, ◌^◌, ◌<◌, ◌≤◌, length};
ghost use Rattle.reply.specs.Reply.{given, then, told_alone, told_search_alone};
ghost use Rattle.guids.specs.Ending.{end_length};
ghost use Rattle.guids.specs.Table.{length_at, guid_at, footer, header_of, length_before, entry_before, entries_before, entries_under, entries_part, totals_of, table_of, find_in, find_of, entry_of};

use reply::{Missed, Refusal};

// A GUID: its sixteen bytes in memory are those of `low`, then those of `high`, lowest first.
#[derive(Clone, Copy, Debug, PartialEq, Eq)]
pub struct Guid {
    pub low: u64,
    pub high: u64,
}

impl Guid {
    // 96b582de-1fb2-45f7-baea-a366c55a082d
    pub const FOOTER: Guid = Guid {
        low: 0x45f7_1fb2_96b5_82de,
        high: 0x2d08_5ac5_66a3_eaba,
    };
}

// An entry: its GUID, and where in the image its data begins and how many bytes it has.
#[derive(Clone, Copy, Debug, PartialEq, Eq)]
pub struct GuidEntry {
    pub guid: Guid,
    pub place: usize,
    pub length: usize,
}

impl GuidEntry {
    // what an entry ends with, and the table itself: so many bytes, and where in them the fields begin
    pub const END: usize = 18;

    pub const WHOLE_LENGTH: usize = 0;

    pub const LOW: usize = 2;

    pub const HIGH: usize = 10;
}

// A table's total, in bytes, and the number of its entries.
#[derive(Clone, Copy, Debug, PartialEq, Eq)]
pub struct Totals {
    pub total: u32,
    pub entries: u32,
}

impl Totals {
    // the bytes behind a table, to the image's end
    pub const BEHIND: usize = 32;

    // the bytes of the shortest image with a table: the table's end, and the bytes behind it
    pub const SHORTEST: usize = GuidEntry::END + Totals::BEHIND;

    // the largest total
    pub const LARGEST: usize = 65535;
}

// A lookup's match: its data's place and length, and the number of entries tested.
#[derive(Clone, Copy, Debug, PartialEq, Eq)]
pub struct GuidMatch {
    pub place: usize,
    pub length: usize,
    pub tested: u32,
}

// The GUID of an end that begins at a place.
#[tactic(auto, using(crate::proofs::Here::low_in, crate::proofs::Here::high_in))]
fn guid_at(image: &[u8], at: usize) -> Guid
    requires { at + end_length ≤ length image.now }
    ensures { result ≡ guid_at image.now at }
{
    let end = &image[at..at + GuidEntry::END];
    Guid {
        low: le::u64_at(end, GuidEntry::LOW),
        high: le::u64_at(end, GuidEntry::HIGH),
    }
}

// The length of an end that begins at a place.
#[tactic(auto, using(crate::proofs::Here::length_in))]
fn length_at(image: &[u8], at: usize) -> u16
    requires { at + end_length ≤ length image.now }
    ensures { result ≡ length_at image.now at }
{
    le::u16_at(&image[at..at + GuidEntry::END], GuidEntry::WHOLE_LENGTH)
}

// The checks before the entries: the table's total.
#[tactic(auto, using(crate::proofs::Walk::footer_is, std::proofs::lemmas::Bool::Decides::nat_tests), unfolding(crate::specs::Table::header_of))]
fn header(image: &[u8]) -> Result<u16, Refusal>
    ensures { told_alone result ≡ header_of image.now }
{
    if image.len() < Totals::SHORTEST {
        return Err(Refusal::Short);
    }
    let at = image.len() - Totals::SHORTEST;
    if guid_at(image, at) != Guid::FOOTER {
        return Err(Refusal::Signature);
    }
    let total = length_at(image, at);
    if !(GuidEntry::END..=image.len() - Totals::BEHIND).contains(&usize::from(total)) {
        return Err(Refusal::Limits);
    }
    Ok(total)
}

// The length of the entry that ends at this place of a table's entries.
#[tactic(auto, using(std::proofs::lemmas::Bool::Decides::nat_tests), unfolding(crate::specs::Table::length_before))]
fn length_before(entries: &[u8], end: usize) -> Result<usize, Refusal>
    requires { end ≤ length entries.now }
    ensures { told_alone result ≡ length_before entries.now end end }
{
    if end < GuidEntry::END {
        return Err(Refusal::Structure);
    }
    let length = usize::from(length_at(entries, end - GuidEntry::END));
    if !(GuidEntry::END..=end).contains(&length) {
        return Err(Refusal::Structure);
    }
    Ok(length)
}

// Checks and counts the entries that these bytes are, backwards. Each entry tells where it begins or is refused: an iterator would give a Result for each, and be stopped by hand at the first
// that is refused, so a plain loop is no longer.
#[tactic(auto, using(crate::proofs::Walk::length_facts))]
fn counted(entries: &[u8]) -> Result<u32, Refusal>
    requires { length entries.now < 2 ^ 32 }
    ensures { told_alone result ≡ then (entries_before entries.now (length entries.now) (length entries.now)) (λ es. given (length es)) }
{
    let mut end = entries.len();
    let mut count: u32 = 0;
    while 0 < end {
        end -= length_before(entries, end)?;
        count += 1;
    }
    Ok(count)
}

// The bytes of the entries of a table of this total.
#[tactic(auto, using(crate::proofs::Walk::header_facts))]
fn entries_part(image: &[u8], total: u16) -> &[u8]
    requires { header_of image.now ≡ given total }
    ensures { result.now ≡ entries_part image.now total }
{
    &image[image.len() - Totals::BEHIND - usize::from(total)..image.len() - Totals::SHORTEST]
}

// Checks a table: its total, and the number of its entries.
#[tactic(auto, using(crate::proofs::Walk::header_facts))]
pub fn table(image: &[u8]) -> Result<Totals, Refusal>
    ensures { told_alone result ≡ table_of image.now }
{
    let total = header(image)?;
    let entries = counted(entries_part(image, total))?;
    Ok(Totals {
        total: u32::from(total),
        entries,
    })
}

// The entry that ends at a place of a checked table.
fn entry_before(image: &[u8], end: usize) -> GuidEntry
    requires { (end ≤ length image.now) × (end_length ≤ length_at image.now (end - end_length)) × (length_at image.now (end - end_length) ≤ end) }
    ensures { result ≡ entry_before image.now end (length_at image.now (end - end_length)) }
{
    let at = end - GuidEntry::END;
    let length = usize::from(length_at(image, at));
    GuidEntry {
        guid: guid_at(image, at),
        place: end - length,
        length: length - GuidEntry::END,
    }
}

// Looks a GUID up in a table of this total. Each entry is checked as it is tested, so that the table is walked once; where one matches, those
// behind it are checked too, since one that is not good refuses the whole table.
#[tactic(auto, using(crate::proofs::Walk::header_facts, crate::proofs::Walk::length_facts, crate::proofs::Part::part_long, crate::proofs::Part::part_lies, crate::proofs::Lookup::find_begin, crate::proofs::Lookup::find_none, crate::proofs::Lookup::find_stop, crate::proofs::Lookup::find_pass, crate::proofs::Lookup::find_hit, crate::proofs::Lookup::find_bad))]
fn find_under(image: &[u8], total: u16, guid: Guid) -> Result<GuidMatch, Missed<Refusal>>
    requires { header_of image.now ≡ given total }
    ensures { told_search_alone result ≡ then (entries_under image.now total) (find_in guid) }
{
    let begin = image.len() - Totals::BEHIND - usize::from(total);
    let entries = entries_part(image, total);
    let mut end = entries.len();
    let mut before: u32 = 0;
    // No `for`, as in `counted`.
    while 0 < end {
        let length = length_before(entries, end).map_err(Missed::Refused)?;
        if guid_at(entries, end - GuidEntry::END) == guid {
            counted(&entries[..end - length]).map_err(Missed::Refused)?;
            return Ok(GuidMatch {
                place: begin + end - length,
                length: length - GuidEntry::END,
                tested: before + 1,
            });
        }
        end -= length;
        before += 1;
    }
    Err(Missed::Absent(before))
}

// Looks a GUID up, nearest the footer first: its data's place and length, and the number of entries tested.
pub fn find(image: &[u8], guid: Guid) -> Result<GuidMatch, Missed<Refusal>>
    ensures { told_search_alone result ≡ find_of image.now guid }
{
    let total = header(image).map_err(Missed::Refused)?;
    find_under(image, total, guid)
}

// Entry i of a checked table, counted from the footer.
#[tactic(auto, using(crate::proofs::Walk::good_table, crate::proofs::Walk::pick_none, crate::proofs::Walk::pick_some, crate::proofs::Walk::standing_at, crate::proofs::Walk::next_end, crate::proofs::Walk::entry_is))]
fn entry_in(image: &[u8], t: Totals, i: usize) -> Result<GuidEntry, Refusal>
    requires { table_of image.now ≡ given t }
    ensures { told_alone result ≡ entry_of image.now i }
{
    if t.entries as usize <= i {
        return Err(Refusal::Absent);
    }
    let mut end = image.len() - Totals::SHORTEST;
    for _ in 0..i {
        end = entry_before(image, end).place;
    }
    Ok(entry_before(image, end))
}

// Entry i, counted from the footer.
pub fn entry(image: &[u8], i: usize) -> Result<GuidEntry, Refusal>
    ensures { told_alone result ≡ entry_of image.now i }
{
    entry_in(image, table(image)?, i)
}
