// What is wrong at a place that a refusal carries: the field, what stands there and what should, for a message to people.
#![tactic(auto)]

ghost use Rattle.std.specs.Prelude.{◌≡◌, ◌-◌, ◌<◌, ◌^◌, length};
ghost use Rattle.reply.specs.Reply.{carried_of, told};
ghost use Rattle.reply.specs.Number.{refusal_number};
ghost use Rattle.lent.specs.Lent.{answered, number_left, words_left};
ghost use Rattle.efs.specs.Rules.{rules_of};
ghost use Rattle.le.specs.Le.{bits_below};
ghost use Rattle.directory.specs.Entry as entry;
ghost use Rattle.directory.specs.Directory.{checksum_at};
ghost use Rattle.wrong.specs.Wrong.{asked, field_wrong, short_wrong, header_wrong, entry_wrong, wrong_by, at_level, wrong_in, wrong_at, lay_wrong};

use directory::{Directory, Kind};
use efs::Rules;
use reply::{Fault, Met, Refusal};
use window::{Image, Offset};

// A field that is wrong: the number that refuses it, where it begins in the image and its bytes, what stands there, and what should. Of a 1 the bytes that
// there are and should be; of a 3 and a 16 the largest that is allowed; of a 7 where the entry's bytes must end at the latest; of a 14 the level where the
// type may stand; of a 17 the type that is a value; of an 18 the earlier entry. The number stays a number, since `SameNumber` (specs/Told.antt) speaks of any.
#[derive(Clone, Copy, Debug, PartialEq, Eq)]
pub struct WrongField {
    pub number: u8,
    pub field: u64,
    pub bytes: u64,
    pub stands: u64,
    pub should: u64,
}

// How many bytes the image has from a place on.
fn room_at(image: &[u8], place: usize) -> u64
    ensures { result ≡ length image.now - place }
{
    image.len().saturating_sub(place) as u64
}

// The checksum that a directory of n entries should have, of those of its bytes that the image has.
fn should_sum(image: &[u8], kind: Kind, at: Offset, n: u32) -> u32
    ensures { result ≡ checksum_at kind image.now at.0 n }
{
    let from = (at.0 as usize) + Directory::TOTAL;
    let end = directory::entry_place(kind, at, n);
    if image.len() < from {
        return fletcher::fletcher(&image[0..0]);
    }
    if image.len() < end {
        return fletcher::fletcher(&image[from..]);
    }
    fletcher::fletcher(&image[from..end])
}

// Where bytes are missing: of the header, or of the entries.
fn in_short_header(image: &[u8], rules: Rules, at: Offset) -> WrongField
    ensures { result ≡ short_wrong rules image.now at.0 }
{
    let kind = rules.kind;
    let o = at.0 as usize;
    let behind = o + Directory::HEADER;
    if image.len() < behind {
        return WrongField {
            number: 1,
            field: o as u64,
            bytes: 16,
            stands: room_at(image, o),
            should: 16,
        };
    }
    let size = (le::u32_at(image, o + Directory::TOTAL) as u64) * (kind.entry as u64);
    WrongField {
        number: 1,
        field: behind as u64,
        bytes: size,
        stands: room_at(image, behind),
        should: size,
    }
}

// The level whose cookie is asked for: where none was found, level one's.
fn asked(level: u32) -> u32
    ensures { result ≡ asked level }
{
    if level == 0 { 1 } else { level }
}

// What is wrong in a header, by the number that refuses it.
fn in_header(image: &[u8], rules: Rules, refusal: Refusal, level: u32, at: Offset) -> WrongField
    ensures { result ≡ header_wrong rules image.now (refusal_number refusal) level at.0 }
{
    let kind = rules.kind;
    let o = at.0 as usize;
    let number = refusal.number();
    match refusal {
        Refusal::Short => in_short_header(image, rules, at),
        Refusal::Signature => WrongField {
            number,
            field: (o + Directory::COOKIE) as u64,
            bytes: 4,
            stands: le::u32_at(image, o + Directory::COOKIE) as u64,
            should: directory::cookie_of(kind, asked(level)) as u64,
        },
        Refusal::Limits => WrongField {
            number,
            field: (o + Directory::TOTAL) as u64,
            bytes: 4,
            stands: le::u32_at(image, o + Directory::TOTAL) as u64,
            should: rules.limit as u64,
        },
        Refusal::Checksum => {
            let n = le::u32_at(image, o + Directory::TOTAL);
            let sum = le::u32_at(image, o + Directory::CHECKSUM);
            let due = should_sum(image, kind, at, n);
            WrongField {
                number,
                field: (o + Directory::CHECKSUM) as u64,
                bytes: 4,
                stands: sum as u64,
                should: due as u64,
            }
        }
        _ => WrongField {
            number,
            field: (o + Directory::RESERVED) as u64,
            bytes: 4,
            stands: le::u32_at(image, o + Directory::RESERVED) as u64,
            should: 0,
        },
    }
}

// An entry's flags with the reserved ones cleared: those below `used` are kept.
fn kept_flags(flags: u16, used: u8) -> u16
    ensures { result ≡ bits_below used flags }
{
    if used < 16 {
        return flags % (1u16 << used);
    }
    flags
}

// What is wrong in an entry's type.
fn in_type(image: &[u8], number: u8, place: usize, should: u64) -> WrongField
    requires { place < 2 ^ 48 }
    ensures { result ≡ field_wrong number entry.class image.now place should }
{
    WrongField {
        number,
        field: (place + Kind::CLASS) as u64,
        bytes: 1,
        stands: le::u8_at(image, place + Kind::CLASS) as u64,
        should,
    }
}

// What is wrong in an entry, by the number that refuses it.
fn in_entry(image: &[u8], rules: Rules, refusal: Refusal, i: u32, at: Offset) -> WrongField
    ensures { result ≡ entry_wrong rules image.now (refusal_number refusal) i at.0 }
{
    let kind = rules.kind;
    let place = directory::entry_place(kind, at, i);
    let number = refusal.number();
    match refusal {
        Refusal::Field => {
            let flags = le::u16_at(image, place + Kind::FLAGS);
            WrongField {
                number,
                field: (place + Kind::FLAGS) as u64,
                bytes: 2,
                stands: flags as u64,
                should: kept_flags(flags, kind.used) as u64,
            }
        }
        Refusal::Misplaced => in_type(image, number, place, 1),
        Refusal::Repeated => {
            let earlier = directory::earlier_of(image, kind, at, i);
            in_type(image, number, place, earlier as u64)
        }
        Refusal::Value => in_type(image, number, place, kind.value as u64),
        Refusal::Mode => WrongField {
            number,
            field: (place + Kind::LOCATION) as u64,
            bytes: 8,
            stands: le::u64_at(image, place + Kind::LOCATION) / 0x4000_0000_0000_0000 % 4,
            should: 2,
        },
        _ => WrongField {
            number,
            field: (place + Kind::LOCATION) as u64,
            bytes: 8,
            stands: le::u64_at(image, place + Kind::LOCATION) % 0x4000_0000_0000_0000,
            should: image.len() as u64,
        },
    }
}

// What is wrong where a fault was met. One that was met nowhere is passed on.
fn wrong_by(image: &[u8], rules: Rules, fault: Fault) -> Result<WrongField, Fault>
    ensures { told result ≡ wrong_by rules image.now (refusal_number fault.refusal) (carried_of fault.met) }
{
    match fault.met {
        Met::Alone => Err(fault),
        Met::Header { level, directory } => {
            Ok(in_header(image, rules, fault.refusal, level, Offset(directory)))
        }
        Met::Entry {
            level: _,
            index,
            directory,
        } => Ok(in_entry(image, rules, fault.refusal, index, Offset(directory))),
    }
}

// The directory of a level, or, for level 0, of the level that its cookie names.
fn at_level(image: &[u8], rules: Rules, level: u32, at: Offset) -> Result<Directory, Fault>
    ensures { told result ≡ at_level rules level image.now at.0 }
{
    if level == 0 {
        return directory::directory_by_cookie(image, rules.kind, rules.limit, at);
    }
    directory::directory_at(image, rules.kind, rules.limit, level, at)
}

// What is wrong in a directory, or, where it is good, in the location of its entry i.
fn wrong_in(
    image: &Image,
    rules: Rules,
    level: u32,
    at: Offset,
    i: usize,
) -> Result<WrongField, Fault>
    ensures { told result ≡ wrong_in rules image.now i (at_level rules level image.now at.0) }
{
    let bytes = image.bytes();
    match at_level(bytes, rules, level, at) {
        Ok(d) => match entries::part_in(bytes, rules.kind, rules.window, d, i) {
            Ok(_) => Err(Refusal::Absent.into()),
            Err(fault) => wrong_by(bytes, rules, fault),
        },
        Err(fault) => wrong_by(bytes, rules, fault),
    }
}

// What is wrong at a place that a refusal carries: a directory's begin, its level, and an index for an entry's.
#[tactic(auto, unfolding(crate::specs::Wrong::wrong_at))]
pub fn wrong_at(image: &[u8], place: usize, level: u32, i: usize) -> Result<WrongField, Fault>
    ensures { told result ≡ wrong_at (rules_of image.now) image.now place level i }
{
    if 2 < level {
        return Err(Refusal::Range.into());
    }
    let sized = Image::new(image)?;
    if image.len() < place {
        return Err(Refusal::Outside.into());
    }
    wrong_in(&sized, efs::rules_of(image), level, Offset(place as u32), i)
}

// Five words: the number, where the field begins and its bytes, what stands there, and what should.
pub fn wrong(
    image: &[u8],
    place: usize,
    level: u32,
    i: usize,
    words: &mut [u64],
) -> Result<(), Refusal>
    ensures value { answered result ≡ number_left lay_wrong (wrong_at (rules_of image.now) image.now place level i) words.old }
    ensures words_after { words.new ≡ words_left lay_wrong (wrong_at (rules_of image.now) image.now place level i) words.old }
{
    match wrong_at(image, place, level, i) {
        Ok(w) => lent::give(
            words,
            &[w.number as u64, w.field, w.bytes, w.stands, w.should],
        ),
        Err(fault) => lent::refuse_fault(words, fault),
    }
}
