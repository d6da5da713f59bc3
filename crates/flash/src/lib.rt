// The calls on a flash image from its directory pointer on: the directories of both levels, their entries, their bytes, and the lookup in one of them.
#![tactic(auto)]

ghost use Rattle.std.specs.Prelude.{◌≡◌, Err};
ghost use Rattle.reply.specs.Reply.{told, told_search};
ghost use Rattle.directory.specs.declared.Directory.{Directory};
ghost use Rattle.entries.specs.Part.{bytes_of, begin_of};
ghost use Rattle.window.specs.Length.{sized};
ghost use Rattle.efs.specs.Rules.{rules_of};
ghost use Rattle.flash.specs.Flash.{level_one, level_two_at, level_two, flash_directory, flash_entry, flash_part, from_lookup, flash_find};

use directory::Directory;
use efs::Rules;
use entries::{Entry, Match, Part};
use reply::{Fault, Met, Missed, Refusal};
use window::Image;

// The directory of a level: its place, its level and its total.
pub fn directory(image: &[u8], level: u32) -> Result<Directory, Fault>
    ensures { told result ≡ flash_directory (rules_of image.now) level image.now }
{
    flash_directory(image, efs::rules_of(image), level)
}

// Entry i of the directory of a level.
pub fn entry(image: &[u8], level: u32, i: usize) -> Result<Entry, Fault>
    ensures { told result ≡ flash_entry (rules_of image.now) level image.now i }
{
    let rules = efs::rules_of(image);
    let d = flash_directory(image, rules, level)?;
    entries::entry_in(image, rules.kind, d, i)
}

// Where the bytes of entry i of the directory of a level lie, or why there are none.
#[tactic(auto, using(crate::proofs::Ways::part_led))]
pub fn part(image: &[u8], level: u32, i: usize) -> Result<Part, Fault>
    ensures { told result ≡ flash_part (rules_of image.now) level image.now i }
{
    let rules = efs::rules_of(image);
    let d = flash_directory(image, rules, level)?;
    entries::part_in(image, rules.kind, rules.window, d, i)
}

// The bytes of entry i of the directory of a level: that part of the caller's image. Where refused there are none, and `part` gives the number.
#[tactic(auto, using(crate::proofs::Ways::part_led))]
pub fn bytes<'a>(image: &'a [u8], level: u32, i: usize) -> &'a [u8]
    ensures result_value { result.now ≡ bytes_of image.now (flash_part (rules_of image.now) level image.now i) }
    ensures ref_ptr_value { result.ref_ptr ≡ begin_of image.entry.ref_ptr (flash_part (rules_of image.now) level image.now i) }
{
    let rules = efs::rules_of(image);
    match flash_directory(image, rules, level) {
        Ok(d) => entries::bytes_in(image, rules.kind, rules.window, d, i),
        Err(_) => &image[0..0],
    }
}

// The lookup by type and subprogram in the directory of a level.
pub fn find(image: &[u8], level: u32, class: u8, sub: u8) -> Result<Match, Missed<Fault>>
    ensures { told_search result ≡ flash_find (rules_of image.now) level image.now class sub }
{
    let rules = efs::rules_of(image);
    let d = flash_directory(image, rules, level).map_err(no_lookup)?;
    entries::find_in(image, rules.kind, d, class, sub)
}

// What a lookup answers where there is no directory to look in.
pub fn no_lookup(fault: Fault) -> Missed<Fault>
    ensures { told_search {A = Directory} (Err result) ≡ from_lookup (told (Err fault)) }
{
    match fault.refusal {
        Refusal::Absent => Missed::Absent(0),
        _ => Missed::Refused(fault),
    }
}

// The directory of a level number, in any image, by these rules.
#[tactic(auto, using(directory::proofs::Cases::level_above), unfolding(crate::specs::Flash::flash_directory))]
fn flash_directory(image: &[u8], rules: Rules, level: u32) -> Result<Directory, Fault>
    ensures { told result ≡ flash_directory rules level image.now }
{
    if level < 1 || 2 < level {
        return Err(Refusal::Range.into());
    }
    let image = Image::new(image)?;
    let one = level_one(image.bytes(), rules)?;
    if level == 1 {
        return Ok(one);
    }
    level_two(&image, rules, one)
}

// The directory of level one.
fn level_one(image: &[u8], rules: Rules) -> Result<Directory, Fault>
    ensures { told result ≡ level_one rules image.now }
{
    let pointer = efs::pointer_in(image, rules)?;
    directory::directory_at(image, rules.kind, rules.limit, 1, pointer.place)
}

// The directory of level two, by the lowest lead of level one.
fn level_two(image: &Image, rules: Rules, d: Directory) -> Result<Directory, Fault>
    ensures { told result ≡ level_two rules image.now d }
{
    let lead = entries::lead_in(image.bytes(), rules.kind, d)?;
    led_to(image, rules, d, lead.index, lead.entry)
}

// The directory of level two that e, entry i of a directory, leads to.
pub fn level_two_at(
    image: &[u8],
    rules: Rules,
    d: Directory,
    i: u32,
    e: Entry,
) -> Result<Directory, Fault>
    ensures { told result ≡ sized image.now (level_two_at rules image.now d i e) }
{
    led_to(&Image::new(image)?, rules, d, i, e)
}

// The same. What is wrong in the location was met in the entry.
fn led_to(image: &Image, rules: Rules, d: Directory, i: u32, e: Entry) -> Result<Directory, Fault>
    ensures { told result ≡ level_two_at rules image.now d i e }
{
    let bytes = image.bytes();
    let place = entries::leads_to(bytes, rules.window, d.place(), e).map_err(|refusal| Fault {
        refusal,
        met: Met::Entry {
            level: d.level(),
            index: i,
            directory: d.place().0,
        },
    })?;
    directory::directory_at(bytes, rules.kind, rules.limit, 2, place)
}
