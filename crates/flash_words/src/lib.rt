// What the calls on a flash image give, in lent words: the EFS, the directory pointer, the directory of a level, which entries of it repeat, its entries,
// and where their bytes lie. The lookups stand in `lookup_words`.
#![tactic(auto)]

ghost use Rattle.std.specs.Prelude.{◌≡◌};
ghost use Rattle.lent.specs.Lent.{answered, number_left, words_left};
ghost use Rattle.efs.specs.Rules.{rules_of};
ghost use Rattle.efs.specs.Efs.{flash_efs, flash_pointer};
ghost use Rattle.flash.specs.Flash.{flash_directory, flash_entry, flash_part};
ghost use Rattle.repeats.specs.Repeats.{flash_repeats};
ghost use Rattle.flash_words.specs.Images.{lay_efs, lay_pointer, lay_directory, lay_repeat, lay_entry, lay_part};

use directory::Directory;
use entries::{Entry, Part};
use reply::Refusal;

// The words of a directory: its place, level and total.
pub fn directory_words(d: Directory) -> [u64; 3]
    ensures { result ≡ lay_directory d }
{
    [d.place().0 as u64, d.level() as u64, d.total() as u64]
}

// The words of an entry: its type, subprogram, size, location and mode.
pub fn entry_words(e: Entry) -> [u64; 5]
    ensures { result ≡ lay_entry e }
{
    [
        e.class as u64,
        e.subprogram as u64,
        e.size as u64,
        e.location,
        e.mode as u64,
    ]
}

// The words of a part: where it begins, and its length.
pub fn part_words(p: Part) -> [u64; 2]
    ensures { result ≡ lay_part p }
{
    [p.place.0 as u64, p.length as u64]
}

// Three words: the EFS's place, and its pointers at 0x10 and at 0x14 as they stand.
#[tactic(auto, using(lent::proofs::Laws::number_fits, lent::proofs::Laws::words_kept))]
pub fn efs(image: &[u8], words: &mut [u64]) -> Result<(), Refusal>
    ensures value { answered result ≡ number_left lay_efs (flash_efs (rules_of image.now) image.now) words.old }
    ensures words_after { words.new ≡ words_left lay_efs (flash_efs (rules_of image.now) image.now) words.old }
{
    let e = efs::flash_efs(image)?;
    lent::give(words, &[e.place.0 as u64, e.early as u64, e.late as u64])
}

// Three words: the field of the EFS that holds the directory pointer, its value, and the place where it leads.
#[tactic(auto, using(lent::proofs::Laws::number_fits, lent::proofs::Laws::words_kept))]
pub fn pointer(image: &[u8], words: &mut [u64]) -> Result<(), Refusal>
    ensures value { answered result ≡ number_left lay_pointer (flash_pointer (rules_of image.now) image.now) words.old }
    ensures words_after { words.new ≡ words_left lay_pointer (flash_pointer (rules_of image.now) image.now) words.old }
{
    let p = efs::flash_pointer(image)?;
    lent::give(words, &[p.field as u64, p.value as u64, p.place.0 as u64])
}

// Three words: the directory's place, level and total.
pub fn directory(image: &[u8], level: u32, words: &mut [u64]) -> Result<(), Refusal>
    ensures value { answered result ≡ number_left lay_directory (flash_directory (rules_of image.now) level image.now) words.old }
    ensures words_after { words.new ≡ words_left lay_directory (flash_directory (rules_of image.now) level image.now) words.old }
{
    match flash::directory(image, level) {
        Ok(d) => lent::give(words, &directory_words(d)),
        Err(fault) => lent::refuse_fault(words, fault),
    }
}

// Four words: of a directory that is refused since an entry repeats, that entry, the earlier one, and the type and subprogram of both.
pub fn repeated(image: &[u8], level: u32, words: &mut [u64]) -> Result<(), Refusal>
    ensures value { answered result ≡ number_left lay_repeat (flash_repeats (rules_of image.now) level image.now) words.old }
    ensures words_after { words.new ≡ words_left lay_repeat (flash_repeats (rules_of image.now) level image.now) words.old }
{
    match repeats::repeated(image, level) {
        Ok(r) => lent::give(
            words,
            &[
                r.entry as u64,
                r.earlier as u64,
                r.class as u64,
                r.subprogram as u64,
            ],
        ),
        Err(fault) => lent::refuse_fault(words, fault),
    }
}

// Five words: the entry's type, subprogram, size, location and mode.
pub fn entry(image: &[u8], level: u32, index: u64, words: &mut [u64]) -> Result<(), Refusal>
    ensures value { answered result ≡ number_left lay_entry (flash_entry (rules_of image.now) level image.now index) words.old }
    ensures words_after { words.new ≡ words_left lay_entry (flash_entry (rules_of image.now) level image.now index) words.old }
{
    match flash::entry(image, level, index as usize) {
        Ok(e) => lent::give(words, &entry_words(e)),
        Err(fault) => lent::refuse_fault(words, fault),
    }
}

// Two words: where the entry's bytes begin in the image, and how many they are.
pub fn part(image: &[u8], level: u32, index: u64, words: &mut [u64]) -> Result<(), Refusal>
    ensures value { answered result ≡ number_left lay_part (flash_part (rules_of image.now) level image.now index) words.old }
    ensures words_after { words.new ≡ words_left lay_part (flash_part (rules_of image.now) level image.now index) words.old }
{
    match flash::part(image, level, index as usize) {
        Ok(p) => lent::give(words, &part_words(p)),
        Err(fault) => lent::refuse_fault(words, fault),
    }
}
