// All entries of the directory that a view holds, in lent words, each with its part or the number that refuses it. The directory is checked once.
#![tactic(auto)]

ghost use Rattle.std.specs.Prelude.{◌≡◌, ◌++◌, ◌+◌, ◌*◌, ◌≤◌, length, take, drop};
ghost use Rattle.reply.specs.Reply.{told};
ghost use Rattle.lent.specs.Lent.{answered, number_for, words_for, number_left, words_left};
ghost use Rattle.window.specs.Length.{longest};
ghost use Rattle.directory.specs.Directory.{psp_kind, entry_place};
ghost use Rattle.efs.specs.Rules.{rules_of};
ghost use Rattle.place.specs.Place.{check_at};
ghost use Rattle.all_entries.specs.AllEntries.{lay_part_or, lay_row, row_at, rows_from, lay_entries};

use directory::Directory;
use entries::{Entry, Part};
use reply::{Fault, Refusal};
use view::View;
use window::Offset;

// The words of a directory, and those of an entry with its part.
const HEAD: usize = 3;

const ROW: usize = 8;

// The bytes of a PSP directory's entry.
const ENTRY: usize = 16;

// The last three words of a row: of a part that is given 0, where it begins and its length; of one that is refused its number, 0 and 0.
fn part_words(part: Result<Part, Fault>) -> [u64; 3]
    ensures { result ≡ lay_part_or (told part) }
{
    match part {
        Ok(p) => {
            let [place, length] = flash_words::part_words(p);
            [0, place, length]
        }
        Err(fault) => [fault.refusal.number() as u64, 0, 0],
    }
}

// The words of a row: an entry, and its part.
fn row_of(e: Entry, part: Result<Part, Fault>) -> [u64; 8]
    ensures { result ≡ lay_row e (told part) }
{
    let [class, subprogram, size, location, mode] = flash_words::entry_words(e);
    let [number, place, length] = part_words(part);
    [
        class, subprogram, size, location, mode, number, place, length,
    ]
}

// Writes the row of entry i, which lies in the image: its sixteen bytes are read with no test.
fn put_entry(image: &[u8], d: Directory, i: u32, row: &mut [u64])
    requires { (length image.now ≤ longest) × (entry_place psp_kind d.place.0 i + 16 ≤ length image.now) × (length row.old ≡ 8) }
    ensures { row.new ≡ row_at (rules_of image.now) image.now d i }
{
    let rules = efs::rules_of(image);
    let at = d.place();
    let from = directory::entry_place(rules.kind, at, i);
    let e = entries::fields_of(&image[from..from + ENTRY]);
    let part = entries::entry_part(image, rules.kind, rules.window, at, e);
    let values = row_of(e, part);
    row.copy_from_slice(&values);
}

// Writes the rows behind the directory's words, one after the other.
fn put_rows(image: &[u8], d: Directory, words: &mut [u64])
    requires { (length image.now ≤ longest) × (entry_place psp_kind d.place.0 d.total ≤ length image.now) × (d.total ≤ 512) × (3 + 8 * d.total ≤ length words.old) }
    ensures { words.new ≡ take 3 words.old ++ rows_from (rules_of image.now) image.now d d.total 0 ++ drop (3 + 8 * d.total) words.old }
{
    let n = d.total();
    for i in 0..n {
        let from = HEAD + ROW * (i as usize);
        put_entry(image, d, i, &mut words[from..from + ROW]);
    }
}

// Writes a directory, which lies in the image, and all its rows; 12, and nothing written, where they do not fit.
fn put_entries(image: &[u8], d: Directory, words: &mut [u64]) -> Result<(), Refusal>
    requires { (length image.now ≤ longest) × (entry_place psp_kind d.place.0 d.total ≤ length image.now) × (d.total ≤ 512) }
    ensures value { answered result ≡ number_for 0 (lay_entries (rules_of image.now) image.now d) words.old }
    ensures words_after { words.new ≡ words_for (lay_entries (rules_of image.now) image.now d) words.old }
{
    if words.len() < HEAD + ROW * (d.total() as usize) {
        return Err(Refusal::Room);
    }
    put_rows(image, d, words);
    lent::give(words, &flash_words::directory_words(d))
}

// The directory's three words, place, level and total, then for each entry eight: type, subprogram, size, location and mode, then the number that refuses its
// part, or 0, and where its bytes begin and how many they are, or 0 and 0.
#[tactic(auto, using(place::proofs::View::nearest_directory, crate::proofs::Rows::near_in_image))]
pub fn view_entries(image: &[u8], place: usize, words: &mut [u64]) -> Result<(), Refusal>
    ensures value { answered result ≡ number_left (lay_entries (rules_of image.now) image.now) (check_at (rules_of image.now) image.now place) words.old }
    ensures words_after { words.new ≡ words_left (lay_entries (rules_of image.now) image.now) (check_at (rules_of image.now) image.now place) words.old }
{
    match View::at(image, Offset::nearest(place)).check() {
        Ok(d) => put_entries(image, d, words),
        Err(fault) => lent::refuse_fault(words, fault),
    }
}
