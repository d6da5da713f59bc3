// All directories of a flash image, in lent words: level one, and those that its entries lead to.
#![tactic(auto)]

ghost use Rattle.std.specs.Prelude.{◌≡◌, true, [], ◌∷◌, ◌++◌, ◌+◌, ◌<◌, ◌≤◌, length, take, IfOk};
ghost use Rattle.reply.specs.Reply.{given, then, told};
ghost use Rattle.window.specs.Length.{length_allowed};
ghost use Rattle.efs.specs.Rules.{rules_of};
ghost use Rattle.walk.specs.Walk.{walk_of};
ghost use Rattle.lent.specs.Lent.{answered, number_left, words_left};
ghost use Rattle.all_directories.specs.AllDirectories.{entered_in, flash_directories, lay_entered, lay_directories};
ghost use Rattle.all_directories.specs.Gathered.{led_by, words_of, RowsHeld};

use directory::Directory;
use efs::Rules;
use reply::{Fault, Refusal};

// The words that so many rows take: a row is four words, and one word stands before them all.
fn words_of(count: u32) -> usize
    ensures { result ≡ words_of count }
{
    1 + 4 * (count as usize)
}

// Puts a directory that is entered behind so many rows.
fn put_row(rows: &mut [u64], count: u32, d: Directory, lead: u32)
    requires { words_of count + 4 ≤ length rows.old }
    ensures { take (words_of count + 4) rows.new ≡ take (words_of count) rows.old ++ lay_entered (record { directory = d; lead = lead }) }
{
    let [place, level, total] = flash_words::directory_words(d);
    let at = words_of(count);
    rows[at..at + 4].copy_from_slice(&[place, level, total, lead as u64]);
}

// Level one of an image: the image has a length that is allowed, and the directory no more entries than are.
#[derive(Clone, Copy)]
struct LevelOne<'a> {
    image: &'a [u8],
    directory: Directory,
    ghost allowed: { length_allowed image.now ≡ true },
    ghost few: { directory.total ≤ 512 },
}

// The directory that entry i of level one leads to, where it is a lead.
#[tactic(auto, using(entries::proofs::Accept::all_entry), unfolding(crate::specs::Gathered::led_by))]
fn led_by(one: LevelOne, rules: Rules, i: u32) -> Result<Option<Directory>, Fault>
    requires { i < one.directory.total }
    ensures { told result ≡ led_by rules one.entry.image.now one.entry.directory i }
{
    let LevelOne {
        image,
        directory: d,
    } = one;
    if entries::class_at(image, rules.kind, d.place(), i) != rules.kind.lead {
        return Ok(None);
    }
    let e = entries::entry_in(image, rules.kind, d, i as usize)?;
    let below = flash::level_two_at(image, rules, d, i, e)?;
    Ok(Some(below))
}

// Gathers level one and all that it leads to, and answers how many they are.
#[tactic(auto, using(crate::proofs::Reached::reached_start, crate::proofs::Reached::reached_none, crate::proofs::Reached::reached_some))]
fn gather(one: LevelOne, rules: Rules, rows: &mut [u64]) -> Result<u32, Fault>
    requires { (words_of (1 + one.directory.total) ≤ length rows.old) × (take 1 rows.old ≡ 0 ∷ []) }
    ensures result_value { told result ≡ then (entered_in (walk_of 1 rules one.entry.image.now one.entry.directory) 0) (λ found. given (length found)) }
    ensures rows_held { RowsHeld (entered_in (walk_of 1 rules one.entry.image.now one.entry.directory) 0) rows.new }
    ensures few { IfOk result (λ count. count ≤ 1 + one.entry.directory.total) }
{
    put_row(rows, 0, one.directory, 0);
    let mut count = 1;
    for i in 0..one.directory.total() {
        if let Some(below) = led_by(one, rules, i)? {
            put_row(rows, count, below, i);
            count += 1;
        }
    }
    Ok(count)
}

// All directories, from level one on. They are gathered in rows first, since nothing is written where one of them is refused.
fn list_by(one: LevelOne, rows: &mut [u64], words: &mut [u64]) -> Result<(), Refusal>
    requires { (words_of (1 + one.directory.total) ≤ length rows.old) × (take 1 rows.old ≡ 0 ∷ []) }
    ensures value { answered result ≡ number_left lay_directories (entered_in (walk_of 1 (rules_of one.entry.image.now) one.entry.image.now one.entry.directory) 0) words.old }
    ensures words_after { words.new ≡ words_left lay_directories (entered_in (walk_of 1 (rules_of one.entry.image.now) one.entry.image.now one.entry.directory) 0) words.old }
{
    match gather(one, efs::rules_of(one.image), rows) {
        Ok(count) => {
            rows[0] = count as u64;
            lent::give(words, &rows[..words_of(count)])
        }
        Err(fault) => lent::refuse_fault(words, fault),
    }
}

// The same with rows for as many directories as level one can lead to: a word, and a row of four for level one and for each of its entries. Most have far fewer than 512, and to clear the
// rows for so many would take longer than all the rest.
fn list(one: LevelOne, words: &mut [u64]) -> Result<(), Refusal>
    ensures value { answered result ≡ number_left lay_directories (entered_in (walk_of 1 (rules_of one.entry.image.now) one.entry.image.now one.entry.directory) 0) words.old }
    ensures words_after { words.new ≡ words_left lay_directories (entered_in (walk_of 1 (rules_of one.entry.image.now) one.entry.image.now one.entry.directory) 0) words.old }
{
    if one.directory.total() <= 60 {
        let mut rows = [0u64; 245];
        return list_by(one, &mut rows, words);
    }
    let mut rows = [0u64; 2053];
    list_by(one, &mut rows, words)
}

// How many directories the image has, then four words for each: its place, level and total, and the index of the entry of level one that led there.
pub fn directories(image: &[u8], words: &mut [u64]) -> Result<(), Refusal>
    ensures value { answered result ≡ number_left lay_directories (flash_directories (rules_of image.now) image.now) words.old }
    ensures words_after { words.new ≡ words_left lay_directories (flash_directories (rules_of image.now) image.now) words.old }
{
    match flash::directory(image, 1) {
        Ok(directory) => list(LevelOne { image, directory }, words),
        Err(fault) => lent::refuse_fault(words, fault),
    }
}
