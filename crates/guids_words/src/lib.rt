// The GUID table at the end of a guest firmware image, in lent words. A GUID is given by its two halves: its sixteen bytes in memory are
// those of `low`, then those of `high`, lowest first.
#![tactic(auto)]

ghost use Rattle.std.specs.Prelude.{◌≡◌};
ghost use Rattle.lent.specs.Lent.{answered, number_of, number_left, words_left, bytes_left, lay_number};
ghost use Rattle.guids.specs.Table.{table_of, find_of, entry_of};
ghost use Rattle.guids_build.specs.Write.{start_of, started_by, extend_of, extended_by};
ghost use Rattle.guids_words.specs.GuidTable.{lay_totals, lay_guid_match, lay_guid_entry, guid_of};

use guids::{Guid, GuidEntry};
use reply::{Missed, Refusal};

// Two words: the table's total, and the number of its entries.
#[tactic(auto, using(lent::proofs::Laws::given_number, lent::proofs::Laws::given_words, lent::proofs::Laws::alone_number, lent::proofs::Laws::alone_words))]
pub fn table(image: &[u8], words: &mut [u64]) -> Result<(), Refusal>
    ensures value { answered result ≡ number_left lay_totals (table_of image.now) words.old }
    ensures words_after { words.new ≡ words_left lay_totals (table_of image.now) words.old }
{
    let totals = guids::table(image)?;
    lent::give(words, &[u64::from(totals.total), u64::from(totals.entries)])
}

// Three words: the data's place and length, and the number of entries tested. 8 carries that number: one word.
#[tactic(auto, using(lent::proofs::Laws::given_number, lent::proofs::Laws::given_words, lent::proofs::Laws::tested_number, lent::proofs::Laws::tested_words, lent::proofs::Laws::alone_number, lent::proofs::Laws::alone_words))]
pub fn find(image: &[u8], low: u64, high: u64, words: &mut [u64]) -> Result<(), Refusal>
    ensures value { answered result ≡ number_left lay_guid_match (find_of image.now (guid_of low high)) words.old }
    ensures words_after { words.new ≡ words_left lay_guid_match (find_of image.now (guid_of low high)) words.old }
{
    match guids::find(image, Guid { low, high }) {
        Ok(found) => lent::give(
            words,
            &[
                found.place as u64,
                found.length as u64,
                u64::from(found.tested),
            ],
        ),
        Err(Missed::Absent(tested)) => {
            lent::refuse(words, Refusal::Absent, &[u64::from(tested)])
        }
        Err(Missed::Refused(refusal)) => Err(refusal),
    }
}

// Four words: the GUID's halves, and the data's place and length, of the entry at position i counted from the footer.
#[tactic(auto, using(lent::proofs::Laws::given_number, lent::proofs::Laws::given_words, lent::proofs::Laws::alone_number, lent::proofs::Laws::alone_words))]
pub fn entry(image: &[u8], i: usize, words: &mut [u64]) -> Result<(), Refusal>
    ensures value { answered result ≡ number_left lay_guid_entry (entry_of image.now i) words.old }
    ensures words_after { words.new ≡ words_left lay_guid_entry (entry_of image.now i) words.old }
{
    let GuidEntry {
        guid: Guid { low, high },
        place,
        length,
    } = guids::entry(image, i)?;
    lent::give(words, &[low, high, place as u64, length as u64])
}

// Starts a table with no entries.
pub fn start(buf: &mut [u8]) -> Result<(), Refusal>
    ensures value { answered result ≡ number_of (start_of buf.old) }
    ensures buf_after { buf.new ≡ started_by buf.old (start_of buf.old) }
{
    guids_build::start(buf)?;
    Ok(())
}

// Extends the table by an entry, farthest from the footer. One word: the new total; where there is no word, no byte is written either.
#[tactic(auto, using(lent::proofs::Laws::given_number, lent::proofs::Laws::given_words, lent::proofs::Laws::alone_number, lent::proofs::Laws::alone_words))]
pub fn extend(
    buf: &mut [u8],
    low: u64,
    high: u64,
    bytes: &[u8],
    words: &mut [u64],
) -> Result<(), Refusal>
    ensures value { answered result ≡ number_left lay_number (extend_of buf.old bytes.now) words.old }
    ensures words_after { words.new ≡ words_left lay_number (extend_of buf.old bytes.now) words.old }
    ensures buf_after { buf.new ≡ bytes_left lay_number (extend_of buf.old bytes.now) (extended_by buf.old (guid_of low high) bytes.now) buf.old words.old }
{
    if words.is_empty() {
        guids_build::admit(buf, bytes)?;
        return Err(Refusal::Room);
    }
    let total = guids_build::extend(buf, Guid { low, high }, bytes)?;
    lent::give(words, &[u64::from(total)])
}
