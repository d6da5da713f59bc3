// The ASPT, in lent words. A table is twenty-two words: the OEM ID's six bytes as a number, the OEM table ID, the OEM revision, the
// creator's ID and revision, the base address, the pages, then for each structure its type, its ID byte and its three register offsets.
#![tactic(auto)]

ghost use Rattle.std.specs.Prelude.{◌≡◌, cond, leb, ◌+◌, ◌%◌, ◌^◌, ◌≤◌, length};
ghost use Rattle.lent.specs.Lent.{answered, number_of, number_left, words_left};
ghost use Rattle.aspt.specs.Calls.{read_of};
ghost use Rattle.aspt_words.specs.AsptTable.{lay_table, structure_from, table_from, structure_fits, table_fits, write_words, left_by, cut_structure, cut_table};

use aspt::{Structure, Table};
use reply::Refusal;

// A table's words.
fn lay(t: Table) -> [u64; 22]
    ensures { result ≡ lay_table t }
{
    let (a, b, c) = (t.first, t.second, t.third);
    [
        u64::from(t.oem_low) + 0x1_0000_0000 * u64::from(t.oem_high),
        t.oem_table,
        u64::from(t.oem_revision),
        u64::from(t.creator),
        u64::from(t.creator_revision),
        t.base,
        u64::from(t.pages),
        u64::from(a.class),
        u64::from(a.id),
        u64::from(a.first),
        u64::from(a.second),
        u64::from(a.third),
        u64::from(b.class),
        u64::from(b.id),
        u64::from(b.first),
        u64::from(b.second),
        u64::from(b.third),
        u64::from(c.class),
        u64::from(c.id),
        u64::from(c.first),
        u64::from(c.second),
        u64::from(c.third),
    ]
}

// Twenty-two words: the table that the lent bytes hold.
#[tactic(auto, using(lent::proofs::Laws::number_fits, lent::proofs::Laws::words_kept))]
pub fn read(bytes: &[u8], words: &mut [u64]) -> Result<(), Refusal>
    ensures value { answered result ≡ number_left lay_table (read_of bytes.now) words.old }
    ensures words_after { words.new ≡ words_left lay_table (read_of bytes.now) words.old }
{
    lent::give(words, &lay(aspt::read(bytes)?))
}

// Can the fields that a structure's type has hold its words? Type 2 has the first register alone, type 1 an ID byte besides, and a type that there is
// not has no field.
#[tactic(auto, unfolding(crate::specs::AsptTable::structure_fits))]
fn structure_fits(words: &[u64], i: usize) -> bool
    requires { i + 5 ≤ length words.now }
    ensures { result ≡ structure_fits (structure_from words.now i) }
{
    let class = words[i];
    2 < class
        || words[i + 2] < 0x1_0000_0000
            && (class == 2 || words[i + 3] < 0x1_0000_0000 && words[i + 4] < 0x1_0000_0000)
            && (class != 1 || words[i + 1] < 0x100)
}

// Can the fields of a table hold its words? Any word is an OEM table ID, and any a base address.
#[tactic(auto, unfolding(crate::specs::AsptTable::table_fits, crate::specs::AsptTable::table_from))]
fn table_fits(words: &[u64]) -> bool
    requires { 22 ≤ length words.now }
    ensures { result ≡ table_fits (table_from words.now) }
{
    words[0] < 0x1_0000_0000_0000
        && words[2] < 0x1_0000_0000
        && words[3] < 0x1_0000_0000
        && words[4] < 0x1_0000_0000
        && words[6] < 0x1_0000_0000
        && structure_fits(words, 7)
        && structure_fits(words, 12)
        && structure_fits(words, 17)
}

// A type, where one that its field cannot hold is 65,535, which is no type either.
fn class_from(word: u64) -> u16
    ensures { result ≡ cond (leb word 65535) word 65535 }
{
    u16::try_from(word).unwrap_or(0xFFFF)
}

// The low four bytes of a word.
fn low(word: u64) -> u32
    ensures { result ≡ word % 2 ^ 32 }
{
    (word % 0x1_0000_0000) as u32
}

// The structure in five words, each cut to its field.
fn structure_from(words: &[u64], i: usize) -> Structure
    requires { i + 5 ≤ length words.now }
    ensures { result ≡ cut_structure (structure_from words.now i) }
{
    Structure {
        class: class_from(words[i]),
        id: (words[i + 1] % 0x100) as u8,
        first: low(words[i + 2]),
        second: low(words[i + 3]),
        third: low(words[i + 4]),
    }
}

// The table in twenty-two words, each cut to its field.
#[tactic(auto, unfolding(crate::specs::AsptTable::table_from))]
fn table_from(words: &[u64]) -> Table
    requires { 22 ≤ length words.now }
    ensures { result ≡ cut_table (table_from words.now) }
{
    Table {
        oem_low: low(words[0]),
        oem_high: (words[0] / 0x1_0000_0000 % 0x1_0000) as u16,
        oem_table: words[1],
        oem_revision: low(words[2]),
        creator: low(words[3]),
        creator_revision: low(words[4]),
        base: words[5],
        pages: low(words[6]),
        first: structure_from(words, 7),
        second: structure_from(words, 12),
        third: structure_from(words, 17),
    }
}

// Writes the table in the lent words into the buffer: fewer than twenty-two words are refused as short, and a word that its field cannot hold as a
// field; of a field that a structure's type lacks it is not looked at; and a type that its field cannot hold is a type that there is not.
#[tactic(auto, using(crate::proofs::AsptWords::words_short, crate::proofs::AsptWords::words_fail, crate::proofs::AsptWords::words_pass, crate::proofs::AsptWords::words_left))]
pub fn write(buf: &mut [u8], words: &[u64]) -> Result<(), Refusal>
    ensures value { answered result ≡ number_of (write_words words.now buf.old) }
    ensures buf_after { buf.new ≡ left_by words.now buf.old }
{
    if words.len() < 22 {
        return Err(Refusal::Short);
    }
    if !table_fits(words) {
        return Err(Refusal::Field);
    }
    aspt_build::write(buf, table_from(words))
}
