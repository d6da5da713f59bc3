// The AMD Secure Processor Table (source 000), an ACPI table of 112 bytes: read, and checked before it is written, by document 01's rules.
// The places of fields are those of the source's tables: Table 3, and for the structures Tables 5, 7 and 8.
#![tactic(auto)]

ghost use Rattle.std.specs.Prelude.{◌≡◌, true, ◌&&◌, leb, eqb, ◌+◌, ◌*◌, ◌%◌, ◌^◌};
ghost use Rattle.reply.specs.Reply.{told_alone};
ghost use Rattle.aspt.specs.Rules.{done, sum_of, fresh, id_fits, in_space, registers_fit, structure_checks, structures_checks};
ghost use Rattle.aspt.specs.Bytes.{structure_in, reserved_zero, table_in};
ghost use Rattle.aspt.specs.Calls.{header_checks, part_checks, parts_checks, table_of, read_of, admit_of};

use reply::Refusal;

// One of the three structures: its type, type 1's ID byte, and its register offsets in the order of the source's table.
// A field that the type lacks is no part of it: read, it is 0; written, it is neither looked at nor kept.
// The type is a number and no enum, since a caller may give any, and one that is no type is refused in its turn among the checks.
#[derive(Clone, Copy)]
pub struct Structure {
    pub class: u16,
    pub id: u8,
    pub first: u32,
    pub second: u32,
    pub third: u32,
}

impl Structure {
    // the types: ASP global registers, SEV mailbox registers, ACPI mailbox registers
    pub const GLOBAL: u16 = 0;

    pub const SEV: u16 = 1;

    pub const ACPI: u16 = 2;

    // a structure's bytes
    pub const LENGTH: usize = 20;

    // where the fields begin; type 1 has an ID byte and reserved bytes behind it, where the others have four reserved
    pub const CLASS: usize = 0;

    pub const WHOLE_LENGTH: usize = 2;

    pub const ID: usize = 4;

    pub const FIRST: usize = 8;

    pub const SECOND: usize = 12;

    pub const THIRD: usize = 16;

    // reserved in type 2, eight bytes
    pub const RESERVED12: usize = 12;
}

// What a table holds. The OEM ID's six bytes are the four of `oem_low` and the two of `oem_high`.
#[derive(Clone, Copy)]
pub struct Table {
    pub oem_low: u32,
    pub oem_high: u16,
    pub oem_table: u64,
    pub oem_revision: u32,
    pub creator: u32,
    pub creator_revision: u32,
    pub base: u64,
    pub pages: u32,
    pub first: Structure,
    pub second: Structure,
    pub third: Structure,
}

impl Table {
    // 'ASPT', as the signature has it
    pub const ASPT: u32 = 0x5450_5341;

    // the table's bytes, its structures with it
    pub const LENGTH: usize = 112;

    // where the fields begin, and the structures
    pub const SIGNATURE: usize = 0;

    pub const WHOLE_LENGTH: usize = 4;

    pub const REVISION: usize = 8;

    pub const CHECKSUM: usize = 9;

    pub const OEM_LOW: usize = 10;

    pub const OEM_HIGH: usize = 14;

    pub const OEM_TABLE: usize = 16;

    pub const OEM_REVISION: usize = 24;

    pub const CREATOR: usize = 28;

    pub const CREATOR_REVISION: usize = 32;

    pub const BASE: usize = 36;

    pub const PAGES: usize = 44;

    pub const COUNT: usize = 48;

    pub const STRUCTURES: usize = 52;

    pub const FIRST: usize = Table::STRUCTURES;

    pub const SECOND: usize = Table::FIRST + Structure::LENGTH;

    pub const THIRD: usize = Table::SECOND + Structure::LENGTH;
}

// The sum of the bytes, modulo 256.
fn sum_of(bytes: &[u8]) -> u8
    ensures { result ≡ sum_of bytes.now % 256 }
{
    bytes
        .iter()
        .fold(0, |sum: u8, byte| sum.wrapping_add(*byte))
}

// Is a type from 0 to 2, and none of those seen before?
fn class_fits(class: u16, seen: &[u16]) -> bool
    ensures { result ≡ (leb class 2 && fresh seen.now class) }
{
    class <= Structure::ACPI && !seen.contains(&class)
}

// Does a register of four bytes at this offset lie in the register space?
fn in_space(pages: u32, offset: u32) -> bool
    ensures { result ≡ in_space pages offset }
{
    u64::from(offset) + 4 <= 4096 * u64::from(pages)
}

// Do the registers that a structure's type has lie in the register space?
#[tactic(auto, unfolding(crate::specs::Rules::registers_fit))]
fn registers_fit(pages: u32, st: Structure) -> bool
    ensures { result ≡ registers_fit pages st }
{
    in_space(pages, st.first)
        && (st.class == Structure::ACPI || in_space(pages, st.second) && in_space(pages, st.third))
}

// Is the base address a multiple of 4,096, and does the register space end at 2^64 or before?
// Counted in pages, of which 2^64 bytes are 2^52, since 2^64 itself is no u64.
fn space_fits(base: u64, pages: u32) -> bool
    ensures { result ≡ (eqb (base % 4096) 0 && leb (base + 4096 * pages) (2 ^ 64)) }
{
    base % 4096 == 0 && base / 4096 + u64::from(pages) <= 0x10_0000_0000_0000
}

// The checks of a table's first 52 bytes.
#[tactic(auto, unfolding(crate::specs::Calls::header_checks))]
fn header_checks(table: &[u8]) -> Result<(), Refusal>
    ensures { told_alone result ≡ header_checks table.now done }
{
    if le::u32_at(table, Table::SIGNATURE) != Table::ASPT {
        return Err(Refusal::Signature);
    }
    if le::u32_at(table, Table::WHOLE_LENGTH) as usize != Table::LENGTH {
        return Err(Refusal::Limits);
    }
    if le::u8_at(table, Table::REVISION) != 2 {
        return Err(Refusal::Field);
    }
    if sum_of(table) != 0 {
        return Err(Refusal::Checksum);
    }
    if !space_fits(
        le::u64_at(table, Table::BASE),
        le::u32_at(table, Table::PAGES),
    ) {
        return Err(Refusal::Field);
    }
    if le::u32_at(table, Table::COUNT) != 3 {
        return Err(Refusal::Limits);
    }
    Ok(())
}

// A structure as its 20 bytes have it.
fn structure_in(part: &[u8]) -> Structure
    ensures { result ≡ structure_in part.now }
{
    Structure {
        class: le::u16_at(part, Structure::CLASS),
        id: le::u8_at(part, Structure::ID),
        first: le::u32_at(part, Structure::FIRST),
        second: le::u32_at(part, Structure::SECOND),
        third: le::u32_at(part, Structure::THIRD),
    }
}

// Are the reserved bytes of a structure zero?
#[tactic(auto, unfolding(crate::specs::Bytes::reserved_zero))]
fn reserved_zero(part: &[u8]) -> bool
    ensures { result ≡ reserved_zero part.now }
{
    let four = le::u32_at(part, Structure::ID);
    match le::u16_at(part, Structure::CLASS) {
        Structure::SEV => four / 0x100 == 0,
        Structure::ACPI => four == 0 && le::u64_at(part, Structure::RESERVED12) == 0,
        _ => four == 0,
    }
}

// Is the ID byte of type 1 0x01?
#[tactic(auto, unfolding(crate::specs::Rules::id_fits))]
fn id_fits(st: Structure) -> bool
    ensures { result ≡ id_fits st }
{
    st.class != Structure::SEV || st.id == 1
}

// The checks of one structure of the right length, given the types of those before it; `clear` where its reserved bytes are zero.
#[tactic(auto, unfolding(crate::specs::Rules::structure_checks))]
fn structure_checks(pages: u32, seen: &[u16], st: Structure, clear: bool) -> Result<(), Refusal>
    ensures { told_alone result ≡ structure_checks pages seen.now st true clear done }
{
    if !class_fits(st.class, seen) {
        return Err(Refusal::Structure);
    }
    if !clear || !id_fits(st) {
        return Err(Refusal::Field);
    }
    if !registers_fit(pages, st) {
        return Err(Refusal::Outside);
    }
    Ok(())
}

// The checks of one structure where it lies, given the types of those before it.
#[tactic(auto, unfolding(crate::specs::Rules::structure_checks))]
fn part_checks(part: &[u8], pages: u32, seen: &[u16]) -> Result<(), Refusal>
    ensures { told_alone result ≡ part_checks pages seen.now part.now done }
{
    if usize::from(le::u16_at(part, Structure::WHOLE_LENGTH)) != Structure::LENGTH {
        return Err(Refusal::Structure);
    }
    structure_checks(pages, seen, structure_in(part), reserved_zero(part))
}

// The checks of a table's structures, one after the other.
#[tactic(auto, using(crate::proofs::Checks::parts_all, crate::proofs::Checks::parts_end))]
fn parts_checks(table: &[u8; Table::LENGTH]) -> Result<(), Refusal>
    ensures { told_alone result ≡ parts_checks table.now done }
{
    let pages = le::u32_at(table, Table::PAGES);
    let mut seen = [0; 3];
    for i in 0..3 {
        let at = Table::STRUCTURES + Structure::LENGTH * i;
        let part = &table[at..at + Structure::LENGTH];
        part_checks(part, pages, &seen[..i])?;
        seen[i] = le::u16_at(part, Structure::CLASS);
    }
    Ok(())
}

// A table as its bytes have it.
fn table_in(table: &[u8; Table::LENGTH]) -> Table
    ensures { result ≡ table_in table.now }
{
    Table {
        oem_low: le::u32_at(table, Table::OEM_LOW),
        oem_high: le::u16_at(table, Table::OEM_HIGH),
        oem_table: le::u64_at(table, Table::OEM_TABLE),
        oem_revision: le::u32_at(table, Table::OEM_REVISION),
        creator: le::u32_at(table, Table::CREATOR),
        creator_revision: le::u32_at(table, Table::CREATOR_REVISION),
        base: le::u64_at(table, Table::BASE),
        pages: le::u32_at(table, Table::PAGES),
        first: structure_in(&table[Table::FIRST..Table::SECOND]),
        second: structure_in(&table[Table::SECOND..Table::THIRD]),
        third: structure_in(&table[Table::THIRD..Table::LENGTH]),
    }
}

// The table that 112 bytes hold.
#[tactic(auto, using(crate::proofs::Checks::header_by, crate::proofs::Checks::structures_by), unfolding(crate::specs::Calls::table_of))]
fn table_of(table: &[u8; Table::LENGTH]) -> Result<Table, Refusal>
    ensures { told_alone result ≡ table_of table.now }
{
    header_checks(table)?;
    parts_checks(table)?;
    Ok(table_in(table))
}

// Reads the table from the first 112 lent bytes; more are ignored.
#[tactic(auto, unfolding(crate::specs::Calls::read_of))]
pub fn read(bytes: &[u8]) -> Result<Table, Refusal>
    ensures { told_alone result ≡ read_of bytes.now }
{
    let Some(table) = bytes.first_chunk() else {
        return Err(Refusal::Short);
    };
    table_of(table)
}

// The checks of a table that is to be written: length and reserved bytes are the writer's own.
#[tactic(auto, using(crate::proofs::Checks::structure_by), unfolding(crate::specs::Calls::admit_of, crate::specs::Rules::structures_checks))]
pub fn admit(table: Table) -> Result<(), Refusal>
    ensures { told_alone result ≡ admit_of table }
{
    if !space_fits(table.base, table.pages) {
        return Err(Refusal::Field);
    }
    let (a, b, c) = (table.first, table.second, table.third);
    structure_checks(table.pages, &[], a, true)?;
    structure_checks(table.pages, &[a.class], b, true)?;
    structure_checks(table.pages, &[a.class, b.class], c, true)
}
