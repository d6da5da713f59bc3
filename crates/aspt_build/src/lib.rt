// The AMD Secure Processor Table (source 000), an ACPI table of 112 bytes: written by document 01's rules.
// The places of fields are those of the source's tables: Table 3, and for the structures Tables 5, 7 and 8.
#![tactic(auto)]

ghost use Rattle.std.specs.Prelude.{◌≡◌, ◌++◌, length, ◌+◌, ◌*◌, ◌/◌, ◌%◌, ◌≤◌};
ghost use Rattle.reply.specs.Reply.{told_alone};
ghost use Rattle.le.specs.Le.{le_bytes, put_bytes, bytes_of};
ghost use Rattle.aspt.specs.Structure.{structure_length};
ghost use Rattle.aspt.specs.Rules.{sum_of};
ghost use Rattle.aspt_build.specs.Write.{own_of, structure_fields, identity_fields, maker_fields, space_fields, checksum_of, table_bytes, write_of, written_by};
ghost use Rattle.aspt_build.specs.Back.{own_table};

use aspt::{Structure, Table};
use reply::Refusal;

// A structure with the fields that its type has, and 0 in those that it lacks.
#[tactic(auto, unfolding(crate::specs::Write::own_of))]
fn own(st: Structure) -> Structure
    ensures { result ≡ own_of st }
{
    match st.class {
        Structure::SEV => st,
        Structure::ACPI => Structure {
            id: 0,
            second: 0,
            third: 0,
            ..st
        },
        _ => Structure { id: 0, ..st },
    }
}

// A table with such structures.
fn own_table(t: Table) -> Table
    ensures { result ≡ own_table t }
{
    Table {
        first: own(t.first),
        second: own(t.second),
        third: own(t.third),
        ..t
    }
}

// Of a number's eight bytes every other one, each with 16 bits of its own.
fn alternate(x: u64) -> u64
    ensures { result ≡ x % 0x100 + 0x1_0000 * (x / 0x1_0000 % 0x100) + 0x1_0000_0000 * (x / 0x1_0000_0000 % 0x100) + 0x1_0000_0000_0000 * (x / 0x1_0000_0000_0000 % 0x100) }
{
    x % 0x100
        + 0x1_0000 * (x / 0x1_0000 % 0x100)
        + 0x1_0000_0000 * (x / 0x1_0000_0000 % 0x100)
        + 0x1_0000_0000_0000 * (x / 0x1_0000_0000_0000 % 0x100)
}

// A number's eight bytes added up two by two: four sums of at most 0x1FE, with 16 bits each. Such numbers are added as they are, while 16 bits hold each
// sum; and modulo 65,535, where 2^16 is 1, they are the sum of all their bytes.
#[tactic(auto, using(crate::proofs::SumLaws::pairs_are))]
fn pairs(x: u64) -> u64
    ensures result_value { result % 65535 ≡ sum_of (le_bytes 8 x) }
    ensures upper_bound { result ≤ 0x1FE_01FE_01FE_01FE }
{
    alternate(x) + alternate(x / 0x100)
}

// Two numbers of four bytes as one of eight.
fn joined(low: u32, high: u32) -> u64
    ensures { result ≡ low + 0x1_0000_0000 * high }
{
    u64::from(low) + 0x1_0000_0000 * u64::from(high)
}

// A structure's type, its length 20, its ID byte and three zeros, which are its first eight bytes, as one number.
fn front(st: Structure) -> u64
    ensures { result ≡ st.class + 0x14_0000 + 0x1_0000_0000 * st.id }
{
    joined(u32::from(st.class) + 0x14_0000, u32::from(st.id))
}

// The bytes of two numbers of four bytes, added up like those of one of eight.
#[tactic(auto, using(crate::proofs::SumLaws::joined_sum))]
fn joined_pairs(low: u32, high: u32) -> u64
    ensures result_value { result % 65535 ≡ sum_of (le_bytes 4 low) + sum_of (le_bytes 4 high) }
    ensures upper_bound { result ≤ 0x1FE_01FE_01FE_01FE }
{
    pairs(joined(low, high))
}

// The bytes before the structures, added up in the same way: 426 is the sum of signature, length and revision, and 3 is the count.
fn header_pairs(t: Table) -> u64
    ensures result_value { result % 65535 ≡ sum_of (bytes_of (identity_fields 0 ++ (maker_fields t ++ space_fields t))) }
    ensures upper_bound { result ≤ 0xBF4_0BF4_0BF4_0D9E }
{
    joined_pairs(t.oem_low, u32::from(t.oem_high))
        + pairs(t.oem_table)
        + joined_pairs(t.oem_revision, t.creator)
        + joined_pairs(t.creator_revision, 0)
        + pairs(t.base)
        + joined_pairs(t.pages, 3)
        + 426
}

// A structure's bytes, added up in the same way.
#[tactic(auto, using(crate::proofs::SumLaws::structure_is))]
fn structure_pairs(st: Structure) -> u64
    ensures result_value { result % 65535 ≡ sum_of (bytes_of (structure_fields st)) }
    ensures upper_bound { result ≤ 0x5FA_05FA_05FA_05FA }
{
    pairs(front(st)) + joined_pairs(st.first, st.second) + joined_pairs(st.third, 0)
}

// The checksum of a table whose structures have 0 in the fields that their types lack, from its fields: bytes that are read right after they are written
// make the read wait. The 112 bytes come to 28,560 at most, so that modulo 65,535 nothing of their sum is lost.
fn checksum(t: Table) -> u8
    requires { own_table t ≡ t }
    ensures { result ≡ checksum_of t }
{
    let sum = (header_pairs(t)
        + structure_pairs(t.first)
        + structure_pairs(t.second)
        + structure_pairs(t.third))
        % 65535;
    ((256 - sum % 256) % 256) as u8
}

// Writes a structure's 20 bytes.
fn put_structure(part: &mut [u8], st: Structure)
    requires { length part.old ≡ structure_length }
    ensures { part.new ≡ bytes_of (structure_fields st) }
{
    le::put64(part, Structure::CLASS, front(st));
    le::put64(part, Structure::FIRST, joined(st.first, st.second));
    le::put32(part, Structure::THIRD, st.third);
}

// Writes what the table is: signature, length, revision and checksum.
fn put_identity(buf: &mut [u8; Table::LENGTH], sum: u8)
    ensures { buf.new ≡ put_bytes (bytes_of (identity_fields sum)) buf.old 0 }
{
    le::put32(buf, Table::SIGNATURE, Table::ASPT);
    le::put32(buf, Table::WHOLE_LENGTH, Table::LENGTH as u32);
    le::put8(buf, Table::REVISION, 2);
    le::put8(buf, Table::CHECKSUM, sum);
}

// Writes who made the table.
fn put_maker(buf: &mut [u8; Table::LENGTH], table: Table)
    ensures { buf.new ≡ put_bytes (bytes_of (maker_fields table)) buf.old 10 }
{
    le::put32(buf, Table::OEM_LOW, table.oem_low);
    le::put16(buf, Table::OEM_HIGH, table.oem_high);
    le::put64(buf, Table::OEM_TABLE, table.oem_table);
    le::put32(buf, Table::OEM_REVISION, table.oem_revision);
    le::put32(buf, Table::CREATOR, table.creator);
    le::put32(buf, Table::CREATOR_REVISION, table.creator_revision);
}

// Writes the register space, and how many structures follow.
fn put_space(buf: &mut [u8; Table::LENGTH], table: Table)
    ensures { buf.new ≡ put_bytes (bytes_of (space_fields table)) buf.old 36 }
{
    le::put64(buf, Table::BASE, table.base);
    le::put32(buf, Table::PAGES, table.pages);
    le::put32(buf, Table::COUNT, 3);
}

// Writes the table's 112 bytes. What the structures have is found once, for the checksum and for the bytes.
fn put_table(buf: &mut [u8; Table::LENGTH], table: Table)
    ensures { buf.new ≡ table_bytes table }
{
    let table = own_table(table);
    put_identity(buf, checksum(table));
    put_maker(buf, table);
    put_space(buf, table);
    put_structure(&mut buf[Table::FIRST..Table::SECOND], table.first);
    put_structure(&mut buf[Table::SECOND..Table::THIRD], table.second);
    put_structure(&mut buf[Table::THIRD..Table::LENGTH], table.third);
}

// Writes a table into the buffer's first 112 bytes and keeps the bytes after them; a refused write changes nothing.
#[tactic(auto, unfolding(crate::specs::Write::write_of))]
pub fn write(buf: &mut [u8], table: Table) -> Result<(), Refusal>
    ensures result_value { told_alone result ≡ write_of table buf.old }
    ensures buf_after { buf.new ≡ written_by table buf.old (write_of table buf.old) }
{
    aspt::admit(table)?;
    let Some(bytes) = buf.first_chunk_mut() else {
        return Err(Refusal::Room);
    };
    put_table(bytes, table);
    Ok(())
}
