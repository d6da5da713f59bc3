// Those of document 01's values to hold against the work that stand beside M1 to M10. Each call's answer is a line, in the words of the ask language.
#![tactic(auto)]

use aspt::{Structure, Table};
use build::Fields;
use firmware::Firmware;
use guids::Guid;
use std::fmt::Display;
use std::io;
use window::Offset;

fn show_total<E: Display + Drop>(rt: &impl Print, answer: Result<u32, E>) -> io::Result<()> {
    match answer {
        Ok(total) => println!(rt; "ok total={total}"),
        Err(refusal) => println!(rt; "{refusal}"),
    }
}

fn show_guids(rt: &impl Print, image: &[u8]) -> io::Result<()> {
    match guids::table(image) {
        Ok(t) => println!(rt; "ok total={} entries={}", t.total, t.entries),
        Err(refusal) => println!(rt; "{refusal}"),
    }
}

// Source 004's three entries: T = 0x5c is accepted, and T = 0x72, with zeros before them, is 6.
fn three_entries(rt: &impl Print) -> io::Result<()> {
    let mut image = [0u8; 192];
    let short = [0x04u8, 0xB0, 0x80, 0x00];
    let long = [0x00u8, 0xCC, 0x80, 0x00, 0x00, 0x0C, 0x00, 0x00];
    let reset = Guid {
        low: 0x4FCB_1A7E_00F7_71DE,
        high: 0x4EB4_2F7E_C768_0E89,
    };
    let secret = Guid {
        low: 0x4CC3_7D9B_4C2E_B361,
        high: 0x94D2_D390_7C12_8180,
    };
    let hashes = Guid {
        low: 0x4B04_3A3B_7255_371F,
        high: 0x54D4_A8EF_A61D_7B92,
    };
    show_total(rt, guids_build::start(&mut image))?;
    show_total(rt, guids_build::extend(&mut image, reset, &short))?;
    show_total(rt, guids_build::extend(&mut image, secret, &long))?;
    show_total(rt, guids_build::extend(&mut image, hashes, &long))?;
    show_guids(rt, &image)?;
    le::put16(&mut image, 142, 0x72);
    show_guids(rt, &image)
}

fn show_directory(rt: &impl Print, buf: &[u8]) -> io::Result<()> {
    let answer = directory::directory_by_cookie(buf, directory::psp_kind(), 512, Offset(0));
    show_total(rt, answer.map(|d| d.total()))
}

// The directory at a buffer's start, of so many entries, with the checksum due.
fn seal(buf: &mut [u8], n: u32) {
    let size = (n as usize) * 16;
    le::put32(buf, 8, n);
    if 16 + size <= buf.len() {
        let sum = fletcher::fletcher(&buf[8..16 + size]);
        le::put32(buf, 4, sum);
    }
}

// Numbers 512 entries by their types and subprograms.
fn number_entries(buf: &mut [u8]) {
    for i in 0..512u16 {
        le::put16(buf, 16 + 16 * (i as usize), i);
    }
}

// Entries that are all zero repeat one another, which is 18. 512 that are numbered by their types and subprograms are accepted;
// where the last has those of the first it is 18 again; and 513 are 3.
fn largest_directory(rt: &impl Print) -> io::Result<()> {
    let mut buf = [0u8; 8224];
    le::put32(&mut buf, 0, 0x5053_5024);
    seal(&mut buf, 512);
    show_directory(rt, &buf)?;
    number_entries(&mut buf);
    seal(&mut buf, 512);
    show_directory(rt, &buf)?;
    le::put16(&mut buf, 16 + 16 * 511, 0);
    seal(&mut buf, 512);
    show_directory(rt, &buf)?;
    le::put16(&mut buf, 16 + 16 * 511, 511);
    seal(&mut buf, 513);
    show_directory(rt, &buf)
}

// Bytes of an entry, so many from 0x20 on, in an image of 64 bytes whose directory stands at its start.
fn range_of(rt: &impl Print, size: u32) -> io::Result<()> {
    let mut image = [0u8; 64];
    let entry = Fields {
        class: 1,
        subprogram: 0,
        size,
        location: 0x20,
        mode: 1,
    };
    show_total(rt, build::start(&mut image, 1))?;
    show_total(rt, build::extend(&mut image, entry))?;
    match place::part_at(&image, Offset(0), 0) {
        Ok(p) => println!(rt; "ok place=0x{:x} length={}", p.place.0, p.length),
        Err(fault) => println!(rt; "{fault}"),
    }
}

// Whether a call on an ASPT accepts.
fn show_accepted<T: Drop, E: Display + Drop>(
    rt: &impl Print,
    answer: Result<T, E>,
) -> io::Result<()> {
    match answer {
        Ok(_) => println!(rt; "ok"),
        Err(refusal) => println!(rt; "{refusal}"),
    }
}

fn structure(class: u16, id: u8, first: u32, second: u32, third: u32) -> Structure {
    Structure {
        class,
        id,
        first,
        second,
        third,
    }
}

// The ASPT's checksum is over its 112 bytes: a byte behind them has no part in it, and cannot make up for one of them.
fn sum_of_the_table_alone(rt: &impl Print) -> io::Result<()> {
    let mut buf = [0xEEu8; 113];
    let table = Table {
        oem_low: 0x4944_4D41,
        oem_high: 0x434E,
        oem_table: 0x0042_5243_4944_4D41,
        oem_revision: 1,
        creator: 0x2044_4D41,
        creator_revision: 1,
        base: 0xFEDC_0000,
        pages: 0x100,
        first: structure(0, 0, 0x10, 0x14, 0x18),
        second: structure(1, 1, 0x20, 0x24, 0x28),
        third: structure(2, 0, 0x30, 0, 0),
    };
    show_accepted(rt, aspt_build::write(&mut buf, table))?;
    show_accepted(rt, aspt::read(&buf))?;
    // One less in the checksum, and one behind the table: all 113 bytes sum to 0.
    le::put8(&mut buf, 9, 0xCD);
    le::put8(&mut buf, 112, 1);
    show_accepted(rt, aspt::read(&buf))
}

fn run(rt: &impl Print, f: Firmware, asked: u32) -> io::Result<Firmware> {
    let ran = f.run(asked);
    println!(rt; "ok word=0x{:08x}", ran.word)?;
    Ok(ran.firmware)
}

// A descriptor is saved when the last part comes, whichever it is: here part 2, and then delivery is turned on.
fn last_part_is_part_two(rt: &impl Print) -> io::Result<()> {
    let f = run(rt, Firmware::fresh(), 0x0080_0000)?;
    let f = run(rt, f, 0x0084_0400)?;
    let f = run(rt, f, 0x0082_0001)?;
    let f = run(rt, f, 0x0083_0002)?;
    run(rt, f, 0x0085_0401)?;
    Ok(())
}

fn main(rt: HostRuntime) -> io::Result<()> {
    three_entries(&rt)?;
    largest_directory(&rt)?;
    range_of(&rt, 0x20)?;
    range_of(&rt, 0x21)?;
    sum_of_the_table_alone(&rt)?;
    last_part_is_part_two(&rt)
}
