// Builds a directory of each level in a buffer of 72 bytes, reads it back, and prints what each call answers.
#![tactic(auto)]

use build::Fields;
use directory::Directory;
use reply::Fault;
use std::io;
use window::Offset;

fn show_total(rt: &impl Print, answer: Result<u32, Fault>) -> io::Result<()> {
    match answer {
        Ok(total) => println!(rt; "ok total={total}"),
        Err(fault) => println!(rt; "{fault}"),
    }
}

fn show_entry(rt: &impl Print, buf: &[u8], d: Directory, i: usize) -> io::Result<()> {
    match entries::entry_in(buf, directory::psp_kind(), d, i) {
        Ok(e) => {
            print!(rt; "ok type=0x{:x} sub=0x{:x}", e.class, e.subprogram)?;
            println!(rt;
                " size=0x{:x} location=0x{:x} mode=0x{:x}",
                e.size, e.location, e.mode
            )
        }
        Err(fault) => println!(rt; "{fault}"),
    }
}

// What the reader tells of the directory at the buffer's start, and the eight bytes behind three entries.
fn show_directory(rt: &impl Print, buf: &[u8]) -> io::Result<()> {
    match directory::directory_by_cookie(buf, directory::psp_kind(), 512, Offset(0)) {
        Ok(d) => {
            print!(rt; "ok level={} total={}", d.level(), d.total())?;
            println!(rt;
                " checksum=0x{:x} behind=0x{:x}",
                le::u32_at(buf, 4),
                le::u64_at(buf, 64)
            )?;
            for i in 0..4 {
                show_entry(rt, buf, d, i)?;
            }
            Ok(())
        }
        Err(fault) => println!(rt; "{fault}"),
    }
}

fn entry(class: u8, location: u64, mode: u32) -> Fields {
    Fields {
        class,
        subprogram: 0,
        size: 0x100,
        location,
        mode,
    }
}

// A directory of a level: started, extended as far as there is room, and read after the start, the first entry and the last.
fn build_level(rt: &impl Print, level: u32) -> io::Result<()> {
    let mut buf = [0xAAu8; 72];
    show_directory(rt, &buf)?;
    show_total(rt, build::start(&mut buf, level))?;
    show_directory(rt, &buf)?;
    show_total(rt, build::extend(&mut buf, entry(1, 0x1000, 1)))?;
    show_directory(rt, &buf)?;
    show_total(rt, build::extend(&mut buf, entry(0x40, 0x2000, 2)))?;
    show_total(
        rt,
        build::extend(&mut buf, entry(0x0B, 0x3FFF_FFFF_FFFF_FFFF, 3)),
    )?;
    show_total(
        rt,
        build::extend(&mut buf, entry(2, 0x4000_0000_0000_0000, 0)),
    )?;
    show_total(rt, build::extend(&mut buf, entry(2, 0, 4)))?;
    show_total(rt, build::extend(&mut buf, entry(2, 0xFF00_0000, 0)))?;
    show_total(rt, build::extend(&mut buf, entry(3, 0, 0)))?;
    show_directory(rt, &buf)
}

fn main(rt: HostRuntime) -> io::Result<()> {
    for level in 0..3 {
        build_level(&rt, level)?;
    }
    Ok(())
}
