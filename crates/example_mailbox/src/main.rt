// A fixed sequence of calls on a mailbox. Each call's answer is a line, in the words of the ask language.
#![tactic(auto)]

use mailbox::Mailbox;
use reply::Refusal;
use std::io;

fn post(rt: &impl Print, m: &mut Mailbox, caller: u32, command: u32, data: u16) -> io::Result<()> {
    match mailbox_calls::post(m, caller, command, data) {
        Ok(()) => println!(rt; "ok"),
        Err(refusal) => println!(rt; "{refusal}"),
    }
}

fn take(rt: &impl Print, m: &mut Mailbox, caller: u32) -> io::Result<()> {
    match mailbox_calls::take(m, caller) {
        Ok(word) => println!(rt; "ok word=0x{word:08x}"),
        Err(refusal) => println!(rt; "{refusal}"),
    }
}

// The line of a load, a turn or an unload.
fn step(rt: &impl Print, answer: Result<bool, Refusal>) -> io::Result<()> {
    match answer {
        Ok(true) => println!(rt; "yes"),
        Ok(false) => println!(rt; "no"),
        Err(refusal) => println!(rt; "{refusal}"),
    }
}

// A load, a turn and an unload.
fn round(rt: &impl Print, m: &mut Mailbox) -> io::Result<()> {
    step(rt, mailbox_steps::load(m))?;
    step(rt, mailbox_steps::turn(m))?;
    step(rt, mailbox_steps::unload(m))
}

// Two callers ask, and each takes its own answer and no other's.
fn two_callers(rt: &impl Print, m: &mut Mailbox) -> io::Result<()> {
    post(rt, m, 3, 0x81, 0)?;
    post(rt, m, 5, 0x86, 0x1234)?;
    post(rt, m, 3, 0x80, 0)?;
    take(rt, m, 3)?;
    round(rt, m)?;
    take(rt, m, 5)?;
    post(rt, m, 3, 0x80, 0)?;
    take(rt, m, 3)?;
    round(rt, m)?;
    take(rt, m, 3)?;
    take(rt, m, 5)?;
    round(rt, m)
}

// Calls out of range, and steps with nothing to do.
fn refusals(rt: &impl Print, m: &mut Mailbox) -> io::Result<()> {
    post(rt, m, 8, 0x400, 0)?;
    post(rt, m, 7, 0x400, 0)?;
    take(rt, m, 8)?;
    take(rt, m, 7)?;
    step(rt, mailbox_steps::turn(m))?;
    step(rt, mailbox_steps::unload(m))
}

// One command by a caller, run at once.
fn ask(rt: &impl Print, m: &mut Mailbox, caller: u32, command: u32, data: u16) -> io::Result<()> {
    post(rt, m, caller, command, data)?;
    round(rt, m)?;
    take(rt, m, caller)
}

// A descriptor whose part 1 comes last, and its delivery.
fn descriptor(rt: &impl Print, m: &mut Mailbox) -> io::Result<()> {
    ask(rt, m, 0, 0x85, 0x0401)?;
    ask(rt, m, 1, 0x80, 0)?;
    ask(rt, m, 2, 0x85, 0x0403)?;
    ask(rt, m, 3, 0x84, 0x0410)?;
    ask(rt, m, 4, 0x83, 0x0002)?;
    ask(rt, m, 5, 0x85, 0x0401)?;
    ask(rt, m, 6, 0x82, 0x0001)?;
    ask(rt, m, 7, 0x85, 0x0401)?;
    ask(rt, m, 0, 0x81, 0)
}

fn main(rt: HostRuntime) -> io::Result<()> {
    let mut mailbox = Mailbox::fresh();
    two_callers(&rt, &mut mailbox)?;
    refusals(&rt, &mut mailbox)?;
    descriptor(&rt, &mut mailbox)
}
