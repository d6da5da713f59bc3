// The words of a mailbox's parts, and the parts of words. What stands where is told in specs/Layout.antt.
#![tactic(auto)]

ghost use Rattle.std.specs.Prelude.{◌≡◌};
ghost use Rattle.mailbox_layout.specs.Layout.{part_word, post_word, place_word, interrupt_word};
ghost use Rattle.mailbox_layout.specs.Layout.{phase_from, part_from, post_from, place_from, interrupt_from};

use firmware::{Descriptor, Interrupt};
use mailbox::{Phase, Place, PlaceState, Post};

// Where each word stands. The first eight are one by one; then come the line, the places and the interrupts.

pub const REGISTER: usize = 0;

pub const CALLER: usize = 1;

pub const WORD: usize = 2;

pub const COUNT: usize = 3;

pub const INTERFACE: usize = 4;

pub const PART1: usize = 5;

pub const PART2: usize = 6;

pub const PART3: usize = 7;

pub const LINE: usize = 8;

pub const PLACES: usize = 16;

pub const INTERRUPTS: usize = 24;

pub const WORDS: usize = 88;

// To words. The parts are other crates' types, and so is the word: a crate may write `From` for its own types alone, so these are functions.

pub fn part_word(part: Option<u16>) -> u64
    ensures { result ≡ part_word part }
{
    match part {
        None => 0,
        Some(value) => 0x1_0000 + u64::from(value),
    }
}

pub fn post_word(post: Post) -> u64
    ensures { result ≡ post_word post }
{
    u64::from(post.caller) * 0x1_0000_0000
        + u64::from(post.command) * 0x1_0000
        + u64::from(post.data)
}

pub fn place_word(place: Place) -> u64
    ensures { result ≡ place_word place }
{
    match place.state {
        PlaceState::Free => 0,
        PlaceState::Waiting => 0x1_0000_0000,
        PlaceState::Ready(word) => 0x2_0000_0000 + u64::from(word),
    }
}

pub fn interrupt_word(interrupt: Interrupt) -> u64
    ensures { result ≡ interrupt_word interrupt }
{
    let on = u64::from(interrupt.delivery) * 2;
    match interrupt.descriptor {
        None => on,
        Some(
            Descriptor {
                part1,
                part2,
                part3,
            },
        ) => {
            1 + on
                + u64::from(part1) * 0x1_0000
                + u64::from(part2) * 0x1_0000_0000
                + u64::from(part3) * 0x1_0000_0000_0000
        }
    }
}

// From words, whatever they are.

pub fn phase_from(phase: u64, caller: u64, word: u64) -> Phase
    ensures { result ≡ phase_from phase caller word }
{
    let caller = (caller % 0x1_0000_0000) as u32;
    let word = (word % 0x1_0000_0000) as u32;
    match phase {
        0 => Phase::Idle,
        1 => Phase::Command { caller, word },
        _ => Phase::Response { caller, word },
    }
}

pub fn part_from(word: u64) -> Option<u16>
    ensures { result ≡ part_from word }
{
    if word / 0x1_0000 == 0 {
        None
    } else {
        Some((word % 0x1_0000) as u16)
    }
}

pub fn post_from(word: u64) -> Post
    ensures { result ≡ post_from word }
{
    Post {
        caller: (word / 0x1_0000_0000 % 0x1_0000_0000) as u32,
        command: (word / 0x1_0000 % 0x1_0000) as u16,
        data: (word % 0x1_0000) as u16,
    }
}

pub fn place_from(word: u64) -> Place
    ensures { result ≡ place_from word }
{
    let state = match word / 0x1_0000_0000 {
        0 => PlaceState::Free,
        1 => PlaceState::Waiting,
        _ => PlaceState::Ready((word % 0x1_0000_0000) as u32),
    };
    Place { state }
}

pub fn interrupt_from(word: u64) -> Interrupt
    ensures { result ≡ interrupt_from word }
{
    let descriptor = Descriptor {
        part1: (word / 0x1_0000 % 0x1_0000) as u16,
        part2: (word / 0x1_0000_0000 % 0x1_0000) as u16,
        part3: (word / 0x1_0000_0000_0000 % 0x1_0000) as u16,
    };
    Interrupt {
        descriptor: (word % 2 == 1).then_some(descriptor),
        delivery: word / 2 % 2 == 1,
    }
}
