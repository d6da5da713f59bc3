// A turn of the mailbox that lent words begin with: a command run on the firmware's words.
#![tactic(auto)]

ghost use Rattle.std.specs.Prelude.{◌≡◌, true, ◌≤◌, length};
ghost use Rattle.firmware.specs.Word.{word_of};
ghost use Rattle.firmware.specs.Rules.{status_number, holding, settled_of, delivery_of, run_of};
ghost use Rattle.lent.specs.Lent.{words_for, answered};
ghost use Rattle.mailbox_layout.specs.Layout.{words_of_mailbox, pack_of, firmware_from, unpack_of};
ghost use Rattle.mailbox_held.specs.Held.{held_in};
ghost use Rattle.mailbox_words.specs.Calls.{turn_on};
ghost use Rattle.mailbox_turn_words.specs.Before.{before};

use firmware::{Descriptor, Firmware, Interrupt, Status};
use mailbox::Phase;
use mailbox_layout::{CALLER, INTERFACE, INTERRUPTS, PART1, PART2, PART3, REGISTER, WORD};
use reply::Refusal;

// Holds these parts; where all three are there, they are saved under their ID instead.
#[tactic(auto, using(crate::proofs::RunLaws::holding_words, crate::proofs::RunLaws::saving_words), unfolding(firmware::specs::Rules::settled_of))]
fn settle(words: &mut [u64], part1: Option<u16>, part2: Option<u16>, part3: Option<u16>)
    requires { (held_in words.old ≡ true) × (words_of_mailbox ≤ length words.old) }
    ensures { words.new ≡ words_for (pack_of (before (unpack_of words.old) (settled_of (holding (firmware_from words.old) part1 part2 part3)))) words.old }
{
    if let (Some(one), Some(two), Some(three)) = (part1, part2, part3) {
        let at = INTERRUPTS + usize::from(three / 1024 % 64);
        let kept = mailbox_layout::interrupt_from(words[at]);
        words[at] = mailbox_layout::interrupt_word(Interrupt {
            descriptor: Some(Descriptor {
                part1: one,
                part2: two,
                part3: three,
            }),
            ..kept
        });
        words[PART1] = 0;
        words[PART2] = 0;
        words[PART3] = 0;
        return;
    }
    words[PART1] = mailbox_layout::part_word(part1);
    words[PART2] = mailbox_layout::part_word(part2);
    words[PART3] = mailbox_layout::part_word(part3);
}

// Command 0x85: how it went, and the delivery set where that is a success.
#[tactic(auto, using(mailbox_held::proofs::HeldLaws::held_long, crate::proofs::RunLaws::firmware_read, crate::proofs::RunLaws::delivering_words), unfolding(firmware::specs::Rules::delivery_of))]
fn deliver(words: &mut [u64], data: u32) -> Status
    requires { held_in words.old ≡ true }
    ensures data_value { word_of 1 (status_number result) 0x85 «data» ≡ (delivery_of (firmware_from words.old) «data»).word }
    ensures words_after { words.new ≡ words_for (pack_of (before (unpack_of words.old) (delivery_of (firmware_from words.old) «data»).firmware)) words.old }
{
    if words[INTERFACE] == 1 {
        return Status::InterfaceOn;
    }
    if data / 2 % 512 != 0 {
        return Status::BitsSet;
    }
    let at = INTERRUPTS + (data / 1024 % 64) as usize;
    let kept = mailbox_layout::interrupt_from(words[at]);
    if kept.descriptor.is_none() {
        return Status::NoDescriptor;
    }
    words[at] = mailbox_layout::interrupt_word(Interrupt {
        delivery: data % 2 == 1,
        ..kept
    });
    Status::Success
}

// The response with a status.
fn response(status: Status, command: u32, data: u32) -> u32
    ensures { result ≡ word_of 1 (status_number status) command «data» }
{
    firmware::word(1, status as u32, command, data)
}

// Runs a command word on the firmware's words: its response.
#[tactic(auto, using(mailbox_held::proofs::HeldLaws::held_long, crate::proofs::RunLaws::firmware_read, crate::proofs::RunLaws::off_words), unfolding(firmware::specs::Rules::rule_of))]
fn run(words: &mut [u64], asked: u32) -> u32
    requires { held_in words.old ≡ true }
    ensures value { result ≡ (run_of (firmware_from words.old) asked).word }
    ensures words_after { words.new ≡ words_for (pack_of (before (unpack_of words.old) (run_of (firmware_from words.old) asked).firmware)) words.old }
{
    let command = asked / 0x1_0000 % 1024;
    let data = asked % 0x1_0000;
    let part = Some(data as u16);
    let part1 = mailbox_layout::part_from(words[PART1]);
    let part2 = mailbox_layout::part_from(words[PART2]);
    let part3 = mailbox_layout::part_from(words[PART3]);
    match command {
        Firmware::DISABLE_INTERFACE => {
            words[INTERFACE] = 0;
            response(Status::Success, command, data)
        }
        Firmware::QUERY_INTERFACE => response(
            Status::Success,
            command,
            u32::from(words[INTERFACE] == 1),
        ),
        Firmware::SET_PART1 => {
            settle(words, part, part2, part3);
            response(Status::Success, command, data)
        }
        Firmware::SET_PART2 => {
            settle(words, part1, part, part3);
            response(Status::Success, command, data)
        }
        Firmware::SET_PART3 => {
            settle(words, part1, part2, part);
            response(Status::Success, command, data)
        }
        Firmware::ENABLE_DELIVERY => {
            let status = deliver(words, data);
            response(status, command, data)
        }
        _ => response(Status::UnknownCommand, command, data),
    }
}

// Runs the command in the register, and its response is there instead.
#[tactic(auto, using(mailbox_words::proofs::CallLaws::call_cases, mailbox_words::proofs::CallLaws::turn_other, crate::proofs::RunLaws::ran_cases), unfolding(mailbox_calls::specs::Calls::turn_of, mailbox_words::specs::Calls::left_with))]
pub fn turn(words: &mut [u64], values: &mut [u64]) -> Result<(), Refusal>
    ensures value { answered result ≡ (turn_on words.old values.old).number }
    ensures words_after { words.new ≡ (turn_on words.old values.old).words }
    ensures values_after { values.new ≡ (turn_on words.old values.old).values }
{
    if !mailbox_held::serves(words) {
        return Err(Refusal::Field);
    }
    if values.is_empty() {
        return Err(Refusal::Room);
    }
    match mailbox_layout::phase_from(words[REGISTER], words[CALLER], words[WORD]) {
        Phase::Command { word, .. } => {
            let response = run(words, word);
            words[REGISTER] = 2;
            words[WORD] = u64::from(response);
            values[0] = 1;
        }
        _ => values[0] = 0,
    }
    Ok(())
}
