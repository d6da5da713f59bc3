// A load and an unload of the mailbox that lent words begin with.
#![tactic(auto)]

ghost use Rattle.std.specs.Prelude.{◌≡◌, true, ◌<◌, ◌≤◌, length, get_or};
ghost use Rattle.lent.specs.Lent.{words_for, answered};
ghost use Rattle.mailbox.specs.Machine.{with_oldest, handed_over};
ghost use Rattle.mailbox_layout.specs.Layout.{words_of_mailbox, pack_of, unpack_of};
ghost use Rattle.mailbox_held.specs.Held.{held_in};
ghost use Rattle.mailbox_words.specs.Calls.{load_on, unload_on};

use mailbox::{Phase, Place, PlaceState};
use mailbox_layout::{CALLER, COUNT, LINE, PLACES, REGISTER, WORD};
use reply::Refusal;

// Moves the oldest post into the register, which is idle; the others move up in the line, and its last slot is empty then.
#[tactic(auto, using(crate::proofs::MovedLaws::advance_words))]
fn with_oldest(words: &mut [u64])
    requires { (held_in words.old ≡ true) × (words_of_mailbox ≤ length words.old) × (0 < get_or words.old 3 0) }
    ensures { words.new ≡ words_for (pack_of (with_oldest (unpack_of words.old))) words.old }
{
    let first = mailbox_layout::post_from(words[LINE]);
    words[COUNT] -= 1;
    words[REGISTER] = 1;
    words[CALLER] = u64::from(first.caller);
    words[WORD] = u64::from(firmware::word(0, 0, u32::from(first.command), u32::from(first.data)));
    words.copy_within(LINE + 1..PLACES, LINE);
    words[PLACES - 1] = 0;
}

// Moves the oldest post into an idle register.
#[tactic(auto, using(mailbox_words::proofs::CallLaws::call_cases, mailbox_words::proofs::CallLaws::load_other), unfolding(mailbox_calls::specs::Calls::load_of, mailbox_words::specs::Calls::left_with))]
pub fn load(words: &mut [u64], values: &mut [u64]) -> Result<(), Refusal>
    ensures value { answered result ≡ (load_on words.old values.old).number }
    ensures words_after { words.new ≡ (load_on words.old values.old).words }
    ensures values_after { values.new ≡ (load_on words.old values.old).values }
{
    if !mailbox_held::serves(words) {
        return Err(Refusal::Field);
    }
    if values.is_empty() {
        return Err(Refusal::Room);
    }
    match mailbox_layout::phase_from(words[REGISTER], words[CALLER], words[WORD]) {
        Phase::Idle if words[COUNT] != 0 => {
            with_oldest(words);
            values[0] = 1;
        }
        _ => values[0] = 0,
    }
    Ok(())
}

// Puts the register's word into its caller's place, and the register is idle.
#[tactic(auto, using(crate::proofs::MovedLaws::hand_over_words))]
fn hand_over(words: &mut [u64], caller: u32, word: u32)
    requires { (held_in words.old ≡ true) × (words_of_mailbox ≤ length words.old) × (caller ≤ 7) }
    ensures { words.new ≡ words_for (pack_of (handed_over (unpack_of words.old) caller word)) words.old }
{
    words[REGISTER] = 0;
    words[CALLER] = 0;
    words[WORD] = 0;
    words[PLACES + caller as usize] = mailbox_layout::place_word(Place {
        state: PlaceState::Ready(word),
    });
}

// Delivers the response in the register to its caller.
#[tactic(auto, using(mailbox_words::proofs::CallLaws::call_cases, mailbox_words::proofs::CallLaws::unload_other), unfolding(mailbox_calls::specs::Calls::unload_of, mailbox_words::specs::Calls::left_with))]
pub fn unload(words: &mut [u64], values: &mut [u64]) -> Result<(), Refusal>
    ensures value { answered result ≡ (unload_on words.old values.old).number }
    ensures words_after { words.new ≡ (unload_on words.old values.old).words }
    ensures values_after { values.new ≡ (unload_on words.old values.old).values }
{
    if !mailbox_held::serves(words) {
        return Err(Refusal::Field);
    }
    if values.is_empty() {
        return Err(Refusal::Room);
    }
    match mailbox_layout::phase_from(words[REGISTER], words[CALLER], words[WORD]) {
        Phase::Response { caller, word } => {
            hand_over(words, caller, word);
            values[0] = 1;
        }
        _ => values[0] = 0,
    }
    Ok(())
}
