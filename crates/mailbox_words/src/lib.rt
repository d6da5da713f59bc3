// The fresh mailbox in lent words, and what callers do with the mailbox that lent words begin with: a post and a take. Each looks at all its words, and
// writes those that change.
#![tactic(auto)]

ghost use Rattle.std.specs.Prelude.{◌≡◌, true, ◌<◌, ◌≤◌, length, get_or};
ghost use Rattle.lent.specs.Lent.{number_for, words_for, answered};
ghost use Rattle.mailbox.specs.Machine.{joined};
ghost use Rattle.mailbox_layout.specs.Layout.{words_of_mailbox, pack_of, unpack_of};
ghost use Rattle.mailbox_held.specs.Held.{held_in};
ghost use Rattle.mailbox_words.specs.Calls.{fresh_words, post_on, take_on};

use mailbox::{Place, PlaceState, Post};
use mailbox_layout::{COUNT, INTERFACE, LINE, PLACES, WORDS};
use reply::Refusal;

// The fresh mailbox into the lent words: the interface is on, and every other word is 0.
#[tactic(auto, using(crate::proofs::CallLaws::fresh_is))]
pub fn fresh(words: &mut [u64]) -> Result<(), Refusal>
    ensures value { answered result ≡ number_for 0 fresh_words words.old }
    ensures words_after { words.new ≡ words_for fresh_words words.old }
{
    let mut packed = [0; WORDS];
    packed[INTERFACE] = 1;
    lent::give(words, &packed)
}

// Puts the post at the line's end, and its caller waits. There are 88 words at least wherever a mailbox's are held; a function that writes more than one
// asks for them beside it, so that the later places are at once seen to lie in them.
#[tactic(auto, using(crate::proofs::WrittenLaws::join_words))]
fn join(words: &mut [u64], caller: u32, command: u16, data: u16)
    requires { (held_in words.old ≡ true) × (words_of_mailbox ≤ length words.old) × (caller ≤ 7) × (get_or words.old 3 0 < 8) }
    ensures { words.new ≡ words_for (pack_of (joined (unpack_of words.old) caller command «data»)) words.old }
{
    let end = words[COUNT] as usize;
    words[COUNT] += 1;
    words[LINE + end] = mailbox_layout::post_word(Post {
        caller,
        command,
        data,
    });
    words[PLACES + caller as usize] = mailbox_layout::place_word(Place {
        state: PlaceState::Waiting,
    });
}

// Takes a post of a caller into the line.
#[tactic(auto, using(crate::proofs::CallLaws::call_cases, crate::proofs::CallLaws::post_other), unfolding(mailbox_calls::specs::Calls::post_of, crate::specs::Calls::left_with))]
pub fn post(
    words: &mut [u64],
    values: &mut [u64],
    caller: u32,
    command: u32,
    data: u16,
) -> Result<(), Refusal>
    ensures value { answered result ≡ (post_on caller command «data» words.old values.old).number }
    ensures words_after { words.new ≡ (post_on caller command «data» words.old values.old).words }
    ensures values_after { values.new ≡ (post_on caller command «data» words.old values.old).values }
{
    if !mailbox_held::serves(words) {
        return Err(Refusal::Field);
    }
    if 7 < caller || 0x3FF < command {
        return Err(Refusal::Range);
    }
    let PlaceState::Free = mailbox_layout::place_from(words[PLACES + caller as usize]).state else {
        return Err(Refusal::Outstanding);
    };
    join(words, caller, command as u16, data);
    Ok(())
}

// Gives a caller its word, and frees its place.
#[tactic(auto, using(crate::proofs::CallLaws::call_cases, crate::proofs::CallLaws::take_other, crate::proofs::WrittenLaws::free_words), unfolding(mailbox_calls::specs::Calls::take_of, crate::specs::Calls::left_with))]
pub fn take(words: &mut [u64], values: &mut [u64], caller: u32) -> Result<(), Refusal>
    ensures value { answered result ≡ (take_on caller words.old values.old).number }
    ensures words_after { words.new ≡ (take_on caller words.old values.old).words }
    ensures values_after { values.new ≡ (take_on caller words.old values.old).values }
{
    if !mailbox_held::serves(words) {
        return Err(Refusal::Field);
    }
    if 7 < caller {
        return Err(Refusal::Range);
    }
    let at = PLACES + caller as usize;
    let word = match mailbox_layout::place_from(words[at]).state {
        PlaceState::Free => return Err(Refusal::Absent),
        PlaceState::Waiting => return Err(Refusal::Early),
        PlaceState::Ready(word) => word,
    };
    if values.is_empty() {
        return Err(Refusal::Room);
    }
    words[at] = mailbox_layout::place_word(Place {
        state: PlaceState::Free,
    });
    values[0] = u64::from(word);
    Ok(())
}
