// What callers do with a mailbox: a post and a take. A refused call leaves it as it was.
#![tactic(auto)]

ghost use Rattle.std.specs.Prelude.{◌≡◌};
ghost use Rattle.mailbox_calls.specs.Calls.{after, told_after, post_of, take_of};

use mailbox::{Mailbox, PlaceState, Post};
use reply::Refusal;

// Takes a post of a caller into the line.
#[tactic(auto, using(mailbox::proofs::Facts::room), unfolding(crate::specs::Calls::post_of))]
pub fn post(mailbox: &mut Mailbox, caller: u32, command: u32, data: u16) -> Result<(), Refusal>
    ensures { told_after (after mailbox.new result) ≡ post_of mailbox.old caller command «data» }
{
    if !mailbox.consistent() {
        return Err(Refusal::Field);
    }
    if 7 < caller || 0x3FF < command {
        return Err(Refusal::Range);
    }
    let at = caller as usize;
    let PlaceState::Free = mailbox.places[at].state else {
        return Err(Refusal::Outstanding);
    };
    mailbox.places[at].state = PlaceState::Waiting;
    mailbox.line[mailbox.count] = Post {
        caller,
        command: command as u16,
        data,
    };
    mailbox.count += 1;
    Ok(())
}

// Gives a caller its word, and frees its place.
#[tactic(auto, unfolding(crate::specs::Calls::take_of))]
pub fn take(mailbox: &mut Mailbox, caller: u32) -> Result<u32, Refusal>
    ensures { told_after (after mailbox.new result) ≡ take_of mailbox.old caller }
{
    if !mailbox.consistent() {
        return Err(Refusal::Field);
    }
    if 7 < caller {
        return Err(Refusal::Range);
    }
    let place = &mut mailbox.places[caller as usize];
    match place.state {
        PlaceState::Free => Err(Refusal::Absent),
        PlaceState::Waiting => Err(Refusal::Early),
        PlaceState::Ready(word) => {
            place.state = PlaceState::Free;
            Ok(word)
        }
    }
}
