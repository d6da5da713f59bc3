// The steps of a mailbox: a load, a turn and an unload. Each answers whether it acted; where it did not, the mailbox is as it was.
#![tactic(auto)]

ghost use Rattle.std.specs.Prelude.{◌≡◌};
ghost use Rattle.mailbox_calls.specs.Calls.{after, told_after, load_of, turn_of, unload_of};

use mailbox::{Mailbox, Phase, PlaceState, Post};
use reply::Refusal;

// Moves the oldest post into an idle register.
#[tactic(auto, using(mailbox::proofs::LineLaws::shift_is), unfolding(mailbox_calls::specs::Calls::load_of))]
pub fn load(mailbox: &mut Mailbox) -> Result<bool, Refusal>
    ensures { told_after (after mailbox.new result) ≡ load_of mailbox.old }
{
    if !mailbox.consistent() {
        return Err(Refusal::Field);
    }
    let Phase::Idle = mailbox.register else {
        return Ok(false);
    };
    if mailbox.count == 0 {
        return Ok(false);
    }
    let first = mailbox.line[0];
    mailbox.register = Phase::Command {
        caller: first.caller,
        word: firmware::word(0, 0, u32::from(first.command), u32::from(first.data)),
    };
    mailbox.line.rotate_left(1);
    mailbox.line[7] = Post::default();
    mailbox.count -= 1;
    Ok(true)
}

// Runs the command in the register, and its response is there instead.
#[tactic(auto, unfolding(mailbox_calls::specs::Calls::turn_of))]
pub fn turn(mailbox: &mut Mailbox) -> Result<bool, Refusal>
    ensures { told_after (after mailbox.new result) ≡ turn_of mailbox.old }
{
    if !mailbox.consistent() {
        return Err(Refusal::Field);
    }
    let Phase::Command { caller, word } = mailbox.register else {
        return Ok(false);
    };
    let ran = mailbox.firmware.run(word);
    mailbox.register = Phase::Response {
        caller,
        word: ran.word,
    };
    mailbox.firmware = ran.firmware;
    Ok(true)
}

// Delivers the response in the register to its caller.
#[tactic(auto, using(mailbox::proofs::Facts::response_low), unfolding(mailbox_calls::specs::Calls::unload_of))]
pub fn unload(mailbox: &mut Mailbox) -> Result<bool, Refusal>
    ensures { told_after (after mailbox.new result) ≡ unload_of mailbox.old }
{
    if !mailbox.consistent() {
        return Err(Refusal::Field);
    }
    let Phase::Response { caller, word } = mailbox.register else {
        return Ok(false);
    };
    mailbox.places[caller as usize].state = PlaceState::Ready(word);
    mailbox.register = Phase::Idle;
    Ok(true)
}
