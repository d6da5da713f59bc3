// Lent words: how a call at the boundary hands its values over, and the number that it answers.
#![tactic(auto)]

ghost use Rattle.std.specs.Prelude.{◌≡◌};
ghost use Rattle.reply.specs.Number.{refusal_number};
ghost use Rattle.reply.specs.Reply.{carried_of};
ghost use Rattle.lent.specs.Lent.{lay_carried, number_for, words_for, answered};

use reply::{Fault, Met, Refusal};

// Where a fault was met, as its first word tells it: in a header, or in an entry.
const HEADER: u64 = 1;

const ENTRY: u64 = 2;

// The number of an answer, as the boundary tells it: 0 where it is accepted.
pub fn number(answer: Result<(), Refusal>) -> u64
    ensures { result ≡ answered answer }
{
    match answer {
        Ok(()) => 0,
        Err(refusal) => u64::from(refusal.number()),
    }
}

// Writes the values into the lent words, from the first on, and answers the number; 12, and nothing written, where they do not fit.
#[tactic(auto, using(crate::proofs::Laws::number_12, crate::proofs::Laws::words_12, crate::proofs::Laws::number_fits, crate::proofs::Laws::words_fits))]
pub fn put(words: &mut [u64], number: u64, values: &[u64]) -> u64
    ensures value { result ≡ number_for number values.now words.old }
    ensures words_after { words.new ≡ words_for values.now words.old }
{
    if words.len() < values.len() {
        return 12;
    }
    for (i, value) in values.iter().enumerate() {
        words[i] = *value;
    }
    number
}

// Writes where a refusal was met, and answers its number, whatever that is; 12, and nothing written, where there is no room.
#[tactic(auto, using(crate::proofs::Laws::number_fits, crate::proofs::Laws::words_kept))]
pub fn put_fault(words: &mut [u64], number: u8, met: Met) -> u64
    ensures value { result ≡ number_for number (lay_carried (carried_of met)) words.old }
    ensures words_after { words.new ≡ words_for (lay_carried (carried_of met)) words.old }
{
    let number = u64::from(number);
    match met {
        Met::Alone => number,
        Met::Header { level, directory } => put(
            words,
            number,
            &[HEADER, u64::from(level), 0, u64::from(directory)],
        ),
        Met::Entry {
            level,
            index,
            directory,
        } => put(
            words,
            number,
            &[
                ENTRY,
                u64::from(level),
                u64::from(index),
                u64::from(directory),
            ],
        ),
    }
}

// Writes the values that a call gives; no room, and nothing written, where they do not fit.
#[tactic(auto, using(crate::proofs::Laws::number_full))]
pub fn give(words: &mut [u64], values: &[u64]) -> Result<(), Refusal>
    ensures value { answered result ≡ number_for 0 values.now words.old }
    ensures words_after { words.new ≡ words_for values.now words.old }
{
    if put(words, 0, values) != 0 {
        return Err(Refusal::Room);
    }
    Ok(())
}

// Writes the values that a refusal carries, and answers it; no room, and nothing written, where they do not fit.
#[tactic(auto, using(crate::proofs::Laws::number_kept, crate::proofs::Laws::number_passed))]
pub fn refuse(words: &mut [u64], refusal: Refusal, values: &[u64]) -> Result<(), Refusal>
    ensures value { answered result ≡ number_for (refusal_number refusal) values.now words.old }
    ensures words_after { words.new ≡ words_for values.now words.old }
{
    give(words, values)?;
    Err(refusal)
}

// Writes where a fault was met, and answers its refusal; no room, and nothing written, where it does not fit.
#[tactic(auto, using(crate::proofs::Laws::number_full))]
pub fn refuse_fault(words: &mut [u64], fault: Fault) -> Result<(), Refusal>
    ensures value { answered result ≡ number_for (refusal_number fault.refusal) (lay_carried (carried_of fault.met)) words.old }
    ensures words_after { words.new ≡ words_for (lay_carried (carried_of fault.met)) words.old }
{
    let number = fault.refusal.number();
    if put_fault(words, number, fault.met) != u64::from(number) {
        return Err(Refusal::Room);
    }
    Err(fault.refusal)
}
