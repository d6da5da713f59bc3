// What the lookups give, in lent words: in the directory of a level, and in the whole image.
#![tactic(auto)]

ghost use Rattle.std.specs.Prelude.{◌≡◌};
ghost use Rattle.lent.specs.Lent.{answered, number_left, words_left};
ghost use Rattle.efs.specs.Rules.{rules_of};
ghost use Rattle.flash.specs.Flash.{flash_find};
ghost use Rattle.walk.specs.Walk.{find_image};
ghost use Rattle.lookup_words.specs.Lookups.{lay_match, lay_image_match};

use reply::{Missed, Refusal};

// Two words: the match's index, and how many entries were tested; with an 8 one word, how many were tested.
pub fn find(image: &[u8], level: u32, class: u8, sub: u8, words: &mut [u64]) -> Result<(), Refusal>
    ensures value { answered result ≡ number_left lay_match (flash_find (rules_of image.now) level image.now class sub) words.old }
    ensures words_after { words.new ≡ words_left lay_match (flash_find (rules_of image.now) level image.now class sub) words.old }
{
    match flash::find(image, level, class, sub) {
        Ok(m) => lent::give(words, &[m.index as u64, m.tested as u64]),
        Err(Missed::Absent(tested)) => lent::refuse(words, Refusal::Absent, &[tested as u64]),
        Err(Missed::Refused(fault)) => lent::refuse_fault(words, fault),
    }
}

// Four words: the place and level of the match's directory, its index, and how many entries were tested; with an 8 one word, how many were tested.
pub fn find_image(image: &[u8], class: u8, sub: u8, words: &mut [u64]) -> Result<(), Refusal>
    ensures value { answered result ≡ number_left lay_image_match (find_image (rules_of image.now) image.now class sub) words.old }
    ensures words_after { words.new ≡ words_left lay_image_match (find_image (rules_of image.now) image.now class sub) words.old }
{
    match walk::find_image(image, class, sub) {
        Ok(m) => lent::give(
            words,
            &[
                m.place.0 as u64,
                m.level as u64,
                m.index as u64,
                m.tested as u64,
            ],
        ),
        Err(Missed::Absent(tested)) => lent::refuse(words, Refusal::Absent, &[tested as u64]),
        Err(Missed::Refused(fault)) => lent::refuse_fault(words, fault),
    }
}
