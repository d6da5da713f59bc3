// Views of a flash image's directories, in lent words. A view crosses the boundary as the lent image and a place.
#![tactic(auto)]

ghost use Rattle.std.specs.Prelude.{◌≡◌};
ghost use Rattle.lent.specs.Lent.{answered, number_left, words_left};
ghost use Rattle.efs.specs.Rules.{rules_of};
ghost use Rattle.flash.specs.Flash.{flash_directory};
ghost use Rattle.place.specs.Place.{entry_at, part_at};
ghost use Rattle.flash_words.specs.Images.{lay_entry, lay_part, lay_place};

use reply::Refusal;
use view::View;
use window::Offset;

// One word: the place that a view of the directory of a level keeps. The view tells the place, and the call on the level, beside it, the number.
pub fn view(image: &[u8], level: u32, words: &mut [u64]) -> Result<(), Refusal>
    ensures value { answered result ≡ number_left lay_place (flash_directory (rules_of image.now) level image.now) words.old }
    ensures words_after { words.new ≡ words_left lay_place (flash_directory (rules_of image.now) level image.now) words.old }
{
    let place = View::of_level(image, level).place;
    match flash::directory(image, level) {
        Ok(_) => lent::give(words, &[place.0 as u64]),
        Err(fault) => lent::refuse_fault(words, fault),
    }
}

// Five words: type, subprogram, size, location and mode of entry i, from a view that holds the image and the place.
#[tactic(auto, using(place::proofs::View::nearest_entry))]
pub fn entry(image: &[u8], place: usize, i: usize, words: &mut [u64]) -> Result<(), Refusal>
    ensures value { answered result ≡ number_left lay_entry (entry_at (rules_of image.now) image.now place i) words.old }
    ensures words_after { words.new ≡ words_left lay_entry (entry_at (rules_of image.now) image.now place i) words.old }
{
    match View::at(image, Offset::nearest(place)).entry(i) {
        Ok(e) => lent::give(words, &flash_words::entry_words(e)),
        Err(fault) => lent::refuse_fault(words, fault),
    }
}

// Two words: where the bytes of entry i begin in the image, and how many they are, from a view that holds the image and the place.
#[tactic(auto, using(place::proofs::View::nearest_part))]
pub fn part(image: &[u8], place: usize, i: usize, words: &mut [u64]) -> Result<(), Refusal>
    ensures value { answered result ≡ number_left lay_part (part_at (rules_of image.now) image.now place i) words.old }
    ensures words_after { words.new ≡ words_left lay_part (part_at (rules_of image.now) image.now place i) words.old }
{
    match View::at(image, Offset::nearest(place)).part(i) {
        Ok(p) => lent::give(words, &flash_words::part_words(p)),
        Err(fault) => lent::refuse_fault(words, fault),
    }
}
