// The version of the firmware binary that an entry's bytes are, in one lent word. The entry is one of the directory of a level, or of the
// directory that a view holds.
#![tactic(auto)]

ghost use Rattle.std.specs.Prelude.{◌≡◌};
ghost use Rattle.lent.specs.Lent.{answered, number_left, words_left, lay_number};
ghost use Rattle.efs.specs.Rules.{rules_of};
ghost use Rattle.flash.specs.Flash.{flash_part};
ghost use Rattle.place.specs.Place.{part_at};
ghost use Rattle.version_words.specs.Versions.{version_in};

use reply::Refusal;
use view::View;
use window::Offset;

// Of entry i of the directory of a level. Where the entry has no bytes, the number is that of its part.
pub fn entry(image: &[u8], level: u32, index: u64, words: &mut [u64]) -> Result<(), Refusal>
    ensures value { answered result ≡ number_left lay_number (version_in image.now (flash_part (rules_of image.now) level image.now index)) words.old }
    ensures words_after { words.new ≡ words_left lay_number (version_in image.now (flash_part (rules_of image.now) level image.now index)) words.old }
{
    let i = index as usize;
    match flash::part(image, level, i) {
        Ok(_) => binary_words::version(flash::bytes(image, level, i), words),
        Err(fault) => lent::refuse_fault(words, fault),
    }
}

// Of entry i, from a view that holds the image and the place.
#[tactic(auto, using(place::proofs::View::nearest_part))]
pub fn view(image: &[u8], place: usize, i: usize, words: &mut [u64]) -> Result<(), Refusal>
    ensures value { answered result ≡ number_left lay_number (version_in image.now (part_at (rules_of image.now) image.now place i)) words.old }
    ensures words_after { words.new ≡ words_left lay_number (version_in image.now (part_at (rules_of image.now) image.now place i)) words.old }
{
    let view = View::at(image, Offset::nearest(place));
    match view.part(i) {
        Ok(_) => binary_words::version(view.bytes(i), words),
        Err(fault) => lent::refuse_fault(words, fault),
    }
}
