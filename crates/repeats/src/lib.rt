// Which entries repeat in the directory of a level of a flash image, for a message that names both.
#![tactic(auto)]

ghost use Rattle.std.specs.Prelude.{◌≡◌};
ghost use Rattle.reply.specs.Reply.{told};
ghost use Rattle.efs.specs.Rules.{rules_of};
ghost use Rattle.repeats.specs.Repeats.{repeats_one, repeats_led, repeats_two, flash_repeats};

use directory::{Directory, Repeat};
use efs::Rules;
use entries::Lead;
use reply::{Fault, Met, Refusal};
use window::Image;

// Those of level one.
fn repeats_one(image: &[u8]) -> Result<Repeat, Fault>
    ensures { told result ≡ repeats_one (rules_of image.now) image.now }
{
    let pointer = efs::flash_pointer(image)?;
    directory::repeated_at(image, directory::psp_kind(), Rules::LIMIT, 1, pointer.place)
}

// Those of the level two that an entry of a directory leads to.
fn repeats_led(image: &Image, d: Directory, l: Lead) -> Result<Repeat, Fault>
    ensures { told result ≡ repeats_led (rules_of image.now) image.now d l }
{
    let bytes = image.bytes();
    let place = entries::leads_to(bytes, bytes.len(), d.place(), l.entry).map_err(
        |refusal| Fault {
            refusal,
            met: Met::Entry {
                level: d.level(),
                index: l.index,
                directory: d.place().0,
            },
        },
    )?;
    directory::repeated_at(bytes, directory::psp_kind(), Rules::LIMIT, 2, place)
}

// Those of level two.
#[tactic(auto, unfolding(flash::specs::Flash::flash_directory))]
fn repeats_two(image: &[u8]) -> Result<Repeat, Fault>
    ensures { told result ≡ repeats_two (rules_of image.now) image.now }
{
    let image = Image::new(image)?;
    let d = flash::directory(image.bytes(), 1)?;
    let lead = entries::lead_in(image.bytes(), directory::psp_kind(), d)?;
    repeats_led(&image, d, lead)
}

// Those of a level number.
#[tactic(auto, using(directory::proofs::Cases::level_above), unfolding(crate::specs::Repeats::flash_repeats))]
pub fn repeated(image: &[u8], level: u32) -> Result<Repeat, Fault>
    ensures { told result ≡ flash_repeats (rules_of image.now) level image.now }
{
    if level < 1 || 2 < level {
        return Err(Refusal::Range.into());
    }
    if level == 1 {
        return repeats_one(image);
    }
    repeats_two(image)
}
