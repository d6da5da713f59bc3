// An image of a length that is allowed: a function that takes one need not ask for the length.

ghost use Rattle.std.specs.Prelude.{◌≡◌, ℕ, List, true};
ghost use Rattle.window.specs.Length.{length_allowed};

use reply::Refusal;
use std::marker::Model;

// The lent bytes of an image. Contracts see them as a list.
#[derive(Drop)]
pub struct Image<'a> {
    bytes: &'a [u8],
}

impl<'a> Model for Image<'a> {
    ghost Value = { List ℕ };

    ghost view = { λ image. image.bytes.now };

    ghost invariant = { λ image. length_allowed image.bytes.now ≡ true };
}

impl<'a> Image<'a> {
    ghost use Rattle.reply.specs.Reply.{given, told_alone};
    ghost use Rattle.window.specs.Length.{sized};

    // The image of these bytes, where their length is allowed.
    pub fn new(bytes: &'a [u8]) -> Result<Image<'a>, Refusal>
        ensures { told_alone result ≡ sized bytes.now (given bytes.now) }
    {
        if !crate::length_allowed(bytes) {
            return Err(Refusal::Image);
        }
        Ok(Image { bytes })
    }

    // Its bytes.
    pub fn bytes(&self) -> &'a [u8]
        ensures value { result.now ≡ self.now }
        ensures allowed { length_allowed self.now ≡ true }
    {
        self.bytes
    }
}
