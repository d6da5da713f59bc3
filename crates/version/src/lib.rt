// The firmware version in the header that a firmware binary begins with.
#![tactic(auto)]

ghost use Rattle.std.specs.Prelude.{◌≡◌};
ghost use Rattle.reply.specs.Reply.{told_alone};
ghost use Rattle.version.specs.Version.{version_of};

use reply::Refusal;

// The header that a binary begins with: its bytes, and where the mark and the version stand in it.
const HEADER_LENGTH: usize = 256;

const HEADER_MARK: usize = 0x10;

const HEADER_VERSION: usize = 0x60;

// "$PS1", as the mark has it.
const PS1: u32 = 0x3153_5024;

// The version of a binary, by its header.
#[tactic(auto, unfolding(crate::specs::Version::version_of))]
pub fn version(bytes: &[u8]) -> Result<u32, Refusal>
    ensures { told_alone result ≡ version_of bytes.now }
{
    if bytes.len() < HEADER_LENGTH {
        return Err(Refusal::Short);
    }
    if le::u32_at(bytes, HEADER_MARK) != PS1 {
        return Err(Refusal::Signature);
    }
    Ok(le::u32_at(bytes, HEADER_VERSION))
}
