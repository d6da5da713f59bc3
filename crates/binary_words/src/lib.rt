// The version in a firmware binary's header, and the checksum of lent bytes, each in one lent word.
#![tactic(auto)]

ghost use Rattle.std.specs.Prelude.{◌≡◌};
ghost use Rattle.reply.specs.Reply.{given};
ghost use Rattle.fletcher.specs.Fletcher.{fletcher_of};
ghost use Rattle.lent.specs.Lent.{answered, number_left, words_left, lay_number};
ghost use Rattle.version.specs.Version.{version_of};

use reply::Refusal;

// One word: the version.
#[tactic(auto, using(lent::proofs::Laws::alone_number, lent::proofs::Laws::alone_words))]
pub fn version(bytes: &[u8], words: &mut [u64]) -> Result<(), Refusal>
    ensures value { answered result ≡ number_left lay_number (version_of bytes.now) words.old }
    ensures words_after { words.new ≡ words_left lay_number (version_of bytes.now) words.old }
{
    lent::give(words, &[u64::from(version::version(bytes)?)])
}

// One word: the checksum of the bytes.
pub fn checksum(bytes: &[u8], words: &mut [u64]) -> Result<(), Refusal>
    ensures value { answered result ≡ number_left lay_number (given (fletcher_of bytes.now)) words.old }
    ensures words_after { words.new ≡ words_left lay_number (given (fletcher_of bytes.now)) words.old }
{
    lent::give(words, &[u64::from(fletcher::fletcher(bytes))])
}
