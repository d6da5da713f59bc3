// The checksum of lent bytes.
ghost use Rattle.std.specs.Prelude.{◌≡◌};
ghost use Rattle.reply.specs.Reply.{given};
ghost use Rattle.fletcher.specs.Fletcher.{fletcher_of};
ghost use Rattle.lent.specs.Lent.{number_left, words_left, lay_number};

// One word: the checksum of the bytes.
#[unsafe(no_mangle)]
pub extern "C" fn kpalumere_checksum(bytes: &[u8], words: &mut [u64]) -> u64
    ensures value { result ≡ number_left lay_number (given (fletcher_of bytes.now)) words.old }
    ensures words_after { words.new ≡ words_left lay_number (given (fletcher_of bytes.now)) words.old }
{
    lent::number(binary_words::checksum(bytes, words))
}
