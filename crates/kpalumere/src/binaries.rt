// Firmware binaries: the version in a binary's header.
ghost use Rattle.std.specs.Prelude.{◌≡◌};
ghost use Rattle.lent.specs.Lent.{number_left, words_left, lay_number};
ghost use Rattle.efs.specs.Rules.{rules_of};
ghost use Rattle.flash.specs.Flash.{flash_part};
ghost use Rattle.version.specs.Version.{version_of};
ghost use Rattle.version_words.specs.Versions.{version_in};

// One word: the version.
#[unsafe(no_mangle)]
pub extern "C" fn kpalumere_version(bytes: &[u8], words: &mut [u64]) -> u64
    ensures value { result ≡ number_left lay_number (version_of bytes.now) words.old }
    ensures words_after { words.new ≡ words_left lay_number (version_of bytes.now) words.old }
{
    lent::number(binary_words::version(bytes, words))
}

// One word: the version of the firmware binary that the bytes of an entry of the directory of a level are. A refusal that was met in a header or an entry leaves
// its place in four words.
#[unsafe(no_mangle)]
pub extern "C" fn kpalumere_entry_version(
    image: &[u8],
    level: u32,
    index: u64,
    words: &mut [u64],
) -> u64
    ensures value { result ≡ number_left lay_number (version_in image.now (flash_part (rules_of image.now) level image.now index)) words.old }
    ensures words_after { words.new ≡ words_left lay_number (version_in image.now (flash_part (rules_of image.now) level image.now index)) words.old }
{
    lent::number(version_words::entry(image, level, index, words))
}
