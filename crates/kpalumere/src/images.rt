// Flash images: the EFS, the directory pointer, the directory of a level, its entries, where their bytes lie, the lookups, and what is wrong at a place. A refusal
// that was met in a header or an entry leaves its place in four words.
ghost use Rattle.std.specs.Prelude.{◌≡◌};
ghost use Rattle.lent.specs.Lent.{number_left, words_left};
ghost use Rattle.efs.specs.Rules.{rules_of};
ghost use Rattle.efs.specs.Efs.{flash_efs, flash_pointer};
ghost use Rattle.flash.specs.Flash.{flash_directory, flash_entry, flash_part, flash_find};
ghost use Rattle.repeats.specs.Repeats.{flash_repeats};
ghost use Rattle.walk.specs.Walk.{find_image};
ghost use Rattle.all_directories.specs.AllDirectories.{flash_directories, lay_directories};
ghost use Rattle.lookup_words.specs.Lookups.{lay_match, lay_image_match};
ghost use Rattle.flash_words.specs.Images.{lay_efs, lay_pointer, lay_directory, lay_repeat, lay_entry, lay_part};
ghost use Rattle.wrong.specs.Wrong.{wrong_at, lay_wrong};

// Three words: the EFS's place, and its pointers at 0x10 and at 0x14 as they stand.
#[unsafe(no_mangle)]
pub extern "C" fn kpalumere_efs(image: &[u8], words: &mut [u64]) -> u64
    ensures value { result ≡ number_left lay_efs (flash_efs (rules_of image.now) image.now) words.old }
    ensures words_after { words.new ≡ words_left lay_efs (flash_efs (rules_of image.now) image.now) words.old }
{
    lent::number(flash_words::efs(image, words))
}

// Three words: the field of the EFS that holds the directory pointer, its value, and the place where it leads.
#[unsafe(no_mangle)]
pub extern "C" fn kpalumere_pointer(image: &[u8], words: &mut [u64]) -> u64
    ensures value { result ≡ number_left lay_pointer (flash_pointer (rules_of image.now) image.now) words.old }
    ensures words_after { words.new ≡ words_left lay_pointer (flash_pointer (rules_of image.now) image.now) words.old }
{
    lent::number(flash_words::pointer(image, words))
}

// Three words: the directory's place, level and total.
#[unsafe(no_mangle)]
pub extern "C" fn kpalumere_directory(image: &[u8], level: u32, words: &mut [u64]) -> u64
    ensures value { result ≡ number_left lay_directory (flash_directory (rules_of image.now) level image.now) words.old }
    ensures words_after { words.new ≡ words_left lay_directory (flash_directory (rules_of image.now) level image.now) words.old }
{
    lent::number(flash_words::directory(image, level, words))
}

// How many directories the image has, then four words for each: its place, level and total, and the index of the entry of level one that led there.
#[unsafe(no_mangle)]
pub extern "C" fn kpalumere_directories(image: &[u8], words: &mut [u64]) -> u64
    ensures value { result ≡ number_left lay_directories (flash_directories (rules_of image.now) image.now) words.old }
    ensures words_after { words.new ≡ words_left lay_directories (flash_directories (rules_of image.now) image.now) words.old }
{
    lent::number(all_directories::directories(image, words))
}

// Four words: of a directory that is refused since an entry repeats, that entry, the earlier one, and the type and subprogram of both.
#[unsafe(no_mangle)]
pub extern "C" fn kpalumere_repeated(image: &[u8], level: u32, words: &mut [u64]) -> u64
    ensures value { result ≡ number_left lay_repeat (flash_repeats (rules_of image.now) level image.now) words.old }
    ensures words_after { words.new ≡ words_left lay_repeat (flash_repeats (rules_of image.now) level image.now) words.old }
{
    lent::number(flash_words::repeated(image, level, words))
}

// Five words: the entry's type, subprogram, size, location and mode.
#[unsafe(no_mangle)]
pub extern "C" fn kpalumere_entry(image: &[u8], level: u32, index: u64, words: &mut [u64]) -> u64
    ensures value { result ≡ number_left lay_entry (flash_entry (rules_of image.now) level image.now index) words.old }
    ensures words_after { words.new ≡ words_left lay_entry (flash_entry (rules_of image.now) level image.now index) words.old }
{
    lent::number(flash_words::entry(image, level, index, words))
}

// Two words: where the entry's bytes begin in the image, and how many they are.
#[unsafe(no_mangle)]
pub extern "C" fn kpalumere_part(image: &[u8], level: u32, index: u64, words: &mut [u64]) -> u64
    ensures value { result ≡ number_left lay_part (flash_part (rules_of image.now) level image.now index) words.old }
    ensures words_after { words.new ≡ words_left lay_part (flash_part (rules_of image.now) level image.now index) words.old }
{
    lent::number(flash_words::part(image, level, index, words))
}

// Two words: the match's index, and how many entries were tested; with an 8 one word, how many were tested.
#[unsafe(no_mangle)]
pub extern "C" fn kpalumere_find(
    image: &[u8],
    level: u32,
    class: u8,
    sub: u8,
    words: &mut [u64],
) -> u64
    ensures value { result ≡ number_left lay_match (flash_find (rules_of image.now) level image.now class sub) words.old }
    ensures words_after { words.new ≡ words_left lay_match (flash_find (rules_of image.now) level image.now class sub) words.old }
{
    lent::number(lookup_words::find(image, level, class, sub, words))
}

// Four words: the place and level of the match's directory, its index, and how many entries were tested; with an 8 one word, how many were tested.
#[unsafe(no_mangle)]
pub extern "C" fn kpalumere_find_image(image: &[u8], class: u8, sub: u8, words: &mut [u64]) -> u64
    ensures value { result ≡ number_left lay_image_match (find_image (rules_of image.now) image.now class sub) words.old }
    ensures words_after { words.new ≡ words_left lay_image_match (find_image (rules_of image.now) image.now class sub) words.old }
{
    lent::number(lookup_words::find_image(image, class, sub, words))
}

// Five words of what is wrong at a place that a refusal carries, which is where its directory begins, its level, and of an entry its index: the number, where the
// field begins, its bytes, what stands there, and what should.
#[unsafe(no_mangle)]
pub extern "C" fn kpalumere_wrong(
    image: &[u8],
    place: usize,
    level: u32,
    index: usize,
    words: &mut [u64],
) -> u64
    ensures value { result ≡ number_left lay_wrong (wrong_at (rules_of image.now) image.now place level index) words.old }
    ensures words_after { words.new ≡ words_left lay_wrong (wrong_at (rules_of image.now) image.now place level index) words.old }
{
    lent::number(wrong::wrong(image, place, level, index, words))
}
