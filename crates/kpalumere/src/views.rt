// Views of a flash image's directories. A view crosses the boundary as the lent image and a place. A refusal that was met in a header or an entry leaves its
// place in four words.
ghost use Rattle.std.specs.Prelude.{◌≡◌};
ghost use Rattle.lent.specs.Lent.{number_left, words_left, lay_number};
ghost use Rattle.efs.specs.Rules.{rules_of};
ghost use Rattle.flash.specs.Flash.{flash_directory};
ghost use Rattle.place.specs.Place.{check_at, entry_at, part_at};
ghost use Rattle.flash_words.specs.Images.{lay_entry, lay_part, lay_place};
ghost use Rattle.version_words.specs.Versions.{version_in};
ghost use Rattle.all_entries.specs.AllEntries.{lay_entries};

// One word: the place that a view of the directory of a level keeps.
#[unsafe(no_mangle)]
pub extern "C" fn kpalumere_view(image: &[u8], level: u32, words: &mut [u64]) -> u64
    ensures value { result ≡ number_left lay_place (flash_directory (rules_of image.now) level image.now) words.old }
    ensures words_after { words.new ≡ words_left lay_place (flash_directory (rules_of image.now) level image.now) words.old }
{
    lent::number(view_words::view(image, level, words))
}

// Five words: type, subprogram, size, location and mode of entry i, from a view that holds the image and the place.
#[unsafe(no_mangle)]
pub extern "C" fn kpalumere_view_entry(
    image: &[u8],
    place: usize,
    i: usize,
    words: &mut [u64],
) -> u64
    ensures value { result ≡ number_left lay_entry (entry_at (rules_of image.now) image.now place i) words.old }
    ensures words_after { words.new ≡ words_left lay_entry (entry_at (rules_of image.now) image.now place i) words.old }
{
    lent::number(view_words::entry(image, place, i, words))
}

// Two words: where the bytes of entry i begin in the image, and how many they are, from a view that holds the image and the place.
#[unsafe(no_mangle)]
pub extern "C" fn kpalumere_view_part(
    image: &[u8],
    place: usize,
    i: usize,
    words: &mut [u64],
) -> u64
    ensures value { result ≡ number_left lay_part (part_at (rules_of image.now) image.now place i) words.old }
    ensures words_after { words.new ≡ words_left lay_part (part_at (rules_of image.now) image.now place i) words.old }
{
    lent::number(view_words::part(image, place, i, words))
}

// One word: the version of the firmware binary that the bytes of entry i are, from a view that holds the image and the place.
#[unsafe(no_mangle)]
pub extern "C" fn kpalumere_view_version(
    image: &[u8],
    place: usize,
    i: usize,
    words: &mut [u64],
) -> u64
    ensures value { result ≡ number_left lay_number (version_in image.now (part_at (rules_of image.now) image.now place i)) words.old }
    ensures words_after { words.new ≡ words_left lay_number (version_in image.now (part_at (rules_of image.now) image.now place i)) words.old }
{
    lent::number(version_words::view(image, place, i, words))
}

// Three words of the directory that a view holds, which is checked once: place, level and total; then eight of each entry: type, subprogram, size, location and
// mode, the number that refuses its part, or 0, and where its bytes begin and how many they are, or 0 and 0.
#[unsafe(no_mangle)]
pub extern "C" fn kpalumere_view_entries(image: &[u8], place: usize, words: &mut [u64]) -> u64
    ensures value { result ≡ number_left (lay_entries (rules_of image.now) image.now) (check_at (rules_of image.now) image.now place) words.old }
    ensures words_after { words.new ≡ words_left (lay_entries (rules_of image.now) image.now) (check_at (rules_of image.now) image.now place) words.old }
{
    lent::number(all_entries::view_entries(image, place, words))
}
