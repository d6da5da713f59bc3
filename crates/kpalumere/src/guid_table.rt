// The GUID table at the end of a guest firmware image. A GUID is given by its two halves: its sixteen bytes in memory are those of
// `low`, then those of `high`, lowest first.
ghost use Rattle.std.specs.Prelude.{◌≡◌};
ghost use Rattle.lent.specs.Lent.{number_of, number_left, words_left, bytes_left, lay_number};
ghost use Rattle.guids.specs.Table.{table_of, find_of, entry_of};
ghost use Rattle.guids_build.specs.Write.{start_of, started_by, extend_of, extended_by};
ghost use Rattle.guids_words.specs.GuidTable.{lay_totals, lay_guid_match, lay_guid_entry, guid_of};

// Two words: the table's total, and the number of its entries.
#[unsafe(no_mangle)]
pub extern "C" fn kpalumere_guids(image: &[u8], words: &mut [u64]) -> u64
    ensures value { result ≡ number_left lay_totals (table_of image.now) words.old }
    ensures words_after { words.new ≡ words_left lay_totals (table_of image.now) words.old }
{
    lent::number(guids_words::table(image, words))
}

// Three words: the data's place and length, and the number of entries tested. 8 carries that number: one word.
#[unsafe(no_mangle)]
pub extern "C" fn kpalumere_guid_find(image: &[u8], low: u64, high: u64, words: &mut [u64]) -> u64
    ensures value { result ≡ number_left lay_guid_match (find_of image.now (guid_of low high)) words.old }
    ensures words_after { words.new ≡ words_left lay_guid_match (find_of image.now (guid_of low high)) words.old }
{
    lent::number(guids_words::find(image, low, high, words))
}

// Four words: the GUID's halves, and the data's place and length, of the entry at position i counted from the footer.
#[unsafe(no_mangle)]
pub extern "C" fn kpalumere_guid_entry(image: &[u8], i: usize, words: &mut [u64]) -> u64
    ensures value { result ≡ number_left lay_guid_entry (entry_of image.now i) words.old }
    ensures words_after { words.new ≡ words_left lay_guid_entry (entry_of image.now i) words.old }
{
    lent::number(guids_words::entry(image, i, words))
}

// Starts a table with no entries.
#[unsafe(no_mangle)]
pub extern "C" fn kpalumere_guid_start(buf: &mut [u8]) -> u64
    ensures value { result ≡ number_of (start_of buf.old) }
    ensures buf_after { buf.new ≡ started_by buf.old (start_of buf.old) }
{
    lent::number(guids_words::start(buf))
}

// Extends the table by an entry, farthest from the footer. One word: the new total; where there is no word, no byte is written either.
#[unsafe(no_mangle)]
pub extern "C" fn kpalumere_guid_extend(
    buf: &mut [u8],
    low: u64,
    high: u64,
    bytes: &[u8],
    words: &mut [u64],
) -> u64
    ensures value { result ≡ number_left lay_number (extend_of buf.old bytes.now) words.old }
    ensures words_after { words.new ≡ words_left lay_number (extend_of buf.old bytes.now) words.old }
    ensures buf_after { buf.new ≡ bytes_left lay_number (extend_of buf.old bytes.now) (extended_by buf.old (guid_of low high) bytes.now) buf.old words.old }
{
    lent::number(guids_words::extend(buf, low, high, bytes, words))
}
