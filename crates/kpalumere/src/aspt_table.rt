// The ASPT. A table is twenty-two words: the OEM ID's six bytes as a number, the OEM table ID, the OEM revision, the creator's ID and
// revision, the base address, the pages, then for each structure its type, its ID byte and its three register offsets.
ghost use Rattle.std.specs.Prelude.{◌≡◌};
ghost use Rattle.lent.specs.Lent.{number_of, number_left, words_left};
ghost use Rattle.aspt.specs.Calls.{read_of};
ghost use Rattle.aspt_build.specs.Write.{written_by};
ghost use Rattle.aspt_words.specs.AsptTable.{lay_table, table_from, write_words};

// Twenty-two words: the table that the lent bytes hold.
#[unsafe(no_mangle)]
pub extern "C" fn kpalumere_aspt_read(bytes: &[u8], words: &mut [u64]) -> u64
    ensures value { result ≡ number_left lay_table (read_of bytes.now) words.old }
    ensures words_after { words.new ≡ words_left lay_table (read_of bytes.now) words.old }
{
    lent::number(aspt_words::read(bytes, words))
}

// Writes the table in the lent words into the buffer: fewer than twenty-two words are 1, a word that its field cannot hold is 5.
#[unsafe(no_mangle)]
pub extern "C" fn kpalumere_aspt_write(buf: &mut [u8], words: &[u64]) -> u64
    ensures value { result ≡ number_of (write_words words.now buf.old) }
    ensures buf_after { buf.new ≡ written_by (table_from words.now) buf.old (write_words words.now buf.old) }
{
    lent::number(aspt_words::write(buf, words))
}
