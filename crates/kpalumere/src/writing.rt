// Directories, started and extended in a lent buffer.
ghost use Rattle.std.specs.Prelude.{◌≡◌};
ghost use Rattle.lent.specs.Lent.{number_of, number_left, words_left, bytes_left, lay_number};
ghost use Rattle.build.specs.Write.{start_of, started_by, extend_of, extended_by};
ghost use Rattle.build_words.specs.Writing.{fields_for};

// No words: a start gives nothing but the directory that it writes.
#[unsafe(no_mangle)]
pub extern "C" fn kpalumere_start(buf: &mut [u8], level: u32) -> u64
    ensures value { result ≡ number_of (start_of level buf.old) }
    ensures buf_after { buf.new ≡ started_by level buf.old (start_of level buf.old) }
{
    lent::number(build_words::start(buf, level))
}

// Extends the directory by an entry. One word: the new total; where there is no word, no byte is written either. A refusal of the directory that stands there
// leaves its place in four words.
#[unsafe(no_mangle)]
pub extern "C" fn kpalumere_extend(
    buf: &mut [u8],
    class: u8,
    sub: u8,
    size: u32,
    location: u64,
    mode: u32,
    words: &mut [u64],
) -> u64
    ensures value { result ≡ number_left lay_number (extend_of (fields_for class sub size location mode) buf.old) words.old }
    ensures words_after { words.new ≡ words_left lay_number (extend_of (fields_for class sub size location mode) buf.old) words.old }
    ensures buf_after { buf.new ≡ bytes_left lay_number (extend_of (fields_for class sub size location mode) buf.old) (extended_by (fields_for class sub size location mode) buf.old) buf.old words.old }
{
    lent::number(build_words::extend(buf, class, sub, size, location, mode, words))
}
