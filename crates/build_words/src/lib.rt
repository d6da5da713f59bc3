// Directories, started and extended in a lent buffer; the new total goes into lent words.
#![tactic(auto)]

ghost use Rattle.std.specs.Prelude.{◌≡◌};
ghost use Rattle.lent.specs.Lent.{number_of, number_left, words_left, bytes_left, answered, lay_number};
ghost use Rattle.build.specs.Write.{start_of, started_by, extend_of, extended_by};
ghost use Rattle.build_words.specs.Writing.{fields_for};

use build::Fields;
use reply::Refusal;

// No words: a start gives nothing but the directory that it writes.
pub fn start(buf: &mut [u8], level: u32) -> Result<(), Refusal>
    ensures value { answered result ≡ number_of (start_of level buf.old) }
    ensures buf_after { buf.new ≡ started_by level buf.old (start_of level buf.old) }
{
    build::start(buf, level).map_err(|fault| fault.refusal)?;
    Ok(())
}

// Extends the directory by an entry. One word: the new total; where there is no word, no byte is written either. The entry's numbers stand one by one, as in the
// C interface.
#[tactic(auto, unfolding(lent::specs::Lent::bytes_left))]
pub fn extend(
    buf: &mut [u8],
    class: u8,
    sub: u8,
    size: u32,
    location: u64,
    mode: u32,
    words: &mut [u64],
) -> Result<(), Refusal>
    ensures value { answered result ≡ number_left lay_number (extend_of (fields_for class sub size location mode) buf.old) words.old }
    ensures words_after { words.new ≡ words_left lay_number (extend_of (fields_for class sub size location mode) buf.old) words.old }
    ensures buf_after { buf.new ≡ bytes_left lay_number (extend_of (fields_for class sub size location mode) buf.old) (extended_by (fields_for class sub size location mode) buf.old) buf.old words.old }
{
    let fields = Fields {
        class,
        subprogram: sub,
        size,
        location,
        mode,
    };
    let answer = if words.is_empty() {
        build::admit(buf, fields)
    } else {
        build::extend(buf, fields)
    };
    match answer {
        Ok(total) => lent::give(words, &[u64::from(total)]),
        Err(fault) => lent::refuse_fault(words, fault),
    }
}
