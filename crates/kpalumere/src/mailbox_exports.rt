// The mailbox, in 88 lent words (their layout: mailbox_layout, specs/Layout.antt). Words that are no mailbox's answer 5 and stay.
ghost use Rattle.std.specs.Prelude.{◌≡◌};
ghost use Rattle.lent.specs.Lent.{number_for, words_for};
ghost use Rattle.mailbox_words.specs.Calls.{fresh_words, post_on, load_on, turn_on, unload_on, take_on};

// The fresh mailbox into the first 88 words.
#[unsafe(no_mangle)]
pub extern "C" fn kpalumere_mailbox_fresh(words: &mut [u64]) -> u64
    ensures value { result ≡ number_for 0 fresh_words words.old }
    ensures words_after { words.new ≡ words_for fresh_words words.old }
{
    lent::number(mailbox_words::fresh(words))
}

// Takes a post of a caller into the line. No value.
#[unsafe(no_mangle)]
pub extern "C" fn kpalumere_post(
    words: &mut [u64],
    values: &mut [u64],
    caller: u32,
    command: u32,
    data: u16,
) -> u64
    ensures value { result ≡ (post_on caller command «data» words.old values.old).number }
    ensures words_after { words.new ≡ (post_on caller command «data» words.old values.old).words }
    ensures values_after { values.new ≡ (post_on caller command «data» words.old values.old).values }
{
    lent::number(mailbox_words::post(words, values, caller, command, data))
}

// Moves the oldest post into an idle register. One value: 1 yes, 0 no.
#[unsafe(no_mangle)]
pub extern "C" fn kpalumere_load(words: &mut [u64], values: &mut [u64]) -> u64
    ensures value { result ≡ (load_on words.old values.old).number }
    ensures words_after { words.new ≡ (load_on words.old values.old).words }
    ensures values_after { values.new ≡ (load_on words.old values.old).values }
{
    lent::number(mailbox_steps_words::load(words, values))
}

// Runs the command in the register, and its response is there instead. One value: 1 yes, 0 no.
#[unsafe(no_mangle)]
pub extern "C" fn kpalumere_turn(words: &mut [u64], values: &mut [u64]) -> u64
    ensures value { result ≡ (turn_on words.old values.old).number }
    ensures words_after { words.new ≡ (turn_on words.old values.old).words }
    ensures values_after { values.new ≡ (turn_on words.old values.old).values }
{
    lent::number(mailbox_turn_words::turn(words, values))
}

// Delivers the response in the register to its caller. One value: 1 yes, 0 no.
#[unsafe(no_mangle)]
pub extern "C" fn kpalumere_unload(words: &mut [u64], values: &mut [u64]) -> u64
    ensures value { result ≡ (unload_on words.old values.old).number }
    ensures words_after { words.new ≡ (unload_on words.old values.old).words }
    ensures values_after { values.new ≡ (unload_on words.old values.old).values }
{
    lent::number(mailbox_steps_words::unload(words, values))
}

// Gives a caller its word, and frees its place. One value: the word.
#[unsafe(no_mangle)]
pub extern "C" fn kpalumere_take(words: &mut [u64], values: &mut [u64], caller: u32) -> u64
    ensures value { result ≡ (take_on caller words.old values.old).number }
    ensures words_after { words.new ≡ (take_on caller words.old values.old).words }
    ensures values_after { values.new ≡ (take_on caller words.old values.old).values }
{
    lent::number(mailbox_words::take(words, values, caller))
}
