// The calls that turn a flat report of the former seller into a report and a report into a flat one. Lent bytes are little-endian words.
ghost use Rattle.std.specs.Prelude.{◌≡◌};
ghost use Rattle.base_ids.specs.Definitions.{or_refusal};
ghost use Rattle.base_lent.specs.Definitions.{words_in};
ghost use Rattle.message_format.specs.Messages.{as_written};
ghost use Rattle.c_messages.specs.Definitions.{from_flat_answer, from_flat_leaves, to_flat_answer, to_flat_leaves};
ghost use Rattle.c_messages.specs.Turning.{flat_rows, turning_of, turned_words, back_of, back_words};

use base_ids::Refusal;
use message_format::Form;

// Rows 1 (the words are not 512), 2, 19, 20 and 21.
fn flat_rows(settings: &[u32], flat: &[u8], words: &[u32]) -> Result<(), Refusal>
    ensures { result ≡ or_refusal (flat_rows settings.now (words_in flat.now) words.now) tt }
{
    if words.len() != 512 {
        return Err(Refusal { code: 1 });
    }
    if !settings_check::check(settings) {
        return Err(Refusal { code: 2 });
    }
    message_flat::from_flat::flat_refusal(flat)
}

// Turns a flat report into ours in 512 words.
fn turn(settings: &[u32], flat: &[u8], words: &mut [u32]) -> Result<usize, Refusal>
    ensures answer { result ≡ as_written (turning_of settings.now (words_in flat.now) words.old) }
    ensures words { words.new ≡ turned_words settings.now (words_in flat.now) words.old }
{
    flat_rows(settings, flat, words)?;
    let c = message_flat::from_flat::contents_from(flat);
    message_writer::write(Form::Report, settings, &c, words)
}

// The same under settings lent as bytes.
fn turn_under(settings: &[u8], flat: &[u8], words: &mut [u32]) -> Result<usize, Refusal>
    ensures answer { result ≡ as_written (turning_of (words_in settings.now) (words_in flat.now) words.old) }
    ensures words { words.new ≡ turned_words (words_in settings.now) (words_in flat.now) words.old }
{
    let s = base_lent::settings_of(settings);
    turn(&s.table[0..s.len], flat, words)
}

// Turns a report into a flat one in 512 words: rows 1, 2 and 5 to 11.
fn turn_back(settings: &[u32], message: &[u32], words: &mut [u32]) -> Result<usize, Refusal>
    ensures answer { result ≡ as_written (back_of settings.now message.now words.old) }
    ensures words { words.new ≡ back_words settings.now message.now words.old }
{
    if words.len() != 512 {
        return Err(Refusal { code: 1 });
    }
    let c = message_reader::read(Form::Report, settings, message)?;
    Ok(message_flat::to_flat::write(settings, &c, words))
}

// The same with settings and message lent as bytes.
fn turn_back_lent(settings: &[u8], message: &[u8], words: &mut [u32]) -> Result<usize, Refusal>
    ensures answer { result ≡ as_written (back_of (words_in settings.now) (words_in message.now) words.old) }
    ensures words { words.new ≡ back_words (words_in settings.now) (words_in message.now) words.old }
{
    let s = base_lent::settings_of(settings);
    let n = s.len;
    let own = s.table;
    let m = base_lent::words_of(512, message);
    let len = m.len;
    let table = m.table;
    turn_back(&own[0..n], &table[0..len], words)
}

// Turns a flat report into ours in a lent buffer: rows 1 (the buffer is not 2048 bytes), 2, 19, 20, 21, 6, 7, 16, 17, 10 and 11.
pub fn from_flat(settings: &[u8], flat: &[u8], buffer: &mut [u8]) -> u32
    ensures answer { result ≡ from_flat_answer settings.now flat.now buffer.old }
    ensures bytes { buffer.new ≡ from_flat_leaves settings.now flat.now buffer.old }
{
    if buffer.len() != 2048 {
        return 1;
    }
    let mut words = [0u32; 512];
    match turn_under(settings, flat, &mut words) {
        Ok(length) => crate::give(&words, length, buffer),
        Err(refusal) => refusal.code,
    }
}

// Turns a report into a flat one in a lent buffer: rows 1 (the buffer is not 2048 bytes), 2 and 5 to 11.
pub fn to_flat(settings: &[u8], message: &[u8], buffer: &mut [u8]) -> u32
    ensures answer { result ≡ to_flat_answer settings.now message.now buffer.old }
    ensures bytes { buffer.new ≡ to_flat_leaves settings.now message.now buffer.old }
{
    if buffer.len() != 2048 {
        return 1;
    }
    let mut words = [0u32; 512];
    match turn_back_lent(settings, message, &mut words) {
        Ok(length) => crate::give(&words, length, buffer),
        Err(refusal) => refusal.code,
    }
}
