// The calls on lent bytes for settings and messages. Lent bytes are little-endian words.
#![tactic(auto)]

pub mod flat;

ghost use Rattle.std.specs.Prelude.{◌≡◌, ◌≤◌, length};
ghost use Rattle.base_bytes.specs.Definitions.{bytes_of};
ghost use Rattle.base_lent.specs.Definitions.{words_in, with_length};
ghost use Rattle.message_format.specs.Messages.{reading_of, as_read, writing_of, as_written, buffer_after};
ghost use Rattle.c_messages.specs.Definitions.{check_answer, contents_words, read_answer, read_leaves, record_count, contents_in, write_answer, write_leaves};
ghost use Rattle.c_messages.specs.WriteCalls.{contents_within};

use base_ids::{Node, Refusal, View};
use message_format::{Contents, Form};

// 0 where the settings are right, else 2.
pub fn check_settings(settings: &[u8]) -> u32
    ensures { result ≡ check_answer settings.now }
{
    let s = base_lent::settings_of(settings);
    let n = s.len;
    let words = s.table;
    if !settings_check::check(&words[0..n]) {
        return 2;
    }
    0
}

// Reads a message lent as bytes.
fn read_lent(form: Form, settings: &[u8], message: &[u8]) -> Result<Contents, Refusal>
    ensures { result ≡ as_read (reading_of form (words_in settings.now) (words_in message.now)) }
{
    let s = base_lent::settings_of(settings);
    let n = s.len;
    let own = s.table;
    let m = base_lent::words_of(512, message);
    let len = m.len;
    let words = m.table;
    message_reader::read(form, &own[0..n], &words[0..len])
}

// Contents as words: node, view, members, then the records' words, then zeros.
fn lay_out(c: &Contents) -> [u32; 512]
    ensures { result ≡ contents_words c.now }
{
    let mut words = [0u32; 512];
    words[0] = c.node.0;
    words[1] = c.view.0;
    words[2] = c.members;
    for k in 0..381 {
        words[k + 3] = c.body[k];
    }
    words
}

// Stores 512 words in as many lent bytes, and answers how many of them say something.
fn give(words: &[u32; 512], count: usize, bytes: &mut [u8]) -> u32
    requires { (count ≤ 512) × (length bytes.old ≡ 2048) }
    ensures { (result ≡ with_length count) × (bytes.new ≡ bytes_of words.now) }
{
    base_bytes::encode(words, bytes);
    base_lent::with_length(count)
}

// Reads a message into lent contents: rows 1 (the contents are not 2048 bytes), 2 and 5 to 11.
pub fn read_into(form: Form, settings: &[u8], message: &[u8], contents: &mut [u8]) -> u32
    ensures answer { result ≡ read_answer form settings.now message.now contents.old }
    ensures bytes { contents.new ≡ read_leaves form settings.now message.now contents.old }
{
    if contents.len() != 2048 {
        return 1;
    }
    match read_lent(form, settings, message) {
        Ok(c) => give(&lay_out(&c), 3 + 3 * c.len, contents),
        Err(refusal) => refusal.code,
    }
}

// How many records so many words of contents are.
fn record_count(words: usize) -> usize
    ensures { result ≡ record_count words }
{
    if words < 3 {
        return 128;
    }
    if words % 3 != 0 {
        return 128;
    }
    words / 3 - 1
}

// The contents whose words stand in a table, of which n were lent.
fn contents_in(table: &[u32; 512], n: usize) -> Contents
    ensures { result ≡ contents_in table.now n }
{
    let mut body = [0u32; 381];
    for k in 0..381 {
        body[k] = table[k + 3];
    }
    Contents {
        node: Node(table[0]),
        view: View(table[1]),
        members: table[2],
        len: record_count(n),
        body,
    }
}

// The contents lent as bytes.
fn contents_lent(bytes: &[u8]) -> Contents
    ensures { result ≡ contents_within bytes.now }
{
    let l = base_lent::words_of(384, bytes);
    let n = l.len;
    contents_in(&l.table, n)
}

// Writes a message into 512 words, under settings lent as bytes.
fn write_under(
    form: Form,
    settings: &[u8],
    c: &Contents,
    words: &mut [u32],
) -> Result<usize, Refusal>
    ensures answer { result ≡ as_written (writing_of form (words_in settings.now) c.now words.old) }
    ensures words { words.new ≡ buffer_after form (words_in settings.now) c.now words.old }
{
    let s = base_lent::settings_of(settings);
    let n = s.len;
    let own = s.table;
    message_writer::write(form, &own[0..n], c, words)
}

// Writes a message into a lent buffer: rows 1 (the buffer is not 2048 bytes), 2, 5 (the contents' length is wrong, or they have more
// than 127 records), 6, 7 and 9 to 11.
pub fn write_into(form: Form, settings: &[u8], contents: &[u8], buffer: &mut [u8]) -> u32
    ensures answer { result ≡ write_answer form settings.now contents.now buffer.old }
    ensures bytes { buffer.new ≡ write_leaves form settings.now contents.now buffer.old }
{
    if buffer.len() != 2048 {
        return 1;
    }
    let c = contents_lent(contents);
    let mut words = [0u32; 512];
    match write_under(form, settings, &c, &mut words) {
        Ok(length) => give(&words, length, buffer),
        Err(refusal) => refusal.code,
    }
}
