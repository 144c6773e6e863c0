// The writer: the contents of a report or an order as a message in 512 lent words, the records one after another, then zeros.
#![tactic(auto)]

ghost use Rattle.std.specs.Prelude.{◌≡◌, ◌≤◌, ◌<◌, length};
ghost use Rattle.base_ids.specs.Definitions.{or_refusal};
ghost use Rattle.message_format.specs.Definitions.{record_word, message_word, message_length, message_of};
ghost use Rattle.message_format.specs.Messages.{write_refusal, writing_of, as_written, buffer_after};

use base_ids::Refusal;
use message_format::{Contents, Form};

// Word p below 3 of record i: the head's, or one of the body's.
fn record_word(c: &Contents, i: usize, p: usize) -> u32
    requires { (i ≤ 127) × (p < 3) }
    ensures { result ≡ record_word c.now i p }
{
    if i == 0 {
        if p == 0 {
            return c.node.0;
        }
        if p == 1 {
            return c.view.0;
        }
        return c.members;
    }
    c.body[3 * (i - 1) + p]
}

// Word k of the message.
fn word(c: &Contents, k: usize) -> u32
    requires { c.now.len ≤ 127 }
    ensures { result ≡ message_word c.now k }
{
    let i = k / 4;
    let p = k % 4;
    if c.len < i {
        return 0;
    }
    if p < 3 {
        return record_word(c, i, p);
    }
    if i < c.len {
        return (i + 1) as u32;
    }
    0
}

// The message of contents that are known to pass, and zeros after it: its length. Nothing is judged.
pub fn fill(buffer: &mut [u32], c: &Contents) -> usize
    requires { (length buffer.old ≡ 512) × (c.now.len ≤ 127) }
    ensures answer { result ≡ message_length c.now }
    ensures words { buffer.new ≡ message_of c.now 512 }
{
    for k in 0..512 {
        buffer[k] = word(c, k);
    }
    4 * (c.len + 1)
}

// Why the writer refuses: rows 1, 2 and those of the contents.
fn write_refusal(form: Form, settings: &[u32], c: &Contents, buffer: &[u32]) -> Result<(), Refusal>
    ensures { result ≡ or_refusal (write_refusal form settings.now c.now buffer.now) tt }
{
    if buffer.len() != 512 {
        return Err(Refusal { code: 1 });
    }
    if !settings_check::check(settings) {
        return Err(Refusal { code: 2 });
    }
    message_contents::contents_refusal(form, settings, c)
}

// Writes the message of the contents c into 512 lent words, and answers its length; a refusal leaves the words as they were.
pub fn write(
    form: Form,
    settings: &[u32],
    c: &Contents,
    buffer: &mut [u32],
) -> Result<usize, Refusal>
    ensures answer { result ≡ as_written (writing_of form settings.now c.now buffer.old) }
    ensures words { buffer.new ≡ buffer_after form settings.now c.now buffer.old }
{
    write_refusal(form, settings, c, buffer)?;
    Ok(fill(buffer, c))
}
