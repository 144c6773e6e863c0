// Reads a message: its length (row 5), its chain (row 8) and what the records on the chain say.
#![tactic(auto)]

ghost use Rattle.std.specs.Prelude.{true, false, ◌≡◌, ◌<◌, ◌≤◌};
ghost use Rattle.base_ids.specs.Definitions.{accepted, index_in, or_refusal};
ghost use Rattle.message_format.specs.Definitions.{place, following, row5, row8, contents_of};
ghost use Rattle.message_format.specs.Messages.{reading_of, as_read};
ghost use Rattle.message_format.specs.Placing.{placed_by};
ghost use Rattle.message_reader.specs.Walks.{SizedMessage, chain_refusal};
ghost use Rattle.message_reader.specs.Bodies.{record_put};
ghost use Rattle.message_reader.specs.Readings.{head_of, reading_under};
ghost use Rattle.settings_values.specs.Definitions.{Settings};

use base_ids::{Node, Refusal, View};
use message_chain::Record;
use message_format::{Contents, Form};

// Row 5: 1 to 128 records of four words.
fn length_ok(words: &[u32]) -> bool
    ensures { result ≡ row5 words.now }
{
    if words.len() < 1 {
        return false;
    }
    if 512 < words.len() {
        return false;
    }
    words.len() % 4 == 0
}

// Row 8: each next index on the chain is larger than its own record's and lies inside the message, or is 0. A refusal
// tells the first record of which this fails.
fn chain_refusal(words: &[u32]) -> Result<(), Refusal>
    requires { SizedMessage words.now }
    ensures { result ≡ or_refusal (chain_refusal words.now) tt }
{
    let mut at: usize = 0;
    loop {
        let step = message_chain::step_from(words, at);
        let next = step.next;
        if next == 0 {
            return Ok(());
        }
        if next <= at {
            return Err(message_contents::told_at(8, at));
        }
        if words.len() / 4 <= next {
            return Err(message_contents::told_at(8, at));
        }
        at = next;
    }
}

// The index of the record so many steps along the chain.
fn place_of(words: &[u32], steps: usize) -> usize
    ensures { result ≡ place words.now steps }
{
    let mut at: usize = 0;
    for j in 0..steps {
        let step = message_chain::step_from(words, at);
        at = step.next;
    }
    at
}

// A refusal of the records on the chain, told at the index of its record instead of its step along the chain.
fn placed(words: &[u32], refusal: Refusal) -> Refusal
    requires sized_message { SizedMessage words.now }
    requires words_value { row8 words.now ≡ true }
    requires refused { accepted refusal ≡ false }
    requires refusal_bound { index_in refusal ≤ following words.now }
    ensures { result ≡ placed_by (place words.now) refusal }
{
    let at = place_of(words, base_ids::wide(refusal.code / 256));
    message_contents::told_at(refusal.code % 256, at)
}

// Stores a record as record j of the body.
fn store(body: &mut [u32; 381], j: usize, r: Record)
    requires { j < 127 }
    ensures { body.new ≡ record_put body.old j r }
{
    body[3 * j] = r.word0;
    body[3 * j + 1] = r.word1;
    body[3 * j + 2] = r.word2;
}

// What the head and the records that follow it on the chain say.
pub fn contents_of(words: &[u32]) -> Contents
    requires sized_message { SizedMessage words.now }
    requires words_value { row8 words.now ≡ true }
    ensures { result ≡ contents_of words.now }
{
    let mut body = [0u32; 381];
    let mut len: usize = 0;
    let first = message_chain::step_from(words, 0);
    let head = first.reached;
    let mut at = first.next;
    while at != 0 {
        let found = message_chain::step_from(words, at);
        store(&mut body, len, found.reached);
        len += 1;
        at = found.next;
    }
    Contents {
        node: Node(head.word0),
        view: View(head.word1),
        members: head.word2,
        len,
        body,
    }
}

// Rows 6 and 7 of a message's head.
fn head_of(form: Form, settings: &[u32], words: &[u32]) -> Result<(), Refusal>
    requires settings { Settings settings.now }
    requires sized_message { SizedMessage words.now }
    ensures { result ≡ or_refusal (head_of form settings.now words.now) tt }
{
    let first = message_chain::step_from(words, 0);
    let head = first.reached;
    message_contents::head_refusal(
        form,
        settings,
        Node(head.word0),
        View(head.word1),
        head.word2,
    )
}

// The rows of a message, and what it says where they pass.
pub fn read_under(form: Form, settings: &[u32], words: &[u32]) -> Result<Contents, Refusal>
    requires { Settings settings.now }
    ensures { result ≡ as_read (reading_under form settings.now words.now) }
{
    if !length_ok(words) {
        return Err(Refusal { code: 5 });
    }
    head_of(form, settings, words)?;
    chain_refusal(words)?;
    let c = contents_of(words);
    match message_contents::records_refusal(form, settings, &c) {
        Ok(()) => Ok(c),
        Err(refusal) => Err(placed(words, refusal)),
    }
}

// Reads a report or an order: row 2 and those of a message.
pub fn read(form: Form, settings: &[u32], words: &[u32]) -> Result<Contents, Refusal>
    ensures { result ≡ as_read (reading_of form settings.now words.now) }
{
    if !settings_check::check(settings) {
        return Err(Refusal { code: 2 });
    }
    read_under(form, settings, words)
}
