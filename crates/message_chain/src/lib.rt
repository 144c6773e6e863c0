// The chain of a message's records: a reader that holds the words and the index reached gives the record there, and the reader after it.
#![tactic(auto)]

ghost use Rattle.std.specs.Prelude.{◌≡◌};
ghost use Rattle.message_format.specs.Definitions.{next};
ghost use Rattle.message_chain.specs.Steps.{record_at, step_from};

// A reader of records: the message's words, and the index of the record reached.
#[derive(Clone, Copy)]
pub struct Reader<'a> {
    pub words: &'a [u32],
    pub at: usize,
}

// A record without its next index.
#[derive(Clone, Copy)]
pub struct Record {
    pub word0: u32,
    pub word1: u32,
    pub word2: u32,
}

// A step along the chain: the record reached, and the index of the reader after it. 0 ends the chain.
#[derive(Clone, Copy)]
pub struct Step {
    pub reached: Record,
    pub next: usize,
}

// Record i; zeros where the message has no such record.
fn record_at(words: &[u32], i: usize) -> Record
    ensures { result ≡ record_at words.now i }
{
    if i < words.len() / 4 {
        return Record {
            word0: words[4 * i],
            word1: words[4 * i + 1],
            word2: words[4 * i + 2],
        };
    }
    Record {
        word0: 0,
        word1: 0,
        word2: 0,
    }
}

// The next index that record i names; 0 where the message has no such record.
fn named_by(words: &[u32], i: usize) -> usize
    ensures { result ≡ next words.now i }
{
    if i < words.len() / 4 {
        return base_ids::wide(words[4 * i + 3]);
    }
    0
}

// A record and the index after it.
fn joined(reached: Record, next: usize) -> Step
    ensures { (result.reached ≡ reached) × (result.next ≡ next) }
{
    Step { reached, next }
}

// A reader that has reached a record.
pub fn reader_at<'a>(words: &'a [u32], at: usize) -> Reader<'a>
    ensures { (result.words ≡ words.entry) × (result.at ≡ at) }
{
    Reader { words, at }
}

// The record reached.
pub fn reached<'a>(r: Reader<'a>) -> Record
    ensures { result ≡ record_at r.entry.words.now r.entry.at }
{
    record_at(r.words, r.at)
}

// The reader after it; at index 0 the chain has ended.
pub fn onward<'a>(r: Reader<'a>) -> Reader<'a>
    ensures { (result.words ≡ r.entry.words) × (result.at ≡ next r.entry.words.now r.entry.at) }
{
    Reader {
        words: r.words,
        at: named_by(r.words, r.at),
    }
}

// One step of a reader from a record.
pub fn step_from(words: &[u32], at: usize) -> Step
    ensures { result ≡ step_from words.now at }
{
    let r = reader_at(words, at);
    let record = reached(r);
    let after = onward(r);
    joined(record, after.at)
}
