// Standard input, as far as it was read: the one way in which the programs read. The fields of an Input are its own: only `start`, `read` and
// `fill` make one, so whoever holds an Input that is at its end, or that failed, has read.
#![tactic(auto)]

ghost use Rattle.std.specs.Prelude.{◌≡◌, ◌≤◌, ◌<◌, length, take, None};
ghost use Rattle.program_input.specs.Definitions.{unread, after_bytes, after_failure, may_come, is_cut, read_to, most, most_counted, ReadsOn, Fills};

use std::io::{Error, ErrorKind, Read, Stdin};

// What may still come.
#[derive(Clone, Copy)]
pub enum Source {
    // more may come
    Open,
    // a read gave nothing: the input is at its end
    Over,
    // a read failed
    Failed,
    // more than can be counted came
    Endless,
}

// Standard input: how many bytes came in all and their sum, how many reads were made, and how many bytes the last of them gave.
#[derive(Clone, Copy)]
pub struct Input {
    total: u64,
    sum: u64,
    reads: u64,
    got: usize,
    source: Source,
}

// What came of filling a block: the input after it, and how many bytes of the block are filled.
#[derive(Clone, Copy)]
pub struct FilledInput {
    pub input: Input,
    pub len: usize,
}

// Standard input, and why the last read of it that failed did.
#[derive(Drop)]
pub struct Stream {
    reader: Stdin,
    error: Option<Error>,
}

impl Stream {
    // Standard input before a read of it has failed.
    pub fn new(reader: Stdin) -> Stream
        ensures reader { result.reader ≡ reader }
        ensures error { result.error ≡ None }
    {
        Stream {
            reader,
            error: None,
        }
    }

    // Why the last read that failed did; none if no read has.
    pub fn error(&self) -> Option<Error>
        ensures { result ≡ self.now.error }
    {
        self.error
    }
}

// Bytes, their sum and reads are counted so far: one read more fits.
const MOST: u64 = 18446744069414584320;

// What may come after a read that gave n bytes.
fn after_bytes(n: usize) -> Source
    ensures { result ≡ after_bytes n }
{
    if n == 0 {
        return Source::Over;
    }
    Source::Open
}

// What may come after a read that failed. One that a signal interrupted before a byte came is tried again.
fn after_failure(interrupted: bool) -> Source
    ensures { result ≡ after_failure interrupted }
{
    if interrupted {
        return Source::Open;
    }
    Source::Failed
}

// The input after one read more, which gave these bytes.
fn read_to(x: Input, bytes: &[u8], source: Source) -> Input
    requires { (most_counted x ≤ most) × (length bytes.now ≤ 32768) }
    ensures { result ≡ read_to x bytes.now source }
{
    let sum = u64::from(program_sums::sum_of(bytes));
    Input {
        total: x.total + bytes.len() as u64,
        sum: x.sum + sum,
        reads: x.reads + 1,
        got: bytes.len(),
        source,
    }
}

impl Input {
    // Standard input before the first read.
    pub fn start() -> Input
        ensures { result ≡ unread }
    {
        Input {
            total: 0,
            sum: 0,
            reads: 0,
            got: 0,
            source: Source::Open,
        }
    }

    // Whether more may come.
    pub fn is_open(self) -> bool
        ensures { result ≡ may_come self.source }
    {
        matches!(self.source, Source::Open)
    }

    // Whether reading ended before the input did.
    pub fn is_cut(self) -> bool
        ensures { result ≡ is_cut self.source }
    {
        matches!(self.source, Source::Failed | Source::Endless)
    }

    // How many bytes the last read put at the start of its buffer.
    pub fn got(self) -> usize
        ensures { result ≡ self.got }
    {
        self.got
    }

    // Reads once more.
    pub fn read(self, stream: &mut Stream, buffer: &mut [u8]) -> Input
        requires { (0 < length buffer.old) × (length buffer.old ≤ 32768) }
        ensures got_in_bounds { result.got ≤ length buffer.new }
        ensures reads_on { ReadsOn self (take result.got buffer.new) result }
    {
        if MOST < self.total.max(self.sum.max(self.reads)) {
            return Input {
                source: Source::Endless,
                got: 0,
                ..self
            };
        }
        match stream.reader.read(buffer) {
            Ok(n) => read_to(self, &buffer[0..n], after_bytes(n)),
            Err(error) => {
                let interrupted = error.kind() == ErrorKind::Interrupted;
                stream.error = Some(error);
                read_to(self, &buffer[0..0], after_failure(interrupted))
            }
        }
    }

    // Reads until the block is full, the input is at its end or reading was cut.
    pub fn fill(self, stream: &mut Stream, block: &mut [u8]) -> FilledInput
        requires { (0 < length block.old) × (length block.old ≤ 32768) }
        ensures { Fills self block.new result.input result.len }
    {
        let mut input = self;
        let mut len = 0;
        while input.is_open() && len < block.len() {
            input = input.read(stream, &mut block[len..]);
            len += input.got();
        }
        FilledInput { input, len }
    }
}
