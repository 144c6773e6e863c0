// The argument of a program: --version and --help are answered on standard output, any other word is told on standard error. The first
// argument decides, and no other is looked at. And how a program writes: all that it has, or it tells why not.
#![tactic(auto)]

ghost use Rattle.std.specs.Prelude.{◌≡◌, ◌≤◌, true, false, length, None, MatchResult};
ghost use Rattle.std.specs.Bool.{OnTrue};
ghost use Rattle.std.specs.Io.KnownBytes.{Appends};
ghost use Rattle.program_text.specs.Definitions.{Puts};
ghost use Rattle.program_arguments.specs.Definitions.{told_line, is_known, answer_text};

use std::env::{Env, FillError};
use std::io::{Error, Write};
use std::write;

// What is written to, and why the last write to it that failed did.
#[derive(Drop)]
pub struct Output<W: Write> {
    writer: W,
    error: Option<Error>,
}

impl<W: Write> Output<W> {
    // A writer of which no write has failed.
    pub fn new(writer: W) -> Output<W>
        ensures writer { result.writer ≡ writer }
        ensures error { result.error ≡ None }
    {
        Output {
            writer,
            error: None,
        }
    }

    // Why the last write that failed did; none if no write has.
    pub fn error(&self) -> Option<Error>
        ensures { result ≡ self.now.error }
    {
        self.error
    }

    // Writes all bytes, or stops at the first write that takes nothing or fails. Whether all were written.
    pub fn write_all(&mut self, bytes: &[u8]) -> bool
        ensures { OnTrue result (Appends (W.contents self.old.writer) (W.contents self.new.writer) bytes.now) }
    {
        let mut done = 0;
        while done < bytes.len() {
            match self.writer.write(&bytes[done..]) {
                Ok(n) => {
                    if n == 0 {
                        return false;
                    }
                    done += n;
                }
                Err(error) => {
                    self.error = Some(error);
                    return false;
                }
            }
        }
        true
    }
}

// A line in lent bytes: the program's name, a label and a text.
fn put_told(out: &mut [u8], name: &[u8], label: &[u8], text: &[u8]) -> usize
    ensures { Puts out.old 0 (told_line name.now label.now text.now) out.new result }
{
    let first = program_text::put_text(out, 0, name);
    let second = program_text::put_text(out, first, label);
    let third = program_text::put_text(out, second, text);
    program_text::put_byte(out, third, b'\n')
}

// The answer to a word, in lent bytes: the length of its text, of a word that no program knows as an error.
fn answer(
    out: &mut [u8],
    word: &[u8],
    name: &[u8],
    version: &[u8],
    help: &[u8],
) -> Result<usize, usize>
    ensures { MatchResult result
        (λ len. (is_known word.now ≡ true) × Puts out.old 0 (answer_text word.now name.now version.now help.now) out.new len)
        (λ len. (is_known word.now ≡ false) × Puts out.old 0 (answer_text word.now name.now version.now help.now) out.new len) }
{
    if word == b"--version".as_slice() {
        return Ok(put_told(out, name, b" ", version));
    }
    if word == b"--help".as_slice() {
        return Ok(program_text::put_text(out, 0, help));
    }
    Err(put_told(out, name, b": unknown argument, see --help: ", word))
}

// Where the number of an error of the system begins in its text: it is not told.
fn reason_len(text: &[u8]) -> usize
    ensures { result ≤ length text.now }
{
    let mark = b" (os error ";
    text.windows(mark.len())
        .position(|part| part == mark.as_slice())
        .unwrap_or(text.len())
}

// The text of an error in lent bytes, as the system tells it.
fn put_reason(out: &mut [u8], error: Error) -> usize
    ensures { result ≤ length out.new }
{
    let room = out.len();
    let mut rest = &mut out[0..];
    let _ = write!(rest, "{error}");
    let len = room.saturating_sub(rest.len());
    reason_len(&out[0..len])
}

// Tells on standard error what failed and why.
pub fn fail<W: Write>(told: &mut Output<W>, what: &[u8], error: Option<Error>) {
    let mut reason = [0u8; 256];
    // without an error of the system its text is that of none: a write took nothing, or no read more could be counted
    let error = error.unwrap_or(Error::from_raw_os_error(0));
    let n = put_reason(&mut reason, error);
    let mut line = [0u8; 512];
    let len = put_told(&mut line, what, b": ", &reason[0..n]);
    told.write_all(&line[0..len]);
}

// Tells that standard output cannot be written.
fn fail_output<W: Write>(told: &mut Output<W>, name: &[u8], error: Option<Error>) {
    let mut out = [0u8; 64];
    let next = program_text::put_text(&mut out, 0, name);
    let len = program_text::put_text(&mut out, next, b": standard output");
    fail(told, &out[0..len], error);
}

// Whether the program was given an argument.
pub fn is_given<E: Env>(env: &E) -> bool {
    let mut word = [0u8; 1];
    match env.arg(1, &mut word) {
        Err(FillError::NotPresent) => false,
        _ => true,
    }
}

// The first argument, in lent bytes; nothing where it does not fit.
fn first_argument<E: Env>(env: &E, word: &mut [u8]) -> usize
    ensures { result ≤ length word.new }
{
    match env.arg(1, word) {
        Ok(n) => n,
        Err(_) => 0,
    }
}

// Answers the program's first argument. The version is that of include/restart.h.
pub fn tell<E: Env, O: Write, T: Write>(
    env: &E,
    output: &mut Output<O>,
    told: &mut Output<T>,
    name: &[u8],
    help: &[u8],
) {
    let mut word = [0u8; 256];
    let n = first_argument(env, &mut word);
    let mut out = [0u8; 2048];
    match answer(&mut out, &word[0..n], name, b"0.6.0", help) {
        Ok(len) => {
            if !output.write_all(&out[0..len]) {
                fail_output(told, name, output.error());
            }
        }
        Err(len) => {
            told.write_all(&out[0..len]);
        }
    }
}
