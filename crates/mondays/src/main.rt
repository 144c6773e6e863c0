// Reads the moves file from standard input once, in blocks, and prints for every 64 consecutive lines the sum of their moves and the
// greatest of them. The number of the first bad line ends it. A read or a write that fails is told on standard error, and nothing more is
// printed.
#![tactic(auto)]

ghost use Rattle.std.specs.Prelude.{◌≡◌, length, take};
ghost use Rattle.mondays.specs.Definitions.{takes_more, PrintedBlock, TakesTurn, ShowsAll};

use mondays_moves::Tally;
use program_arguments::Output;
use program_input::{Input, Stream};
use std::env::Env;
use std::io::Write;

// What came of printing a block: the tally after it, the length of its text, and whether all of it was written.
#[derive(Clone, Copy)]
struct ShownText {
    tally: Tally,
    len: usize,
    written: bool,
}

// How far the file was taken: the tally of its blocks, the input as far as it was read, and whether all that they print was written.
#[derive(Clone, Copy)]
struct Tallied {
    tally: Tally,
    input: Input,
    written: bool,
}

// Whether more is to be read.
fn is_going_on(tallied: Tallied) -> bool
    ensures { result ≡ takes_more tallied }
{
    if !tallied.written {
        return false;
    }
    if tallied.tally.refusal.code != 0 {
        return false;
    }
    tallied.input.is_open()
}

// Takes the first len bytes of a block and prints what they add.
fn print_block<W: Write>(
    output: &mut Output<W>,
    tally: Tally,
    block: &[u8; 32768],
    len: usize,
    out: &mut [u8; 98304],
) -> ShownText
    requires { length block.now ≡ 32768 }
    ensures { PrintedBlock tally (take len block.now) result.tally out.new result.len }
{
    let taken = tally.take(block, len, out);
    let written = output.write_all(&out[..taken.len]);
    ShownText {
        tally: taken.tally,
        len: taken.len,
        written,
    }
}

// Reads one block more and prints what it adds; nothing where reading was cut.
fn turn<W: Write>(
    stream: &mut Stream,
    output: &mut Output<W>,
    tallied: Tallied,
    block: &mut [u8; 32768],
    out: &mut [u8; 98304],
) -> Tallied
    ensures { TakesTurn tallied block.new out.new result }
{
    let filled = tallied.input.fill(stream, block);
    if filled.input.is_cut() {
        return Tallied {
            tally: tallied.tally,
            input: filled.input,
            written: true,
        };
    }
    let shown = print_block(output, tallied.tally, block, filled.len, out);
    Tallied {
        tally: shown.tally,
        input: filled.input,
        written: shown.written,
    }
}

// Prints block after block: to the end of the input, to a bad line, or until a read or a write fails.
fn print_all<W: Write>(
    stream: &mut Stream,
    output: &mut Output<W>,
    block: &mut [u8; 32768],
    out: &mut [u8; 98304],
) -> Tallied
    ensures { ShowsAll result }
{
    let mut tallied = Tallied {
        tally: Tally::start(),
        input: Input::start(),
        written: true,
    };
    while is_going_on(tallied) {
        tallied = turn(stream, output, tallied, block, out);
    }
    tallied
}

// Answers an argument.
fn tell<E: Env, O: Write, T: Write>(env: &E, output: &mut Output<O>, told: &mut Output<T>) {
    let help = b"\
        Usage: mondays < MOVES\n\
        \n\
        Reads a moves file from standard input and prints for every 64 consecutive\n\
        restarts how many moves they have together and how many the greatest of\n\
        them has, or the number of a refusal.\n\
        \n\
        --help     print this text\n\
        --version  print the version\n\
        \n\
        See mondays(1).\n";
    program_arguments::tell(env, output, told, b"mondays", help);
}

fn main(rt: HostRuntime) {
    let mut output = Output::new(rt.stdout());
    let mut told = Output::new(rt.stderr());
    if program_arguments::is_given(&rt) {
        tell(&rt, &mut output, &mut told);
        return;
    }
    let mut stream = Stream::new(rt.stdin());
    let mut block = [0u8; 32768];
    let mut out = [0u8; 98304];
    let tallied = print_all(&mut stream, &mut output, &mut block, &mut out);
    if tallied.input.is_cut() {
        program_arguments::fail(&mut told, b"mondays: standard input", stream.error());
        return;
    }
    if !tallied.written {
        program_arguments::fail(&mut told, b"mondays: standard output", output.error());
    }
}
