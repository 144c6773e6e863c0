// Reading for the programs that take settings and reports: what standard input gives is fed to a run.
#![tactic(auto)]

ghost use Rattle.std.specs.Prelude.{◌≡◌, ◌≤◌, length, take};
ghost use Rattle.base_lent.specs.Definitions.{words_in};
ghost use Rattle.program_run.specs.Definitions.{ReadyRun, Feeds};
ghost use Rattle.program_reading.specs.Definitions.{goes_on, ReadsMore, ReadsAll};
ghost use Rattle.program_reading.specs.Reading.{ReadsRun};

use program_input::{Input, Stream};
use program_run::Run;

// The run to which the input has led, and the input as far as it was read.
#[derive(Clone, Copy)]
pub struct Intake {
    pub run: Run,
    pub input: Input,
}

// What is to be printed: its length, and the input that it answers.
#[derive(Clone, Copy)]
pub struct Reply {
    pub len: usize,
    pub input: Input,
}

// Whether more is to be read.
fn is_going_on(intake: Intake) -> bool
    ensures { result ≡ goes_on intake.input.source intake.run.stage }
{
    if intake.run.is_closed() {
        return false;
    }
    intake.input.is_open()
}

// The run, fed with the first n bytes of a buffer.
fn fed(run: Run, desk: &mut [u8], bytes: &mut [u8], buffer: &[u8], n: usize) -> Run
    requires ready_run { ReadyRun run bytes.old × (n ≤ length buffer.now) }
    requires desk_len { length desk.old ≡ 65536 }
    ensures { Feeds run (words_in desk.old) bytes.old (take n buffer.now) result (words_in desk.new) bytes.new }
{
    run.feed(desk, bytes, &buffer[0..n])
}

// One read more, and what it put into the buffer is fed to the run.
fn turn(
    stream: &mut Stream,
    intake: Intake,
    desk: &mut [u8],
    bytes: &mut [u8],
    buffer: &mut [u8; 4096],
) -> Intake
    requires ready_run { ReadyRun intake.run bytes.old }
    requires desk_len { length desk.old ≡ 65536 }
    ensures { ReadsMore intake (words_in desk.old) bytes.old (take result.input.got buffer.new) result (words_in desk.new) bytes.new }
{
    let input = intake.input;
    let next = input.read(stream, buffer);
    let n = next.got();
    let run = intake.run;
    Intake {
        run: fed(run, desk, bytes, buffer, n),
        input: next,
    }
}

// Feeds a run with the input: to its end, to a read that fails, or until the run is closed.
fn read_all(stream: &mut Stream, desk: &mut [u8], bytes: &mut [u8]) -> Intake
    requires bytes_len { length bytes.old ≡ 2056 }
    requires desk_len { length desk.old ≡ 65536 }
    ensures { ReadsAll (words_in desk.old) bytes.old result (words_in desk.new) bytes.new }
{
    let mut intake = Intake {
        run: Run::start(),
        input: Input::start(),
    };
    let mut buffer = [0u8; 4096];
    while is_going_on(intake) {
        intake = turn(stream, intake, desk, bytes, &mut buffer);
    }
    intake
}

// The run to which the whole input leads; where the input was cut, as far as it was read.
pub fn read_run(stream: &mut Stream, desk: &mut [u8]) -> Intake
    requires { length desk.old ≡ 65536 }
    ensures { ReadsRun (words_in desk.old) result (words_in desk.new) }
{
    let mut bytes = [0u8; 2056];
    let intake = read_all(stream, desk, &mut bytes);
    let input = intake.input;
    if input.is_cut() {
        return intake;
    }
    let run = intake.run;
    Intake {
        run: run.close(desk, &bytes),
        input,
    }
}
