// Reads settings and reports from standard input as `restart` does and prints the readiness sheet: a line for every set of held nodes, then
// how many of them have a plan and how many each wait; or the number of a refusal. Where standard input cannot be read to its end nothing is
// printed.
#![tactic(auto)]

ghost use Rattle.program_reading.specs.Definitions.{Answers};
ghost use Rattle.program_sheet.specs.Definitions.{Sheeted};

use program_arguments::Output;
use program_input::Stream;
use program_reading::Reply;
use std::env::Env;
use std::io::Write;

// The sheet of the input, as text in lent bytes; none if the input was cut.
fn answer(stream: &mut Stream, out: &mut [u8; 32768]) -> Reply
    ensures { Answers Sheeted out.new result }
{
    let mut desk = [0u8; 65536];
    let intake = program_reading::read_run(stream, &mut desk);
    let input = intake.input;
    if input.is_cut() {
        return Reply { len: 0, input };
    }
    let run = intake.run;
    let len = program_sheet::print(run, &desk, out);
    Reply { len, input }
}

// Answers an argument.
fn tell<E: Env, O: Write, T: Write>(env: &E, output: &mut Output<O>, told: &mut Output<T>) {
    let help = b"\
        Usage: sheet < INPUT\n\
        \n\
        Reads settings of up to 10 machines and a report of each of them from\n\
        standard input, and prints for every set of these machines whether the\n\
        replicated store could restart with it, or the number of a refusal.\n\
        \n\
        --help     print this text\n\
        --version  print the version\n\
        \n\
        See sheet(1).\n";
    program_arguments::tell(env, output, told, b"sheet", help);
}

fn main(rt: HostRuntime) {
    let mut output = Output::new(rt.stdout());
    let mut told = Output::new(rt.stderr());
    if program_arguments::is_given(&rt) {
        tell(&rt, &mut output, &mut told);
        return;
    }
    let mut stream = Stream::new(rt.stdin());
    let mut out = [0u8; 32768];
    let reply = answer(&mut stream, &mut out);
    let input = reply.input;
    if input.is_cut() {
        program_arguments::fail(&mut told, b"sheet: standard input", stream.error());
        return;
    }
    let n = reply.len;
    if !output.write_all(&out[0..n]) {
        program_arguments::fail(&mut told, b"sheet: standard output", output.error());
    }
}
