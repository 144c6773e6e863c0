// Reads settings and reports from standard input and prints the plan, the reason to wait, or the number of a refusal. Where standard input
// cannot be read to its end nothing is decided.
#![tactic(auto)]

ghost use Rattle.program_run.specs.Definitions.{Printed};
ghost use Rattle.program_reading.specs.Definitions.{Answers};

use program_arguments::Output;
use program_input::Stream;
use program_reading::Reply;
use std::env::Env;
use std::io::Write;

// The answer to the input, as text in lent bytes; none if the input was cut.
fn answer(stream: &mut Stream, out: &mut [u8; 8192]) -> Reply
    ensures { Answers Printed out.new result }
{
    let mut desk = [0u8; 65536];
    let intake = program_reading::read_run(stream, &mut desk);
    let input = intake.input;
    if input.is_cut() {
        return Reply { len: 0, input };
    }
    let run = intake.run;
    let len = run.print(&desk, out);
    Reply { len, input }
}

// Answers an argument.
fn tell<E: Env, O: Write, T: Write>(env: &E, output: &mut Output<O>, told: &mut Output<T>) {
    let help = b"\
        Usage: restart < INPUT\n\
        \n\
        Reads settings and the reports of the machines that are back from standard\n\
        input, decides how the replicated store restarts, and prints the plan, the\n\
        reason to wait or the number of a refusal.\n\
        \n\
        --help     print this text\n\
        --version  print the version\n\
        \n\
        See restart(1).\n";
    program_arguments::tell(env, output, told, b"restart", help);
}

fn main(rt: HostRuntime) {
    let mut output = Output::new(rt.stdout());
    let mut told = Output::new(rt.stderr());
    if program_arguments::is_given(&rt) {
        tell(&rt, &mut output, &mut told);
        return;
    }
    let mut stream = Stream::new(rt.stdin());
    let mut out = [0u8; 8192];
    let reply = answer(&mut stream, &mut out);
    let input = reply.input;
    if input.is_cut() {
        program_arguments::fail(&mut told, b"restart: standard input", stream.error());
        return;
    }
    let n = reply.len;
    if !output.write_all(&out[0..n]) {
        program_arguments::fail(&mut told, b"restart: standard output", output.error());
    }
}
