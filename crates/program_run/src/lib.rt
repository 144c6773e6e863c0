// A run of the program restart: a stream of bytes gives settings, then reports; after its end the run decides, and what it prints
// is put into lent bytes.
#![tactic(auto)]

ghost use Rattle.std.specs.Prelude.{[], ◌≡◌, ◌-◌, length, take, drop};
ghost use Rattle.base_lent.specs.Definitions.{words_in};
ghost use Rattle.program_blocks.specs.Definitions.{whole_words, next_place, bytes_laid};
ghost use Rattle.program_run.specs.Definitions as Definitions;
ghost use Rattle.program_run.specs.Machine as Machine;

use base_ids::Refusal;
use state_planner::{Answer, State};

// How far a run has come.
#[derive(Clone, Copy)]
pub enum Stage {
    // no block has come
    Opening,
    // the settings are right, and every report so far was accepted
    Open,
    // a block was refused
    Closed(Refusal),
}

// A run. The bytes of the block that is coming in lie in lent memory, which the run is lent at each step.
#[derive(Clone, Copy)]
pub struct Run {
    pub stage: Stage,
    pub state: State,
    // the settings are the first `words` of these
    pub settings: [u32; 52],
    pub words: usize,
    // how many bytes of the next block have come in, its count included
    pub pending: usize,
}

fn closed(run: Run, refusal: Refusal) -> Run
    ensures { result ≡ Machine.closed_by run refusal }
{
    Run {
        stage: Stage::Closed(refusal),
        ..run
    }
}

// The first block: the settings.
fn begin(run: Run, block: &[u32]) -> Run
    requires { Definitions.RightSettings run }
    ensures { Machine.Opens run block.now result }
{
    if !settings_check::check(block) {
        return closed(run, Refusal { code: 2 });
    }
    Run {
        stage: Stage::Open,
        state: State::fresh(),
        settings: program_blocks::intake::padded(block),
        words: block.len(),
        ..run
    }
}

// A later block: a report.
fn report(run: Run, desk: &mut [u8], block: &[u32]) -> Run
    requires stage_value { (run.stage ≡ Stage.Open) × Definitions.RightSettings run }
    requires desk_len { length desk.old ≡ 65536 }
    ensures { Machine.TakesInBlock run (words_in desk.old) block.now result (words_in desk.new) }
{
    let n = run.words;
    let settings = run.settings;
    let state = run.state;
    let outcome = state.report_under(&settings[0..n], desk, block);
    let answer = outcome.answer;
    let next = outcome.state;
    match answer {
        Answer::Accepted => Run { state: next, ..run },
        Answer::Refused(refusal) => closed(run, refusal),
    }
}

// A block of words.
fn take_block(run: Run, desk: &mut [u8], block: &[u32]) -> Run
    requires right_settings { Definitions.RightSettings run }
    requires desk_len { length desk.old ≡ 65536 }
    ensures { Machine.TakesInBlock run (words_in desk.old) block.now result (words_in desk.new) }
{
    let stage = run.stage;
    match stage {
        Stage::Opening => begin(run, block),
        Stage::Open => report(run, desk, block),
        Stage::Closed(_) => run,
    }
}

// The block whose bytes below `end` have come in, cut short or not.
fn take_bytes(run: Run, desk: &mut [u8], bytes: &[u8], end: usize) -> Run
    requires comes { Machine.Comes run bytes.now end }
    requires desk_len { length desk.old ≡ 65536 }
    ensures { Machine.TakesInBlock (Machine.pending_bytes run 0) (words_in desk.old) (whole_words (take (end - 4) (drop 4 bytes.now))) result (words_in desk.new) }
{
    let block = program_blocks::intake::block_of(bytes, end);
    let len = block.len;
    let table = block.table;
    let mut next = run;
    next.pending = 0;
    take_block(next, desk, &table[0..len])
}

// The block whose bytes below `end` are there: it is taken where it is whole.
fn settle(run: Run, desk: &mut [u8], bytes: &[u8], end: usize) -> Run
    requires bytes_gathered { Machine.BytesGathered run bytes.now end }
    requires desk_len { length desk.old ≡ 65536 }
    ensures feeds { Definitions.Feeds (Machine.pending_bytes run end) (words_in desk.old) bytes.now [] result (words_in desk.new) bytes.now }
    ensures pending_value { result.pending ≡ next_place bytes.now end }
{
    if end < program_blocks::needed(&bytes[0..end]) {
        let mut waiting = run;
        waiting.pending = end;
        return waiting;
    }
    take_bytes(run, desk, bytes, end)
}

// What the decision prints.
fn print_decision(run: Run, desk: &[u8], out: &mut [u8]) -> usize
    requires { (run.stage ≡ Stage.Open) × Definitions.RightSettings run }
    ensures { Definitions.Writes (Definitions.progress_of run (words_in desk.now)) out.old out.new result }
{
    let n = run.words;
    let settings = run.settings;
    let state = run.state;
    let decided = state.decide(&settings[0..n], desk);
    let decision = decided.decision;
    let next = decided.state;
    program_lines::decision::decision_lines(out, &settings[0..n], decision, next.plan)
}

impl Run {
    // The run before any byte.
    pub fn start() -> Run
        ensures { result ≡ Definitions.started_run }
    {
        Run {
            stage: Stage::Opening,
            state: State::fresh(),
            settings: [0u32; 52],
            words: 0,
            pending: 0,
        }
    }

    // Whether nothing that follows matters any more.
    pub fn is_closed(self) -> bool
        ensures { result ≡ Definitions.closed_at self.stage }
    {
        matches!(self.stage, Stage::Closed(_))
    }

    // Bytes of the input.
    pub fn feed(self, desk: &mut [u8], bytes: &mut [u8], fed: &[u8]) -> Run
        requires ready_run { Definitions.ReadyRun self bytes.old }
        requires desk_len { length desk.old ≡ 65536 }
        ensures feeds { Definitions.Feeds self (words_in desk.old) bytes.old fed.now result (words_in desk.new) bytes.new }
        ensures bytes_after { bytes.new ≡ bytes_laid self.pending bytes.old fed.now }
    {
        let mut run = self;
        let mut i = 0;
        while i < fed.len() {
            let at = run.pending;
            let end = program_blocks::intake::gather(bytes, at, fed, i);
            run = settle(run, desk, bytes, end);
            i += end - at;
        }
        run
    }

    // The end of the input: a block cut short is its whole words.
    pub fn close(self, desk: &mut [u8], bytes: &[u8]) -> Run
        requires ready_run { Definitions.ReadyRun self bytes.now }
        requires desk_len { length desk.old ≡ 65536 }
        ensures { Definitions.Closes self (words_in desk.old) bytes.now result (words_in desk.new) }
    {
        let end = self.pending;
        if end < 4 {
            return self;
        }
        take_bytes(self, desk, bytes, end)
    }

    // What the run prints after the last block.
    pub fn print(self, desk: &[u8], out: &mut [u8]) -> usize
        requires { Definitions.RightSettings self }
        ensures { Definitions.Writes (Definitions.progress_of self (words_in desk.now)) out.old out.new result }
    {
        let stage = self.stage;
        match stage {
            Stage::Opening => program_lines::number_line(out, Refusal { code: 2 }),
            Stage::Open => print_decision(self, desk, out),
            Stage::Closed(refusal) => program_lines::number_line(out, refusal),
        }
    }
}
