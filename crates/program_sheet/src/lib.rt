// What the program sheet prints of a run: its readiness sheet, or the number of a refusal, as text in lent bytes.
#![tactic(auto)]

ghost use Rattle.std.specs.Prelude.{◌≡◌};
ghost use Rattle.base_lent.specs.Definitions.{words_in};
ghost use Rattle.program_run.specs.Definitions.{progress_of, RightSettings};
ghost use Rattle.program_sheet.specs.Definitions.{SheetWrites};

use base_ids::Refusal;
use program_run::{Run, Stage};

// What a run prints whose blocks were all accepted.
fn print_ready(run: Run, desk: &[u8], out: &mut [u8]) -> usize
    requires { (run.stage ≡ Stage.Open) × RightSettings run }
    ensures { SheetWrites (progress_of run (words_in desk.now)) out.old out.new result }
{
    let n = run.words;
    let settings = run.settings;
    let state = run.state;
    let ready = state_readiness::readiness(&settings[0..n], state, desk, true);
    let refusal = ready.refusal;
    if refusal.code != 0 {
        return program_lines::number_line(out, refusal);
    }
    let rows = ready.rows;
    program_sheet_text::put_sheet(out, &rows, settings_values::nodes(&settings[0..n]))
}

// What a run prints after the last block: its sheet, or the number of a refusal.
pub fn print(run: Run, desk: &[u8], out: &mut [u8]) -> usize
    requires { RightSettings run }
    ensures { SheetWrites (progress_of run (words_in desk.now)) out.old out.new result }
{
    let stage = run.stage;
    match stage {
        Stage::Opening => program_lines::number_line(out, Refusal { code: 2 }),
        Stage::Open => print_ready(run, desk, out),
        Stage::Closed(refusal) => program_lines::number_line(out, refusal),
    }
}
