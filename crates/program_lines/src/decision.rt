// What a decision prints, as text in lent bytes.
ghost use Rattle.std.specs.Prelude.{◌≡◌};
ghost use Rattle.settings_values.specs.Definitions.{Settings};
ghost use Rattle.program_lines.specs.Decisions.{PutsDecision};

use report_views::Plan;
use state_planner::Decision;

// The lines of a decision, whose plan stands beside it.
pub fn decision_lines(out: &mut [u8], settings: &[u32], decision: Decision, plan: Plan) -> usize
    requires { decision ≡ Decision.Planned → Settings settings.now }
    ensures { PutsDecision settings.now decision plan out.old out.new result }
{
    match decision {
        Decision::Planned => {
            let shards = settings_values::shards(settings);
            crate::plan_lines(out, plan, shards as usize)
        }
        Decision::Wait(reason) => crate::wait_line(out, reason),
        Decision::Refused(refusal) => crate::number_line(out, refusal),
    }
}
