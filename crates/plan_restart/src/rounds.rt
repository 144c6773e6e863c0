// A plan now: from the settings, what is kept and the held reports to a plan that so many improving rounds reach, or to the reason why there
// is none yet.
ghost use Rattle.std.specs.Prelude.{◌^◌, ◌<◌, ◌≤◌};
ghost use Rattle.settings_values.specs.Definitions.{nodes, Settings};
ghost use Rattle.plan_restart.specs.Answers.{offered_from};
ghost use Rattle.plan_restart.specs.Offering.{OffersBy};

use crate::Verdict;
use plan_seen::Seen;
use report_views::{Layout, Plan, Reason};

// What the held reports allow with rounds, as definitions have it; calls give a Result. A verdict, and the gap of its plan; beside a wait
// there is no gap.
#[derive(Clone, Copy)]
pub struct Offered {
    pub verdict: Verdict,
    pub gap: u32,
}

// A plan that rounds reach, and its gap.
#[derive(Clone, Copy)]
pub struct GappedPlan {
    pub plan: Plan,
    pub gap: u32,
}

// A plan for the held nodes that so many rounds reach, or the first reason why there is none, by what is seen.
pub fn offer(
    settings: &[u32],
    kept: Layout,
    held: u32,
    seen: Seen,
    rounds: u32,
) -> Result<GappedPlan, Reason>
    requires settings { Settings settings.now }
    requires number_bound { kept.number.0 ≤ 4294967294 }
    requires held_bound { held < 2 ^ nodes settings.now }
    ensures { OffersBy settings.now kept held seen rounds (offered_from result) }
{
    let holders = seen.holders;
    plan_quorum::quorum(settings, kept, held, holders)?;
    let old = kept.masks;
    let within = place_rounds::improve(settings, held, &old, rounds);
    let placed = within.placed;
    let plan = crate::verdict_by(kept, held, seen, placed)?;
    Ok(GappedPlan {
        plan,
        gap: within.gap,
    })
}
