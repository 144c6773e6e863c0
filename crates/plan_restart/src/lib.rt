// The core of decide: from the settings, what is kept and the held reports to a plan, or to the reason why there is none yet.
#![tactic(auto)]

pub mod rounds;

ghost use Rattle.std.specs.Prelude.{◌≡◌, ◌^◌, ◌<◌, ◌≤◌};
ghost use Rattle.settings_values.specs.Definitions.{nodes, Settings};
ghost use Rattle.report_views.specs.Definitions.{no_view, no_plan};
ghost use Rattle.plan_restart.specs.Answers.{verdict_from};
ghost use Rattle.plan_restart.specs.Planning as Planning;

use base_ids::{Node, View};
use place_layout::Placed;
use plan_seen::Seen;
use report_views::{Layout, Plan, Quorum, Reason};

// What the held reports allow, as definitions have it; calls give a Result. Met: the plan is there. Short: the first reason why there is
// none, wait 5 among them, and no plan.
#[derive(Clone, Copy)]
pub struct Verdict {
    pub quorum: Quorum,
    pub plan: Plan,
}

// No view: number 0, and nothing else.
pub fn no_view() -> Layout
    ensures { result ≡ no_view }
{
    Layout {
        number: View(0),
        members: 0,
        masks: [0u32; 16],
    }
}

// No plan: every entry is zero.
pub fn no_plan() -> Plan
    ensures { result ≡ no_plan }
{
    let nobody = Node(0);
    Plan {
        layout: no_view(),
        total: 0,
        holders: [nobody; 16],
        targets: report_views::no_positions(),
    }
}

// The plan: the view after the kept one, with all held nodes, their placement, and the holders and targets that are seen.
fn plan_by(kept: Layout, held: u32, seen: Seen, placed: Placed) -> Plan
    requires { kept.number.0 ≤ 4294967294 }
    ensures { result ≡ Planning.plan_by kept held seen placed }
{
    let number = kept.number;
    let masks = placed.masks;
    let holders = seen.holders;
    let targets = seen.targets;
    Plan {
        layout: Layout {
            number: View(number.0 + 1),
            members: held,
            masks,
        },
        total: placed.total,
        holders,
        targets,
    }
}

// The plan if every subgroup is placed, else wait 5.
pub fn verdict_by(kept: Layout, held: u32, seen: Seen, placed: Placed) -> Result<Plan, Reason>
    requires { kept.number.0 ≤ 4294967294 }
    ensures { verdict_from result ≡ Planning.verdict_by kept held seen placed }
{
    if !placed.found {
        return Err(Reason::NoPlacement(placed.group));
    }
    Ok(plan_by(kept, held, seen, placed))
}

// A plan for the held nodes, or the first reason why there is none, by what is seen.
pub fn restart(settings: &[u32], kept: Layout, held: u32, seen: Seen) -> Result<Plan, Reason>
    requires settings { Settings settings.now }
    requires number_bound { kept.number.0 ≤ 4294967294 }
    requires held_bound { held < 2 ^ nodes settings.now }
    ensures { Planning.RestartsBy settings.now kept held seen (verdict_from result) }
{
    let holders = seen.holders;
    plan_quorum::quorum(settings, kept, held, holders)?;
    let old = kept.masks;
    let placed = place_layout::place(settings, held, &old);
    verdict_by(kept, held, seen, placed)
}
