// Readiness: the number that decide would give for every set of held nodes, in settings of up to ten nodes. Neither state nor desk changes.
#![tactic(auto)]

ghost use Rattle.std.specs.Prelude.{◌-◌, ◌^◌, ◌≤◌, ◌&&◌, ◌≡◌, leb, length};
ghost use Rattle.base_lent.specs.Definitions.{words_in};
ghost use Rattle.settings_values.specs.Definitions.{nodes, Settings};
ghost use Rattle.state_readiness.specs.Definitions.{slots_refusal, desk_says, ReadiesAs, Readies};
ghost use Rattle.state_readiness.specs.Readying.{not_ready};

use base_ids::Refusal;
use state_planner::State;

// The row of each mask of held nodes. Beside a refusal they are zeros.
#[derive(Clone, Copy)]
pub struct ReadyRows {
    pub refusal: Refusal,
    pub rows: [u8; 1024],
}

// A refusal, and no rows.
fn refuse(refusal: Refusal) -> ReadyRows
    ensures { result ≡ not_ready refusal }
{
    ReadyRows {
        refusal,
        rows: [0u8; 1024],
    }
}

// Row 22: at most ten nodes, and what else was given is in its limits.
fn is_small(settings: &[u32], in_limits: bool) -> bool
    requires { Settings settings.now }
    ensures { result ≡ (leb (nodes settings.now) 10 && in_limits) }
{
    if settings_values::nodes(settings) > 10 {
        return false;
    }
    in_limits
}

// The mask of all nodes.
fn all_nodes(count: u32) -> u32
    requires { count ≤ 10 }
    ensures { result ≡ 2 ^ count - 1 }
{
    (1u32 << count) - 1
}

// Row 23, a kept view and every node's slot sound, and then the rows.
fn rows_ready(settings: &[u32], x: State, desk: &[u8]) -> ReadyRows
    requires settings { Settings settings.now × (nodes settings.now ≤ 10) }
    requires desk_len { length desk.now ≡ 65536 }
    ensures { ReadiesAs (slots_refusal settings.now x (words_in desk.now)) settings.now (desk_says settings.now x (words_in desk.now)) result }
{
    let kept = x.kept;
    let number = kept.number;
    if number.0 == 0 {
        return refuse(Refusal { code: 23 });
    }
    let all = all_nodes(settings_values::nodes(settings));
    let Some(masks) = plan_masks::count(settings, kept, x.termination, all, desk) else {
        return refuse(Refusal { code: 23 });
    };
    ReadyRows {
        refusal: Refusal { code: 0 },
        rows: plan_masks::rows::rows_of(settings, kept, &masks),
    }
}

// The rows, where rows 1 and 2 do not refuse: rows 3, 4, 22 and 23.
pub fn readiness_under(settings: &[u32], x: State, desk: &[u8], in_limits: bool) -> ReadyRows
    requires settings { Settings settings.now }
    requires desk_len { length desk.now ≡ 65536 }
    ensures { Readies in_limits settings.now x (words_in desk.now) result }
{
    let phase = x.phase;
    let in_phase = state_rows::is_gathering(phase);
    let entry = state_planner::enter(settings, x, desk, in_phase);
    let rows = entry.rows;
    match rows {
        Ok(_) => {
            if !is_small(settings, in_limits) {
                return refuse(Refusal { code: 22 });
            }
            rows_ready(settings, x, desk)
        }
        Err(refusal) => refuse(refusal),
    }
}

// The rows: what decide would answer for each mask of held nodes, each node being remembered at its report's view.
pub fn readiness(settings: &[u32], x: State, desk: &[u8], in_limits: bool) -> ReadyRows
    ensures { Readies in_limits settings.now x (words_in desk.now) result }
{
    if desk.len() != 65536 {
        return refuse(Refusal { code: 1 });
    }
    if !settings_check::check(settings) {
        return refuse(Refusal { code: 2 });
    }
    readiness_under(settings, x, desk, in_limits)
}
