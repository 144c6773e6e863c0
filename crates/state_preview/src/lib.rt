// What if this machine goes too: the answer that decide would give without a held node, and the held nodes whose loss means waiting.
// Neither state nor desk changes.
#![tactic(auto)]

ghost use Rattle.std.specs.Prelude.{◌≡◌, length};
ghost use Rattle.base_lent.specs.Definitions.{words_in};
ghost use Rattle.base_ids.specs.declared.Refusal.{Refusal};
ghost use Rattle.base_ids.specs.Definitions.{or_refusal};
ghost use Rattle.settings_values.specs.Definitions.{Settings};
ghost use Rattle.state_planner.specs.Definitions as Definitions;
ghost use Rattle.state_planner.specs.Refusing.{call_refusal};
ghost use Rattle.state_planner.specs.Definitions.{still};
ghost use Rattle.state_preview.specs.Definitions.{Previews, Warns};
ghost use Rattle.state_preview.specs.Steps.{FirstFound, handed_back};

use base_ids::{Node, Refusal};
use state_planner::{Decided, Decision, State};

// What the preview of all held nodes hands back: beside a refusal no node, else those whose loss means waiting.
#[derive(Clone, Copy)]
pub struct Warning {
    pub refusal: Refusal,
    pub lost: u32,
}

// Rows 1 and 2.
fn call_refusal(settings: &[u32], desk: &[u8]) -> Refusal
    ensures { result ≡ call_refusal settings.now (words_in desk.now) }
{
    if desk.len() != 65536 {
        return Refusal { code: 1 };
    }
    if !settings_check::check(settings) {
        return Refusal { code: 2 };
    }
    Refusal { code: 0 }
}

// The state as it was, beside a refusal.
fn refuse(x: State, refusal: Refusal) -> Decided
    ensures { result ≡ still x (Decision.Refused refusal) }
{
    Decided {
        state: x,
        decision: Decision::Refused(refusal),
    }
}

// A copy of the state with other held nodes.
fn holding(x: State, held: u32) -> State
    ensures { result ≡ Definitions.holding x held }
{
    State { held, ..x }
}

// A preview, where rows 1 and 2 do not refuse, as far as its refusal does not lie with the other held nodes. While gathering a state
// is sound just where it is so with the node alone held and with the others alone held.
fn check_first(
    settings: &[u32],
    x: State,
    desk: &[u8],
    node: Node,
    fewer: u32,
) -> Result<(), Refusal>
    requires settings { Settings settings.now }
    requires desk_len { length desk.now ≡ 65536 }
    ensures { (k : Refusal) × ((result ≡ or_refusal k tt) × FirstFound settings.now x (words_in desk.now) node.0 fewer k) }
{
    let phase = x.phase;
    let in_phase = state_rows::is_gathering(phase);
    let known = base_masks::has(x.held, node.0 as usize);
    if !in_phase {
        return state_planner::check_event(settings, x, desk, in_phase, node, known);
    }
    if !known {
        return state_planner::check_event(settings, x, desk, in_phase, node, known);
    }
    State::check_under(holding(x, base_masks::minus(x.held, fewer)), settings, desk)
}

// What the copy decided; where it is refused, the state itself and not its copy.
fn hand_back(x: State, decided: Decided) -> Decided
    ensures { result ≡ handed_back decided.decision x decided }
{
    let decision = decided.decision;
    match decision {
        Decision::Planned => decided,
        Decision::Wait(_) => decided,
        Decision::Refused(refusal) => refuse(x, refusal),
    }
}

// What decide would give without a held node, where rows 1 and 2 do not refuse.
pub fn preview_under(x: State, settings: &[u32], desk: &[u8], node: Node) -> Decided
    requires settings { Settings settings.now }
    requires desk_len { length desk.now ≡ 65536 }
    ensures { Previews settings.now x (words_in desk.now) node.0 result }
{
    let fewer = base_masks::without(x.held, node.0 as usize);
    match check_first(settings, x, desk, node, fewer) {
        Ok(_) => hand_back(x, State::decide_under(holding(x, fewer), settings, desk)),
        Err(refusal) => refuse(x, refusal),
    }
}

// What decide would give without a held node: the node is dropped in a copy of the state, and the copy decides.
pub fn preview(x: State, settings: &[u32], desk: &[u8], node: Node) -> Decided
    ensures { Previews settings.now x (words_in desk.now) node.0 result }
{
    let first = call_refusal(settings, desk);
    if first.code != 0 {
        return refuse(x, first);
    }
    preview_under(x, settings, desk, node)
}

// The held nodes whose loss means waiting, where rows 1 and 2 do not refuse.
pub fn preview_all_under(x: State, settings: &[u32], desk: &[u8]) -> Warning
    requires settings { Settings settings.now }
    requires desk_len { length desk.now ≡ 65536 }
    ensures { Warns settings.now x (words_in desk.now) result }
{
    let phase = x.phase;
    let in_phase = state_rows::is_gathering(phase);
    let entry = state_planner::enter(settings, x, desk, in_phase);
    let rows = entry.rows;
    match rows {
        Ok(_) => {
            let counted = plan_masks::count(settings, x.kept, x.termination, x.held, desk);
            let masks = counted.unwrap();
            Warning {
                refusal: Refusal { code: 0 },
                lost: plan_losses::losses(settings, x.kept, x.held, &masks),
            }
        }
        Err(refusal) => Warning { refusal, lost: 0 },
    }
}

// The held nodes whose loss means waiting, each by itself.
pub fn preview_all(x: State, settings: &[u32], desk: &[u8]) -> Warning
    ensures { Warns settings.now x (words_in desk.now) result }
{
    let first = call_refusal(settings, desk);
    if first.code != 0 {
        return Warning {
            refusal: first,
            lost: 0,
        };
    }
    preview_all_under(x, settings, desk)
}
