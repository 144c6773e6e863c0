// Decide, and decide with improving rounds, over lent bytes.
ghost use Rattle.std.specs.Prelude.{◌≡◌, ◌≤◌, length};
ghost use Rattle.base_lent.specs.Definitions.{wait_word};
ghost use Rattle.report_views.specs.Definitions.{number_of, value_of};
ghost use Rattle.c_events.specs.Definitions as Definitions;
ghost use Rattle.c_events.specs.Decisions as Decisions;

use report_views::Reason;
use state_planner::{Decided, DecidedWithin, Decision, State};

// A wait as an answer.
fn wait_word(reason: u32, value: u32) -> u32
    requires { (reason ≤ 5) × (value ≤ 16) }
    ensures { result ≡ wait_word reason value }
{
    50331648 + 256 * reason + value
}

// A wait by its reason.
pub fn reason_word(reason: Reason) -> u32
    requires { value_of reason ≤ 16 }
    ensures { result ≡ wait_word (number_of reason) (value_of reason) }
{
    match reason {
        Reason::NoView => wait_word(1, 0),
        Reason::NoMajority => wait_word(2, 0),
        Reason::TooFew => wait_word(3, 0),
        Reason::NoHolder(shard) => wait_word(4, shard.0),
        Reason::NoPlacement(group) => wait_word(5, group),
    }
}

// The answer to a decision; the state is stored where a plan was made.
fn keep(o: Decided, state: &mut [u8]) -> u32
    requires { (length state.old ≡ 640) × (Decisions.decision_value o.decision ≤ 16) }
    ensures { (result ≡ Definitions.decision_word o.decision) × (state.new ≡ Definitions.decision_leaves o.decision o.state state.old) }
{
    let decision = o.decision;
    match decision {
        Decision::Planned => {
            c_state::store(o.state, state);
            33554432
        }
        Decision::Wait(reason) => reason_word(reason),
        Decision::Refused(refusal) => refusal.code,
    }
}

// Plans a restart, or says why there is none: rows 1, 2, 15, 3 and 4.
pub fn decide(role: u32, settings: &[u8], state: &mut [u8], desk: &[u8]) -> u32
    ensures { Definitions.DecideCall role settings.now state.old desk.now result state.new }
{
    let entry = c_state::enter_planner(role, desk.len() == 65536, settings, state);
    let refusal = entry.refusal;
    if refusal.code != 0 {
        return refusal.code;
    }
    let n = entry.words;
    let own = entry.settings;
    let o = State::decide_under(entry.state, &own[0..n], desk);
    keep(o, state)
}

// The answer to a decision of rounds, with the gap of a plan; the state is stored where a plan was made.
fn keep_within(o: DecidedWithin, state: &mut [u8]) -> u32
    requires { (length state.old ≡ 640) × ((Decisions.decision_value o.decision ≤ 16) × (o.gap ≤ 128)) }
    ensures { (result ≡ Definitions.within_word o.decision o.gap) × (state.new ≡ Definitions.decision_leaves o.decision o.state state.old) }
{
    let decision = o.decision;
    match decision {
        Decision::Planned => {
            c_state::store(o.state, state);
            o.gap + 33554432
        }
        Decision::Wait(reason) => reason_word(reason),
        Decision::Refused(refusal) => refusal.code,
    }
}

// Plans a restart by so many improving rounds, or says why there is none: rows 1, 2, 15, 3 and 4.
pub fn decide_within(role: u32, settings: &[u8], state: &mut [u8], desk: &[u8], rounds: u32) -> u32
    ensures { Definitions.WithinCall role settings.now state.old desk.now rounds result state.new }
{
    let whole = desk.len() == 65536;
    let entry = c_state::enter_planner(role, whole, settings, state);
    let refusal = entry.refusal;
    let code = refusal.code;
    if code != 0 {
        return code;
    }
    let n = entry.words;
    let own = entry.settings;
    let o = State::decide_within_under(entry.state, &own[0..n], desk, rounds);
    keep_within(o, state)
}
