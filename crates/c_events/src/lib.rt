// The fresh state, the check of a state, and drop, fetched and prepared, over lent bytes.
#![tactic(auto)]

pub mod decide;
pub mod game;
pub mod order;
pub mod page;
pub mod preview;
pub mod report;

ghost use Rattle.std.specs.Prelude.{◌≡◌, length};
ghost use Rattle.base_lent.specs.Definitions.{words_in};
ghost use Rattle.settings_values.specs.Definitions.{Settings};
ghost use Rattle.c_events.specs.Definitions as Definitions;

use base_ids::Node;
use state_planner::{Outcome, State};

// An event that names a node.
#[derive(Clone, Copy)]
pub enum Event {
    Drop,
    Fetched,
    Prepared,
}

// Stores the fresh state: row 15, and row 3 where the bytes are not 640.
pub fn fresh(role: u32, state: &mut [u8]) -> u32
    ensures answer { result ≡ Definitions.fresh_answer role state.old }
    ensures bytes { state.new ≡ Definitions.fresh_leaves role state.old }
{
    if !c_state::by_planner(role) {
        return 15;
    }
    if state.len() != 640 {
        return 3;
    }
    c_state::store(State::fresh(), state);
    0
}

// The outcome of an event, where rows 1 and 2 do not refuse.
fn outcome(event: Event, x: State, settings: &[u32], desk: &[u8], node: u32) -> Outcome
    requires settings { Settings settings.now }
    requires desk_len { length desk.now ≡ 65536 }
    ensures { result ≡ Definitions.happened event settings.now x (words_in desk.now) node }
{
    match event {
        Event::Drop => x.drop_under(settings, desk, Node(node)),
        Event::Fetched => x.fetched_under(settings, desk, Node(node)),
        Event::Prepared => x.prepared_under(settings, desk, Node(node)),
    }
}

// An event that names a node: rows 1, 2, 15, 3, 4, 6 and 14.
pub fn take(
    role: u32,
    event: Event,
    settings: &[u8],
    state: &mut [u8],
    desk: &[u8],
    node: u32,
) -> u32
    ensures answer { result ≡ Definitions.take_answer role event settings.now state.old desk.now node }
    ensures bytes { state.new ≡ Definitions.take_leaves role event settings.now state.old desk.now node }
{
    let entry = c_state::enter_planner(role, desk.len() == 65536, settings, state);
    let refusal = entry.refusal;
    if refusal.code != 0 {
        return refusal.code;
    }
    let n = entry.words;
    let own = entry.settings;
    let o = outcome(event, entry.state, &own[0..n], desk, node);
    c_state::keep(o, state)
}

// Whether the bytes are a state that is sound with this desk: rows 1, 2, 15 and 3.
pub fn check_state(role: u32, settings: &[u8], state: &[u8], desk: &[u8]) -> u32
    ensures { result ≡ Definitions.check_state_answer role settings.now state.now desk.now }
{
    let lent = c_state::enter_planner(role, desk.len() == 65536, settings, state);
    let refusal = lent.refusal;
    if refusal.code != 0 {
        return refusal.code;
    }
    let n = lent.words;
    let own = lent.settings;
    match State::check_under(lent.state, &own[0..n], desk) {
        Ok(_) => 0,
        Err(refusal) => refusal.code,
    }
}
