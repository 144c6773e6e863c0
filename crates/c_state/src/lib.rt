// The planner's state lent as bytes: what every C call over it does first and last.
#![tactic(auto)]

ghost use Rattle.std.specs.Prelude.{◌&&◌, ◌≡◌, eqb, length};
ghost use Rattle.base_bytes.specs.Definitions.{bytes_of};
ghost use Rattle.base_lent.specs.Definitions.{words_in};
ghost use Rattle.base_lent.specs.Answers.{Told};
ghost use Rattle.base_laws.specs.Options.{some_if};
ghost use Rattle.c_state_words.specs.Definitions.{state_words, is_state};
ghost use Rattle.base_ids.specs.Definitions.{none, unless};
ghost use Rattle.c_state.specs.Definitions.{by_planner, state_lent, refusal_of};
ghost use Rattle.c_state.specs.Calls.{entry};

use base_ids::Refusal;
use state_planner::{Answer, Outcome, State};

// What a call finds before its event: a refusal, the state, and the settings' words, which are the first of the table.
#[derive(Clone, Copy)]
pub struct CallFinds {
    pub refusal: Refusal,
    pub state: State,
    pub settings: [u32; 52],
    pub words: usize,
}

// The lengths of desk and buffer in bytes are right.
pub fn lengths_ok(desk: usize, buffer: usize) -> bool
    ensures { result ≡ (eqb desk 65536 && eqb buffer 2048) }
{
    if desk != 65536 {
        return false;
    }
    buffer == 2048
}

// The state that lent bytes say.
fn decode_state(bytes: &[u8]) -> Option<State>
    ensures { result ≡ some_if (is_state (words_in bytes.now)) (state_lent bytes.now) }
{
    if bytes.len() != 640 {
        return None;
    }
    let mut words = [0u32; 160];
    base_bytes::decode(bytes, &mut words);
    c_state_words::decode(&words)
}

// Row 1 by the lengths, row 2 by the settings, row 15 by the role, and row 3 where the bytes are no state.
fn entry_refusal(lengths: bool, right: bool, allowed: bool, ok: bool) -> Refusal
    ensures { result ≡ unless lengths 1 (unless right 2 (unless allowed 15 (unless ok 3 none))) }
{
    if !lengths {
        return Refusal { code: 1 };
    }
    if !right {
        return Refusal { code: 2 };
    }
    if !allowed {
        return Refusal { code: 15 };
    }
    if !ok {
        return Refusal { code: 3 };
    }
    Refusal { code: 0 }
}

// What a call does first, given whether its role may ask it and whether desk and buffer have their lengths.
pub fn enter(allowed: bool, lengths: bool, settings: &[u8], state: &[u8]) -> CallFinds
    ensures { result ≡ entry allowed lengths settings.now state.now }
{
    let own = base_lent::settings_of(settings);
    let words = own.len;
    let table = own.table;
    let right = settings_check::check(&table[0..words]);
    let lent = decode_state(state);
    let refusal = entry_refusal(lengths, right, allowed, lent.is_some());
    CallFinds {
        refusal,
        state: lent.unwrap_or(State::fresh()),
        settings: table,
        words,
    }
}

// Whether a word is the planner's role, to whom every operation is allowed.
pub fn by_planner(role: u32) -> bool
    ensures { result ≡ by_planner role }
{
    base_roles::may_plan(base_roles::role_of(role))
}

// The same for an operation: only the planner may ask it.
pub fn enter_planner(role: u32, lengths: bool, settings: &[u8], state: &[u8]) -> CallFinds
    ensures { result ≡ entry (by_planner role) lengths settings.now state.now }
{
    enter(by_planner(role), lengths, settings, state)
}

// Stores a state in lent bytes.
pub fn store(x: State, state: &mut [u8])
    requires { length state.old ≡ 640 }
    ensures { state.new ≡ bytes_of (state_words x) }
{
    let words = c_state_words::encode(x);
    base_bytes::encode(&words, state);
}

// The refusal that an answer holds.
fn refusal_of(answer: Answer) -> Refusal
    ensures { result ≡ refusal_of answer }
{
    match answer {
        Answer::Accepted => Refusal { code: 0 },
        Answer::Refused(refusal) => refusal,
    }
}

// What a call does last: the next state is stored unless the event was refused.
pub fn keep(o: Outcome, state: &mut [u8]) -> u32
    requires { length state.old ≡ 640 }
    ensures { Told (refusal_of o.answer) 0 (bytes_of (state_words o.state)) state.old result state.new }
{
    let answer = o.answer;
    let refusal = refusal_of(answer);
    if refusal.code != 0 {
        return refusal.code;
    }
    store(o.state, state);
    0
}
