// The planner: its state, and the events that lead from state to state.
#![tactic(auto)]

ghost use Rattle.std.specs.Prelude.{List, ◌≡◌, ℕ, ◌<◌, length};
ghost use Rattle.base_laws.specs.Definitions.{with};
ghost use Rattle.base_ids.specs.Definitions.{or_refusal};
ghost use Rattle.base_lent.specs.Definitions.{words_in};
ghost use Rattle.settings_values.specs.Definitions.{Settings};
ghost use Rattle.message_format.specs.Definitions.{contents_of};
ghost use Rattle.report_rows.specs.Definitions.{noted};
ghost use Rattle.report_walk.specs.Kept.{ready_of, TablesOf};
ghost use Rattle.plan_seen.specs.Sight.{seen_of};
ghost use Rattle.plan_restart.specs.Answers.{verdict_from, offered_from};
ghost use Rattle.state_planner.specs.Definitions as Definitions;
ghost use Rattle.state_planner.specs.Refusing as Refusing;
ghost use Rattle.state_planner.specs.Events as Events;
ghost use Rattle.state_planner.specs.Decide as Decide;
ghost use Rattle.state_planner.specs.DecideWithin as DecideWithin;

use base_ids::{Node, Refusal};
use plan_restart::rounds::GappedPlan;
use plan_seen::Seen;
use report_kept::Received;
use report_rows::latest::Latest;
use report_views::{Layout, Phase, Plan, Reason, Termination};
use report_walk::Tables;

// The planner's state: the phase, the kept view and its termination, the masks of held, fetched and prepared nodes, the plan, and each
// node's greatest reported view.
#[derive(Clone, Copy)]
pub struct State {
    pub phase: Phase,
    pub kept: Layout,
    pub termination: Termination,
    pub held: u32,
    pub fetched: u32,
    pub prepared: u32,
    pub plan: Plan,
    pub latest: Latest,
}

// The answer to report, drop, fetched and prepared.
#[derive(Clone, Copy)]
pub enum Answer {
    Accepted,
    Refused(Refusal),
}

// The answer to decide. The plan itself stands in the state.
#[derive(Clone, Copy)]
pub enum Decision {
    Planned,
    Wait(Reason),
    Refused(Refusal),
}

// What report, drop, fetched and prepared hand back.
#[derive(Clone, Copy)]
pub struct Outcome {
    pub state: State,
    pub answer: Answer,
}

// What decide hands back.
#[derive(Clone, Copy)]
pub struct Decided {
    pub state: State,
    pub decision: Decision,
}

// What decide with improving rounds hands back; no gap beside a wait or a refusal.
#[derive(Clone, Copy)]
pub struct DecidedWithin {
    pub state: State,
    pub decision: Decision,
    pub gap: u32,
}

// What the desk tells, and what slots and messages are compared with.
#[derive(Clone, Copy)]
pub struct Sighted {
    pub seen: Seen,
    pub tables: Tables,
}

// What an event finds first: whether rows 3 and 4 refuse it, and beside a refusal too what it has seen.
#[derive(Clone, Copy)]
pub struct EventFinds {
    pub rows: Result<(), Refusal>,
    pub sighted: Sighted,
}

// Rows 1 and 2.
fn check_call(settings: &[u32], desk: &[u8]) -> Result<(), Refusal>
    ensures { result ≡ or_refusal (Refusing.call_refusal settings.now (words_in desk.now)) tt }
{
    if desk.len() != 65536 {
        return Err(Refusal { code: 1 });
    }
    if !settings_check::check(settings) {
        return Err(Refusal { code: 2 });
    }
    Ok(())
}

// Row 3: the state is sound, by what is seen. ready: whether the kept view and its termination pass rows 7, 10 and 11.
fn is_sound(settings: &[u32], x: State, seen: Seen, ready: bool) -> bool
    requires settings { Settings settings.now }
    requires ready_value { ready ≡ ready_of settings.now x.kept x.termination }
    ensures { (d : List ℕ) → seen ≡ seen_of settings.now x.kept x.termination x.held d → result ≡ Definitions.sound settings.now x d }
{
    let kept = x.kept;
    if !state_rows::sound_parts::kept_sound(settings, kept, x.termination, x.held, ready) {
        return false;
    }
    if !seen.ok {
        return false;
    }
    let phase = x.phase;
    if !state_rows::sound_parts::marks_sound(phase, x.held, x.fetched, x.prepared) {
        return false;
    }
    let views = seen.views;
    if !report_rows::latest::latest_sound(settings, kept.number, x.held, views, x.latest) {
        return false;
    }
    state_rows::sound_plan::plan_fits(phase, settings, kept, x.held, seen, x.plan)
}

// Rows 3 and 4, and what the desk tells, where rows 1 and 2 do not refuse.
pub fn enter(settings: &[u32], x: State, desk: &[u8], in_phase: bool) -> EventFinds
    requires settings { Settings settings.now }
    requires desk_len { length desk.now ≡ 65536 }
    ensures rows { result.rows ≡ or_refusal (Definitions.entry_refusal (Definitions.desk_ok (words_in desk.now)) settings.now x (words_in desk.now) in_phase) tt }
    ensures seen { result.sighted.seen ≡ seen_of settings.now x.kept x.termination x.held (words_in desk.now) }
    ensures tables { TablesOf settings.now x.kept x.termination result.sighted.tables }
{
    let tables = report_walk::tables_of(settings, x.kept, x.termination);
    let seen = plan_seen::see(settings, x.kept, x.termination, tables, x.held, desk);
    let sighted = Sighted { seen, tables };
    let frame = tables.frame;
    if !is_sound(settings, x, seen, frame.ready) {
        return EventFinds {
            rows: Err(Refusal { code: 3 }),
            sighted,
        };
    }
    if !in_phase {
        return EventFinds {
            rows: Err(Refusal { code: 4 }),
            sighted,
        };
    }
    EventFinds {
        rows: Ok(()),
        sighted,
    }
}

// An event that names a node, where rows 1 and 2 do not refuse: rows 3, 4, 6 and 14.
pub fn check_event(
    settings: &[u32],
    x: State,
    desk: &[u8],
    in_phase: bool,
    node: Node,
    ok: bool,
) -> Result<(), Refusal>
    requires settings { Settings settings.now }
    requires desk_len { length desk.now ≡ 65536 }
    ensures { result ≡ or_refusal (Definitions.event_refusal (Definitions.desk_ok (words_in desk.now)) settings.now x (words_in desk.now) in_phase node.0 ok) tt }
{
    let entry = enter(settings, x, desk, in_phase);
    let rows = entry.rows;
    rows?;
    state_rows::check_node(settings, node, ok)
}

// What an event hands back: the next state, or beside a refusal the state as it was.
fn handed_back(x: State, next: Result<State, Refusal>) -> Outcome
    ensures { result ≡ Events.outcome_by x next }
{
    match next {
        Ok(state) => Outcome {
            state,
            answer: Answer::Accepted,
        },
        Err(refusal) => Outcome {
            state: x,
            answer: Answer::Refused(refusal),
        },
    }
}

// Gathering anew: the kept view, its termination and the views that nodes have reported remain.
fn restarted(x: State) -> State
    ensures { result ≡ Definitions.restarted x }
{
    State {
        phase: Phase::Gathering,
        held: 0,
        fetched: 0,
        prepared: 0,
        plan: plan_restart::no_plan(),
        ..x
    }
}

// The node that reports is held, what is kept is renewed, and its view is remembered.
fn after_report(x: State, taken: Received) -> State
    requires { taken.node.0 < 32 }
    ensures { result ≡ Definitions.keeping x taken.kept taken.termination (with x.held taken.node.0) (noted x.latest taken.node.0 taken.view.0) }
{
    let node = taken.node;
    let kept = taken.kept;
    let termination = taken.termination;
    let held = base_masks::with(x.held, node.0 as usize);
    let latest = report_rows::latest::note(x.latest, node, taken.view);
    State {
        kept,
        termination,
        held,
        latest,
        ..x
    }
}

// While gathering the node is no longer held; while ordered or preparing gathering starts again.
fn after_drop(x: State, node: Node) -> State
    ensures { result ≡ Definitions.after_drop x node.0 }
{
    let phase = x.phase;
    match phase {
        Phase::Gathering => {
            let held = base_masks::without(x.held, node.0 as usize);
            State { held, ..x }
        }
        Phase::Ordered => restarted(x),
        Phase::Preparing => restarted(x),
        Phase::Committed => x,
    }
}

// The node is marked, and preparing follows when every held node is.
fn after_fetched(x: State, node: Node) -> State
    ensures { node.0 < 32 → result ≡ Definitions.after_fetched x node.0 }
{
    let fetched = state_rows::mark(x.fetched, node);
    let phase = state_rows::phase_after(fetched, x.held, Phase::Ordered, Phase::Preparing);
    State {
        phase,
        fetched,
        ..x
    }
}

// The node is marked, and committed follows when every held node is.
fn after_prepared(x: State, node: Node) -> State
    ensures { node.0 < 32 → result ≡ Definitions.after_prepared x node.0 }
{
    let prepared = state_rows::mark(x.prepared, node);
    let phase = state_rows::phase_after(prepared, x.held, Phase::Preparing, Phase::Committed);
    State {
        phase,
        prepared,
        ..x
    }
}

// The plan stands.
fn planned(x: State, plan: Plan) -> State
    ensures { result ≡ Definitions.planned x plan }
{
    State {
        phase: Phase::Ordered,
        plan,
        ..x
    }
}

// A plan leads to ordered, and a wait changes nothing.
fn after_verdict(x: State, verdict: Result<Plan, Reason>) -> Decided
    ensures { result ≡ Decide.decided_by (verdict_from verdict).quorum x (verdict_from verdict).plan }
{
    match verdict {
        Ok(plan) => Decided {
            state: planned(x, plan),
            decision: Decision::Planned,
        },
        Err(reason) => Decided {
            state: x,
            decision: Decision::Wait(reason),
        },
    }
}

// What is decided, with a gap.
fn within(decided: Decided, gap: u32) -> DecidedWithin
    ensures { result ≡ record { state = decided.state; decision = decided.decision; gap = gap } }
{
    DecidedWithin {
        state: decided.state,
        decision: decided.decision,
        gap,
    }
}

// The same of a plan that rounds reach. Beside a wait there is no gap.
fn after_offer(x: State, offered: Result<GappedPlan, Reason>) -> DecidedWithin
    ensures { result
        ≡ DecideWithin.within_by (offered_from offered).verdict.quorum x (offered_from offered).verdict.plan (offered_from offered).gap }
{
    match offered {
        Ok(reached) => within(after_verdict(x, Ok(reached.plan)), reached.gap),
        Err(reason) => within(after_verdict(x, Err(reason)), 0),
    }
}

impl State {
    // The state before any report.
    pub fn fresh() -> State
        ensures { result ≡ Definitions.fresh }
    {
        State {
            phase: Phase::Gathering,
            kept: plan_restart::no_view(),
            termination: Termination {
                made: false,
                positions: report_views::no_positions(),
            },
            held: 0,
            fetched: 0,
            prepared: 0,
            plan: plan_restart::no_plan(),
            latest: report_rows::latest::no_latest(),
        }
    }

    // The next state where a report is not refused; the desk is left to the caller.
    fn report_by(self, settings: &[u32], desk: &[u8], message: &[u32]) -> Result<State, Refusal>
        requires settings { Settings settings.now }
        requires desk_len { length desk.now ≡ 65536 }
        ensures { result ≡ or_refusal (Definitions.report_refusal settings.now self (words_in desk.now) message.now) (Definitions.after_report settings.now self (contents_of message.now)) }
    {
        let phase = self.phase;
        let in_phase = state_rows::is_gathering(phase);
        let entry = enter(settings, self, desk, in_phase);
        let rows = entry.rows;
        rows?;
        let sighted = entry.sighted;
        let taken = report_kept::take_in(
            settings,
            self.kept,
            self.termination,
            sighted.tables,
            self.latest,
            message,
        );
        let refusal = taken.refusal;
        if refusal.code != 0 {
            return Err(refusal);
        }
        Ok(after_report(self, taken))
    }

    // A node reports, where rows 1 and 2 do not refuse.
    pub fn report_under(self, settings: &[u32], desk: &mut [u8], message: &[u32]) -> Outcome
        requires settings { Settings settings.now }
        requires desk_len { length desk.old ≡ 65536 }
        ensures outcome { result ≡ Definitions.reported settings.now self (words_in desk.old) message.now }
        ensures words { words_in desk.new ≡ Definitions.desk_after settings.now self (words_in desk.old) message.now }
        ensures bytes { desk.new ≡ Definitions.desk_left settings.now self desk.old message.now }
    {
        let next = self.report_by(settings, desk, message);
        if next.is_err() {
            return handed_back(self, next);
        }
        report_desk::store(desk, Node(message[0]), message);
        handed_back(self, next)
    }

    // A node reports: its message is copied to its slot of the desk, and the node is held.
    pub fn report(self, settings: &[u32], desk: &mut [u8], message: &[u32]) -> Outcome
        ensures outcome { result ≡ Definitions.reported settings.now self (words_in desk.old) message.now }
        ensures words { words_in desk.new ≡ Definitions.desk_after settings.now self (words_in desk.old) message.now }
        ensures bytes { desk.new ≡ Definitions.desk_left settings.now self desk.old message.now }
    {
        match check_call(settings, desk) {
            Ok(_) => self.report_under(settings, desk, message),
            Err(refusal) => handed_back(self, Err(refusal)),
        }
    }

    // The next state where it is not refused.
    fn drop_by(self, settings: &[u32], desk: &[u8], node: Node) -> Result<State, Refusal>
        requires settings { Settings settings.now }
        requires desk_len { length desk.now ≡ 65536 }
        ensures { result ≡ or_refusal (Definitions.drop_refusal settings.now self (words_in desk.now) node.0) (Definitions.after_drop self node.0) }
    {
        let phase = self.phase;
        let in_phase = !state_rows::is_committed(phase);
        let known = base_masks::has(self.held, node.0 as usize);
        check_event(settings, self, desk, in_phase, node, known)?;
        Ok(after_drop(self, node))
    }

    // A node is no longer there, where rows 1 and 2 do not refuse.
    pub fn drop_under(self, settings: &[u32], desk: &[u8], node: Node) -> Outcome
        requires settings { Settings settings.now }
        requires desk_len { length desk.now ≡ 65536 }
        ensures { result ≡ Definitions.dropped settings.now self (words_in desk.now) node.0 }
    {
        handed_back(self, self.drop_by(settings, desk, node))
    }

    // A node is no longer there.
    pub fn drop(self, settings: &[u32], desk: &[u8], node: Node) -> Outcome
        ensures { result ≡ Definitions.dropped settings.now self (words_in desk.now) node.0 }
    {
        match check_call(settings, desk) {
            Ok(_) => self.drop_under(settings, desk, node),
            Err(refusal) => handed_back(self, Err(refusal)),
        }
    }

    // The next state where it is not refused.
    fn fetched_by(self, settings: &[u32], desk: &[u8], node: Node) -> Result<State, Refusal>
        requires settings { Settings settings.now }
        requires desk_len { length desk.now ≡ 65536 }
        ensures { result ≡ or_refusal (Definitions.fetched_refusal settings.now self (words_in desk.now) node.0) (Definitions.after_fetched self node.0) }
    {
        let phase = self.phase;
        let in_phase = state_rows::is_ordered(phase);
        let known = state_rows::lacks(self.held, self.fetched, node);
        check_event(settings, self, desk, in_phase, node, known)?;
        Ok(after_fetched(self, node))
    }

    // A node has fetched what it lacked, where rows 1 and 2 do not refuse.
    pub fn fetched_under(self, settings: &[u32], desk: &[u8], node: Node) -> Outcome
        requires settings { Settings settings.now }
        requires desk_len { length desk.now ≡ 65536 }
        ensures { result ≡ Definitions.fetched_of settings.now self (words_in desk.now) node.0 }
    {
        handed_back(self, self.fetched_by(settings, desk, node))
    }

    // A node has fetched what it lacked.
    pub fn fetched(self, settings: &[u32], desk: &[u8], node: Node) -> Outcome
        ensures { result ≡ Definitions.fetched_of settings.now self (words_in desk.now) node.0 }
    {
        match check_call(settings, desk) {
            Ok(_) => self.fetched_under(settings, desk, node),
            Err(refusal) => handed_back(self, Err(refusal)),
        }
    }

    // The next state where it is not refused.
    fn prepared_by(self, settings: &[u32], desk: &[u8], node: Node) -> Result<State, Refusal>
        requires settings { Settings settings.now }
        requires desk_len { length desk.now ≡ 65536 }
        ensures { result ≡ or_refusal (Definitions.prepared_refusal settings.now self (words_in desk.now) node.0) (Definitions.after_prepared self node.0) }
    {
        let phase = self.phase;
        let in_phase = state_rows::is_preparing(phase);
        let known = state_rows::lacks(self.held, self.prepared, node);
        check_event(settings, self, desk, in_phase, node, known)?;
        Ok(after_prepared(self, node))
    }

    // A node has prepared the new view, where rows 1 and 2 do not refuse.
    pub fn prepared_under(self, settings: &[u32], desk: &[u8], node: Node) -> Outcome
        requires settings { Settings settings.now }
        requires desk_len { length desk.now ≡ 65536 }
        ensures { result ≡ Definitions.prepared_of settings.now self (words_in desk.now) node.0 }
    {
        handed_back(self, self.prepared_by(settings, desk, node))
    }

    // A node has prepared the new view.
    pub fn prepared(self, settings: &[u32], desk: &[u8], node: Node) -> Outcome
        ensures { result ≡ Definitions.prepared_of settings.now self (words_in desk.now) node.0 }
    {
        match check_call(settings, desk) {
            Ok(_) => self.prepared_under(settings, desk, node),
            Err(refusal) => handed_back(self, Err(refusal)),
        }
    }

    // A plan for the held nodes, or the first reason to wait, where rows 1 and 2 do not refuse.
    pub fn decide_under(self, settings: &[u32], desk: &[u8]) -> Decided
        requires settings { Settings settings.now }
        requires desk_len { length desk.now ≡ 65536 }
        ensures { Definitions.Decides settings.now self (words_in desk.now) result }
    {
        let phase = self.phase;
        let in_phase = state_rows::is_gathering(phase);
        let entered = enter(settings, self, desk, in_phase);
        let rows = entered.rows;
        match rows {
            Ok(_) => {
                let sighted = entered.sighted;
                let verdict = plan_restart::restart(settings, self.kept, self.held, sighted.seen);
                after_verdict(self, verdict)
            }
            Err(refusal) => Decided {
                state: self,
                decision: Decision::Refused(refusal),
            },
        }
    }

    // A plan for the held nodes, or the first reason to wait.
    pub fn decide(self, settings: &[u32], desk: &[u8]) -> Decided
        ensures { Definitions.Decides settings.now self (words_in desk.now) result }
    {
        match check_call(settings, desk) {
            Ok(_) => self.decide_under(settings, desk),
            Err(refusal) => Decided {
                state: self,
                decision: Decision::Refused(refusal),
            },
        }
    }

    // A plan that so many improving rounds reach, or the first reason to wait, where rows 1 and 2 do not refuse.
    pub fn decide_within_under(self, settings: &[u32], desk: &[u8], rounds: u32) -> DecidedWithin
        requires settings { Settings settings.now }
        requires desk_len { length desk.now ≡ 65536 }
        ensures { Definitions.DecidesWithin settings.now self (words_in desk.now) rounds result }
    {
        let phase = self.phase;
        let gathering = state_rows::is_gathering(phase);
        let entered = enter(settings, self, desk, gathering);
        let rows = entered.rows;
        match rows {
            Ok(_) => {
                let sighted = entered.sighted;
                let offered = plan_restart::rounds::offer(
                    settings,
                    self.kept,
                    self.held,
                    sighted.seen,
                    rounds,
                );
                after_offer(self, offered)
            }
            Err(refusal) => DecidedWithin {
                state: self,
                decision: Decision::Refused(refusal),
                gap: 0,
            },
        }
    }

    // A plan that so many improving rounds reach, or the first reason to wait.
    pub fn decide_within(self, settings: &[u32], desk: &[u8], rounds: u32) -> DecidedWithin
        ensures { Definitions.DecidesWithin settings.now self (words_in desk.now) rounds result }
    {
        match check_call(settings, desk) {
            Ok(_) => self.decide_within_under(settings, desk, rounds),
            Err(refusal) => DecidedWithin {
                state: self,
                decision: Decision::Refused(refusal),
                gap: 0,
            },
        }
    }

    // Whether the state is sound beside these settings and this desk, where rows 1 and 2 do not refuse: row 3.
    pub fn check_under(self, settings: &[u32], desk: &[u8]) -> Result<(), Refusal>
        requires settings { Settings settings.now }
        requires desk_len { length desk.now ≡ 65536 }
        ensures { result ≡ or_refusal (Definitions.check_refusal settings.now self (words_in desk.now)) tt }
    {
        let entered = enter(settings, self, desk, true);
        entered.rows
    }

    // Whether the state is sound beside these settings and this desk, in whatever phase it is: rows 1 to 3.
    pub fn check(self, settings: &[u32], desk: &[u8]) -> Result<(), Refusal>
        ensures { result ≡ or_refusal (Definitions.check_refusal settings.now self (words_in desk.now)) tt }
    {
        check_call(settings, desk)?;
        self.check_under(settings, desk)
    }
}
