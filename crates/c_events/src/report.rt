// The report event, over lent bytes.
ghost use Rattle.std.specs.Prelude.{◌≡◌};
ghost use Rattle.c_events.specs.Definitions.{report_answer, report_leaves, report_desk};

// A node reports: rows 1, 2, 15, 3 and those that follow.
pub fn report(role: u32, settings: &[u8], state: &mut [u8], desk: &mut [u8], message: &[u8]) -> u32
    ensures answer { result ≡ report_answer role settings.now state.old desk.old message.now }
    ensures state { state.new ≡ report_leaves role settings.now state.old desk.old message.now }
    ensures desk { desk.new ≡ report_desk role settings.now state.old desk.old message.now }
{
    let entry = c_state::enter_planner(role, desk.len() == 65536, settings, state);
    let refusal = entry.refusal;
    if refusal.code != 0 {
        return refusal.code;
    }
    let x = entry.state;
    let n = entry.words;
    let own = entry.settings;
    let lent = base_lent::words_of(512, message);
    let len = lent.len;
    let words = lent.table;
    let o = x.report_under(&own[0..n], desk, &words[0..len]);
    c_state::keep(o, state)
}
