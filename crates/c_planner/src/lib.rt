// The C entry points: settings, messages, open views and the planner's events. Lent bytes are little-endian words: 160 of a state,
// 16384 of a desk, 512 of a buffer. Each call answers a word and changes no lent byte where it refuses. A call over a state is first told
// the caller's role: 256 the planner, 512 + g a watcher of subgroup g, who may only read that subgroup's page.
#![tactic(auto)]

ghost use Rattle.std.specs.Prelude.{◌≡◌};
ghost use Rattle.c_messages.specs.Definitions.{check_answer, read_answer, read_leaves, write_answer, write_leaves, from_flat_answer, from_flat_leaves, to_flat_answer, to_flat_leaves};
ghost use Rattle.c_events.specs.Definitions.{fresh_answer, fresh_leaves, check_state_answer, take_answer, take_leaves, report_answer, report_leaves, report_desk, DecideCall, WithinCall, order_answer, order_leaves, PageCall, PreviewCall, WarnCall, GameCall};
ghost use Rattle.c_views.specs.Definitions.{open_view_answer};

use c_events::Event;
use message_format::Form;

// 0 where the settings are right, else 2.
#[unsafe(no_mangle)]
pub extern "C" fn restart_check_settings(settings: &[u8]) -> u32
    ensures { result ≡ check_answer settings.now }
{
    c_messages::check_settings(settings)
}

// Reads a report: rows 1 (the contents are not 2048 bytes), 2 and 5 to 11.
#[unsafe(no_mangle)]
pub extern "C" fn restart_read_report(settings: &[u8], message: &[u8], contents: &mut [u8]) -> u32
    ensures answer { result ≡ read_answer Form.Report settings.now message.now contents.old }
    ensures bytes { contents.new ≡ read_leaves Form.Report settings.now message.now contents.old }
{
    c_messages::read_into(Form::Report, settings, message, contents)
}

// Reads an order: rows 1 (the contents are not 2048 bytes), 2 and 5 to 11.
#[unsafe(no_mangle)]
pub extern "C" fn restart_read_order(settings: &[u8], message: &[u8], contents: &mut [u8]) -> u32
    ensures answer { result ≡ read_answer Form.Order settings.now message.now contents.old }
    ensures bytes { contents.new ≡ read_leaves Form.Order settings.now message.now contents.old }
{
    c_messages::read_into(Form::Order, settings, message, contents)
}

// Writes a report: rows 1 (the buffer is not 2048 bytes), 2, 5 to 7 and 9 to 11.
#[unsafe(no_mangle)]
pub extern "C" fn restart_write_report(settings: &[u8], contents: &[u8], buffer: &mut [u8]) -> u32
    ensures answer { result ≡ write_answer Form.Report settings.now contents.now buffer.old }
    ensures bytes { buffer.new ≡ write_leaves Form.Report settings.now contents.now buffer.old }
{
    c_messages::write_into(Form::Report, settings, contents, buffer)
}

// Writes an order: rows 1 (the buffer is not 2048 bytes), 2, 5 to 7 and 9 to 11.
#[unsafe(no_mangle)]
pub extern "C" fn restart_write_order(settings: &[u8], contents: &[u8], buffer: &mut [u8]) -> u32
    ensures answer { result ≡ write_answer Form.Order settings.now contents.now buffer.old }
    ensures bytes { buffer.new ≡ write_leaves Form.Order settings.now contents.now buffer.old }
{
    c_messages::write_into(Form::Order, settings, contents, buffer)
}

// Turns a flat report of the former seller into a report: rows 1 (the buffer is not 2048 bytes), 2, 19, 20, 21, 6, 7, 16, 17, 10 and 11.
#[unsafe(no_mangle)]
pub extern "C" fn restart_from_flat(settings: &[u8], flat: &[u8], buffer: &mut [u8]) -> u32
    ensures answer { result ≡ from_flat_answer settings.now flat.now buffer.old }
    ensures bytes { buffer.new ≡ from_flat_leaves settings.now flat.now buffer.old }
{
    c_messages::flat::from_flat(settings, flat, buffer)
}

// Turns a report into a flat one: rows 1 (the buffer is not 2048 bytes), 2 and 5 to 11.
#[unsafe(no_mangle)]
pub extern "C" fn restart_to_flat(settings: &[u8], message: &[u8], buffer: &mut [u8]) -> u32
    ensures answer { result ≡ to_flat_answer settings.now message.now buffer.old }
    ensures bytes { buffer.new ≡ to_flat_leaves settings.now message.now buffer.old }
{
    c_messages::flat::to_flat(settings, message, buffer)
}

// Whether an open view counts, by the masks of those who sent something of it. It never refuses.
#[unsafe(no_mangle)]
pub extern "C" fn restart_open_view(
    members: u32,
    known: u32,
    have: u32,
    lack: u32,
    passed: u32,
) -> u32
    ensures { result ≡ open_view_answer members known have lack passed }
{
    c_views::open_view(members, known, have, lack, passed)
}

// Stores the fresh state: row 15, and row 3 where the bytes are not 640.
#[unsafe(no_mangle)]
pub extern "C" fn restart_fresh(role: u32, state: &mut [u8]) -> u32
    ensures answer { result ≡ fresh_answer role state.old }
    ensures bytes { state.new ≡ fresh_leaves role state.old }
{
    c_events::fresh(role, state)
}

// Whether the bytes are a state that is sound with this desk, in whatever phase: rows 1, 2, 15 and 3.
#[unsafe(no_mangle)]
pub extern "C" fn restart_check_state(role: u32, settings: &[u8], state: &[u8], desk: &[u8]) -> u32
    ensures { result ≡ check_state_answer role settings.now state.now desk.now }
{
    c_events::check_state(role, settings, state, desk)
}

// A node reports: rows 1, 2, 15, 3 and those that follow.
#[unsafe(no_mangle)]
pub extern "C" fn restart_report(
    role: u32,
    settings: &[u8],
    state: &mut [u8],
    desk: &mut [u8],
    message: &[u8],
) -> u32
    ensures answer { result ≡ report_answer role settings.now state.old desk.old message.now }
    ensures state { state.new ≡ report_leaves role settings.now state.old desk.old message.now }
    ensures desk { desk.new ≡ report_desk role settings.now state.old desk.old message.now }
{
    c_events::report::report(role, settings, state, desk, message)
}

// A node is no longer there: rows 1, 2, 15, 3, 4, 6 and 14.
#[unsafe(no_mangle)]
pub extern "C" fn restart_drop(
    role: u32,
    settings: &[u8],
    state: &mut [u8],
    desk: &[u8],
    node: u32,
) -> u32
    ensures answer { result ≡ take_answer role Event.Drop settings.now state.old desk.now node }
    ensures bytes { state.new ≡ take_leaves role Event.Drop settings.now state.old desk.now node }
{
    c_events::take(role, Event::Drop, settings, state, desk, node)
}

// Plans a restart, or says why there is none: rows 1, 2, 15, 3 and 4.
#[unsafe(no_mangle)]
pub extern "C" fn restart_decide(role: u32, settings: &[u8], state: &mut [u8], desk: &[u8]) -> u32
    ensures { DecideCall role settings.now state.old desk.now result state.new }
{
    c_events::decide::decide(role, settings, state, desk)
}

// Plans a restart by so many improving rounds, more than 128 counting as 128, or says why there is none: rows 1, 2, 15, 3 and 4. The answer of
// a plan has its gap.
#[unsafe(no_mangle)]
pub extern "C" fn restart_decide_within(
    role: u32,
    settings: &[u8],
    state: &mut [u8],
    desk: &[u8],
    rounds: u32,
) -> u32
    ensures { WithinCall role settings.now state.old desk.now rounds result state.new }
{
    c_events::decide::decide_within(role, settings, state, desk, rounds)
}

// Writes a held node's order: rows 1 (desk or buffer), 2, 15, 3, 4, 6 and 14.
#[unsafe(no_mangle)]
pub extern "C" fn restart_order(
    role: u32,
    settings: &[u8],
    state: &[u8],
    desk: &[u8],
    node: u32,
    buffer: &mut [u8],
) -> u32
    ensures answer { result ≡ order_answer role settings.now state.now desk.now node buffer.old }
    ensures bytes { buffer.new ≡ order_leaves role settings.now state.now desk.now node buffer.old }
{
    c_events::order::order(role, settings, state, desk, node, buffer)
}

// A node has fetched what it lacked: rows 1, 2, 15, 3, 4, 6 and 14.
#[unsafe(no_mangle)]
pub extern "C" fn restart_fetched(
    role: u32,
    settings: &[u8],
    state: &mut [u8],
    desk: &[u8],
    node: u32,
) -> u32
    ensures answer { result ≡ take_answer role Event.Fetched settings.now state.old desk.now node }
    ensures bytes { state.new ≡ take_leaves role Event.Fetched settings.now state.old desk.now node }
{
    c_events::take(role, Event::Fetched, settings, state, desk, node)
}

// A node has prepared the new view: rows 1, 2, 15, 3, 4, 6 and 14.
#[unsafe(no_mangle)]
pub extern "C" fn restart_prepared(
    role: u32,
    settings: &[u8],
    state: &mut [u8],
    desk: &[u8],
    node: u32,
) -> u32
    ensures answer { result ≡ take_answer role Event.Prepared settings.now state.old desk.now node }
    ensures bytes { state.new ≡ take_leaves role Event.Prepared settings.now state.old desk.now node }
{
    c_events::take(role, Event::Prepared, settings, state, desk, node)
}

// Writes a subgroup's page, for a role that may read it: rows 1 (desk or buffer), 2, 15 and 3.
#[unsafe(no_mangle)]
pub extern "C" fn restart_page(
    role: u32,
    settings: &[u8],
    state: &[u8],
    desk: &[u8],
    subgroup: u32,
    buffer: &mut [u8],
) -> u32
    ensures { PageCall role settings.now state.now desk.now subgroup buffer.old result buffer.new }
{
    c_events::page::page(role, settings, state, desk, subgroup, buffer)
}

// What decide would answer without a held node, while gathering: rows 1 (desk or buffer), 2, 15, 3, 4, 6 and 14.
#[unsafe(no_mangle)]
pub extern "C" fn restart_preview(
    role: u32,
    settings: &[u8],
    state: &[u8],
    desk: &[u8],
    node: u32,
    buffer: &mut [u8],
) -> u32
    ensures { PreviewCall role settings.now state.now desk.now node buffer.old result buffer.new }
{
    c_events::preview::preview(role, settings, state, desk, node, buffer)
}

// Writes the mask of the held nodes whose loss means waiting, while gathering: rows 1 (desk or buffer), 2, 15, 3 and 4.
#[unsafe(no_mangle)]
pub extern "C" fn restart_preview_all(
    role: u32,
    settings: &[u8],
    state: &[u8],
    desk: &[u8],
    buffer: &mut [u8],
) -> u32
    ensures { WarnCall role settings.now state.now desk.now buffer.old result buffer.new }
{
    c_events::preview::preview_all(role, settings, state, desk, buffer)
}

// Who can force the win of outage and crew in so many rounds with these nodes held: rows 1, 2, 15, 3, 4, 22 and 23.
#[unsafe(no_mangle)]
pub extern "C" fn restart_game(
    role: u32,
    settings: &[u8],
    state: &[u8],
    desk: &[u8],
    held: u32,
    rounds: u32,
) -> u32
    ensures { GameCall role settings.now state.now desk.now held rounds result }
{
    c_events::game::game(role, settings, state, desk, held, rounds)
}
