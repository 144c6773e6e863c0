// The game of outage and crew over a state, with given nodes held in place of the state's. Neither state nor desk changes.
#![tactic(auto)]

ghost use Rattle.std.specs.Prelude.{◌≡◌, length};
ghost use Rattle.base_lent.specs.Definitions.{words_in};
ghost use Rattle.settings_values.specs.Definitions.{Settings};
ghost use Rattle.state_game.specs.Definitions.{game_limits, Plays};

use base_ids::Refusal;
use game_rules::Winner;
use state_planner::State;

// Who wins, or a refusal.
#[derive(Clone, Copy)]
pub enum Played {
    Won(Winner),
    Unplayed(Refusal),
}

// At most three rounds, and no held node from the number of nodes up.
fn in_limits(settings: &[u32], held: u32, rounds: u32) -> bool
    requires { Settings settings.now }
    ensures { result ≡ game_limits settings.now held rounds }
{
    if rounds > 3 {
        return false;
    }
    base_masks::within(base_ids::wide(settings_values::nodes(settings)), held)
}

// The game, where rows 1 and 2 do not refuse: rows 3, 4, 22 and 23.
pub fn game_under(settings: &[u32], x: State, desk: &[u8], held: u32, rounds: u32) -> Played
    requires settings { Settings settings.now }
    requires desk_len { length desk.now ≡ 65536 }
    ensures { Plays settings.now x (words_in desk.now) held rounds result }
{
    let limits = in_limits(settings, held, rounds);
    let ready = state_readiness::readiness_under(settings, x, desk, limits);
    let refusal = ready.refusal;
    if refusal.code != 0 {
        return Played::Unplayed(refusal);
    }
    let rows = ready.rows;
    let nodes = base_ids::wide(settings_values::nodes(settings));
    Played::Won(game_turns::winner(rounds, held, nodes, &rows))
}

// The game of so many rounds with these nodes held, each node being remembered at its report's view.
pub fn game(settings: &[u32], x: State, desk: &[u8], held: u32, rounds: u32) -> Played
    ensures { Plays settings.now x (words_in desk.now) held rounds result }
{
    if desk.len() != 65536 {
        return Played::Unplayed(Refusal { code: 1 });
    }
    if !settings_check::check(settings) {
        return Played::Unplayed(Refusal { code: 2 });
    }
    game_under(settings, x, desk, held, rounds)
}
