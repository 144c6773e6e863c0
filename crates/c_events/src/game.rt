// The game of outage and crew, over lent bytes.
ghost use Rattle.std.specs.Prelude.{◌≡◌, ◌≤◌};
ghost use Rattle.c_events.specs.Definitions.{lead_word, winner_word, played_word, GameCall};
ghost use Rattle.c_events.specs.GameCalls.{lead_move, winner_move, played_move};

use game_rules::{Lead, Winner};
use state_game::Played;

// The outage wins by this first move.
fn lead_word(lead: Lead) -> u32
    requires { lead_move lead ≤ 32 }
    ensures { result ≡ lead_word lead }
{
    match lead {
        Lead::Taking(node) => 83886336 + node.0,
        Lead::Passing => 83886368,
    }
}

// Who wins, as an answer.
fn winner_word(winner: Winner) -> u32
    requires { winner_move winner ≤ 32 }
    ensures { result ≡ winner_word winner }
{
    match winner {
        Winner::Crew => 83886080,
        Winner::Outage(lead) => lead_word(lead),
    }
}

// What the game hands back, as an answer.
fn played_word(played: Played) -> u32
    requires { played_move played ≤ 32 }
    ensures { result ≡ played_word played }
{
    match played {
        Played::Won(winner) => winner_word(winner),
        Played::Unplayed(refusal) => refusal.code,
    }
}

// Who can force the win in so many rounds with these nodes held: rows 1, 2, 15, 3, 4, 22 and 23.
pub fn game(role: u32, settings: &[u8], state: &[u8], desk: &[u8], held: u32, rounds: u32) -> u32
    ensures { GameCall role settings.now state.now desk.now held rounds result }
{
    let entry = c_state::enter_planner(role, desk.len() == 65536, settings, state);
    let refusal = entry.refusal;
    if refusal.code != 0 {
        return refusal.code;
    }
    let n = entry.words;
    let own = entry.settings;
    let played = state_game::game_under(&own[0..n], entry.state, desk, held, rounds);
    played_word(played)
}
