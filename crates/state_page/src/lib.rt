// The page call: what a role may read of one subgroup. It changes neither state nor desk.
#![tactic(auto)]

ghost use Rattle.std.specs.Prelude.{◌≡◌, length};
ghost use Rattle.base_lent.specs.Definitions.{words_in};
ghost use Rattle.settings_values.specs.Definitions.{Settings};
ghost use Rattle.plan_page.specs.Definitions.{blank_page};
ghost use Rattle.state_page.specs.Definitions.{PageCalled, PageUnder};
ghost use Rattle.state_page.specs.Paging.{asked_refusal};

use base_ids::Refusal;
use base_roles::Role;
use plan_page::Page;
use state_planner::State;

// What the page call hands back. Beside a refusal the page tells nothing.
#[derive(Clone, Copy)]
pub struct Paged {
    pub refusal: Refusal,
    pub page: Page,
}

// A refusal, and the page that tells nothing.
fn refuse(refusal: Refusal) -> Paged
    ensures { (result.refusal ≡ refusal) × (result.page ≡ blank_page) }
{
    Paged {
        refusal,
        page: plan_page::blank_page(),
    }
}

// The page of subgroup g, where rows 1, 2 and 15 do not refuse.
pub fn page_under(settings: &[u32], x: State, desk: &[u8], g: u32) -> Paged
    requires settings { Settings settings.now }
    requires desk_len { length desk.now ≡ 65536 }
    ensures { PageUnder settings.now x (words_in desk.now) g result }
{
    let entry = state_planner::enter(settings, x, desk, true);
    let rows = entry.rows;
    match rows {
        Ok(_) => {
            let phase = x.phase;
            let sighted = entry.sighted;
            Paged {
                refusal: Refusal { code: 0 },
                page: plan_page::page_seen(
                    settings,
                    phase,
                    x.kept,
                    x.held,
                    sighted.seen,
                    x.plan,
                    g,
                ),
            }
        }
        Err(refusal) => refuse(refusal),
    }
}

// Rows 1, 2 and 15.
fn call_refusal(settings: &[u32], desk: &[u8], role: Role, g: u32) -> Refusal
    ensures { result ≡ asked_refusal settings.now (words_in desk.now) role g }
{
    if desk.len() != 65536 {
        return Refusal { code: 1 };
    }
    if !settings_check::check(settings) {
        return Refusal { code: 2 };
    }
    if !base_roles::may_read(role, g) {
        return Refusal { code: 15 };
    }
    Refusal { code: 0 }
}

// The page of subgroup g, for a role to which it is allowed.
pub fn page(settings: &[u32], x: State, desk: &[u8], role: Role, g: u32) -> Paged
    ensures { PageCalled settings.now x (words_in desk.now) role g result }
{
    let refusal = call_refusal(settings, desk, role, g);
    if refusal.code != 0 {
        return refuse(refusal);
    }
    page_under(settings, x, desk, g)
}
