// The page call, over lent bytes: what a role may read of one subgroup.
ghost use Rattle.std.specs.Prelude.{◌≡◌};
ghost use Rattle.base_roles.specs.Definitions.{role_of, may_read};
ghost use Rattle.c_events.specs.Definitions.{PageCall};

// Whether the role that a word stands for may read the page of a subgroup.
fn may_read(role: u32, subgroup: u32) -> bool
    ensures { result ≡ may_read (role_of role) subgroup }
{
    base_roles::may_read(base_roles::role_of(role), subgroup)
}

// Writes a subgroup's page into the lent buffer: rows 1 (desk or buffer), 2, 15 and 3.
pub fn page(
    role: u32,
    settings: &[u8],
    state: &[u8],
    desk: &[u8],
    subgroup: u32,
    buffer: &mut [u8],
) -> u32
    ensures { PageCall role settings.now state.now desk.now subgroup buffer.old result buffer.new }
{
    let allowed = may_read(role, subgroup);
    let lengths = c_state::lengths_ok(desk.len(), buffer.len());
    let entry = c_state::enter(allowed, lengths, settings, state);
    let first = entry.refusal;
    if first.code != 0 {
        return first.code;
    }
    let n = entry.words;
    let own = entry.settings;
    let paged = state_page::page_under(&own[0..n], entry.state, desk, subgroup);
    let refusal = paged.refusal;
    if refusal.code != 0 {
        return refusal.code;
    }
    let words = c_state_words::page::encode(paged.page);
    base_bytes::encode(&words, buffer);
    base_lent::with_length(72)
}
