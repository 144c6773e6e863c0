// Waits 1 to 4, from the kept view, the held nodes and each shard's holder.
#![tactic(auto)]

ghost use Rattle.std.specs.Prelude.{◌≡◌, ◌≤◌};
ghost use Rattle.settings_values.specs.Definitions.{Settings};
ghost use Rattle.plan_quorum.specs.Answer.{quorum_from};
ghost use Rattle.plan_quorum.specs.Quorum.{most_held, first_without, quorum_by};

use base_ids::{Node, Shard};
use report_views::{Layout, Reason};

// The lowest of the first count shards that has no holder, or count.
fn first_without(holders: [Node; 16], count: usize) -> usize
    requires { count ≤ 16 }
    ensures { result ≡ first_without holders count }
{
    for s in 0..count {
        let holder = holders[s];
        if holder.0 == 32 {
            return s;
        }
    }
    count
}

// More than half of the members are held.
fn most_held(members: u32, held: u32) -> bool
    ensures { result ≡ most_held members held }
{
    base_masks::majority::least_majority(base_masks::count(members))
        <= base_masks::count(held & members)
}

// Waits 1 to 4: the first that applies.
pub fn quorum(settings: &[u32], v: Layout, held: u32, holders: [Node; 16]) -> Result<(), Reason>
    requires { Settings settings.now }
    ensures { quorum_from result ≡ quorum_by settings.now v held holders }
{
    let number = v.number;
    if number.0 == 0 {
        return Err(Reason::NoView);
    }
    if !most_held(v.members, held) {
        return Err(Reason::NoMajority);
    }
    if base_masks::count(held) < settings_values::least(settings) {
        return Err(Reason::TooFew);
    }
    let count = base_ids::wide(settings_values::shards(settings));
    let s = first_without(holders, count);
    if s < count {
        return Err(Reason::NoHolder(Shard(s as u32)));
    }
    Ok(())
}
