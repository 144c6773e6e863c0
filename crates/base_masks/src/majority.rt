// The least majority of a number of members.
ghost use Rattle.base_masks.specs.Majority.{LeastMajority};

// The least number of members that is more than half of them: half the members, rounded down, and one more.
pub fn least_majority(members: u32) -> u32
    ensures { LeastMajority members result }
{
    members / 2 + 1
}
