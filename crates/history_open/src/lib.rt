// Whether an open view counts: a view that machines have on disk and none of them knows to be committed.
#![tactic(auto)]

ghost use Rattle.std.specs.Prelude.{◌≡◌};
ghost use Rattle.history_open.specs.Definitions.{says_sure, says_never, judged};

// What the machines' views say of it: that it counts, that it was never served, neither, or both, which no machines say that keep their
// duties.
#[derive(Clone, Copy)]
pub enum Finding {
    Sure,
    Never,
    Undecided,
    Contradicted,
}

// Somebody knows it, or all its members have it.
fn says_sure(members: u32, known: u32, have: u32) -> bool
    ensures { result ≡ says_sure members known have }
{
    if known != 0 {
        return true;
    }
    if members == 0 {
        return false;
    }
    base_masks::subset(members, have)
}

// A member lacks it, or a sure view has passed it by.
fn says_never(members: u32, lack: u32, passed: u32) -> bool
    ensures { result ≡ says_never members lack passed }
{
    if !base_masks::disjoint(members, lack) {
        return true;
    }
    passed != 0
}

// What is found of an open view, by the masks of those who sent something of it.
pub fn judge(members: u32, known: u32, have: u32, lack: u32, passed: u32) -> Finding
    ensures { result ≡ judged members known have lack passed }
{
    let sure = says_sure(members, known, have);
    let never = says_never(members, lack, passed);
    if sure {
        if never {
            return Finding::Contradicted;
        }
        return Finding::Sure;
    }
    if never {
        return Finding::Never;
    }
    Finding::Undecided
}
