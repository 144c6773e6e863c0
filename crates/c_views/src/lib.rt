// What is known of an open view, as an answer for C.
#![tactic(auto)]

ghost use Rattle.std.specs.Prelude.{◌≡◌};
ghost use Rattle.c_views.specs.Definitions.{finding_word, open_view_answer};

use history_open::Finding;

// A finding as an answer.
fn finding_word(finding: Finding) -> u32
    ensures { result ≡ finding_word finding }
{
    match finding {
        Finding::Sure => 67108865,
        Finding::Never => 67108866,
        Finding::Undecided => 67108867,
        Finding::Contradicted => 67108868,
    }
}

// What is found of an open view, by the masks of those who sent something of it. It never refuses.
pub fn open_view(members: u32, known: u32, have: u32, lack: u32, passed: u32) -> u32
    ensures { result ≡ open_view_answer members known have lack passed }
{
    finding_word(history_open::judge(members, known, have, lack, passed))
}
