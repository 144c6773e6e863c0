// A subgroup's page as 512 words.
ghost use Rattle.std.specs.Prelude.{◌≡◌, ◌<◌, get_or};
ghost use Rattle.report_views.specs.Definitions.{start, position_word};
ghost use Rattle.c_state_words.specs.Definitions.{page_head, page_word, page_words};

use base_ids::Position;
use plan_page::Page;

// The first eight words.
fn head_word(p: Page, k: usize) -> u32
    ensures { result ≡ page_head p k }
{
    if k < 1 {
        let phase = p.phase;
        return crate::phase_number(phase);
    }
    if k < 2 {
        let view = p.view;
        return view.0;
    }
    if k < 3 {
        return p.shards;
    }
    if k < 4 {
        return p.known;
    }
    if k < 5 {
        return crate::flag(p.found);
    }
    if k < 6 {
        return p.moves;
    }
    0
}

// Word i of positions, two words each.
fn target_word(targets: [Position; 16], i: usize) -> u32
    requires { i < 32 }
    ensures { result ≡ position_word (λ s. get_or targets s start) i }
{
    let target = targets[i / 2];
    if i % 2 == 0 {
        let view = target.view;
        return view.0;
    }
    target.k
}

// Word k of a page.
fn page_word(p: Page, k: usize) -> u32
    ensures { result ≡ page_word p k }
{
    if k < 8 {
        return head_word(p, k);
    }
    if k < 24 {
        let holders = p.holders;
        let holder = holders[k - 8];
        return holder.0;
    }
    if k < 56 {
        let targets = p.targets;
        return target_word(targets, k - 24);
    }
    if k < 72 {
        let masks = p.masks;
        return masks[k - 56];
    }
    0
}

// The words of a page: 72, then zeros.
pub fn encode(p: Page) -> [u32; 512]
    ensures { result ≡ page_words p }
{
    let mut words = [0u32; 512];
    for k in 0..72 {
        words[k] = page_word(p, k);
    }
    words
}
