// The cut of a node's log against a holder's log: how far the node's own log is good. A body is that of a report's contents, len its
// number of records.
#![tactic(auto)]

ghost use Rattle.std.specs.Prelude.{[], ◌∷◌, ◌≡◌, ◌<◌, ◌≤◌};
ghost use Prim.Native.Nat as Nat;
ghost use Rattle.message_format.specs.Definitions.{word1, word2};
ghost use Rattle.report_views.specs.Definitions.{pos, is_run, runs_to, shared_after, cut_from};
ghost use Rattle.report_cuts.specs.Walks.{NextRun, whole_run};

use base_ids::{Position, Shard, View};

fn min(a: u32, b: u32) -> u32
    ensures { result ≡ Nat.min a b }
{
    if a < b { a } else { b }
}

// Record j is a run of shard s.
fn is_run(body: &[u32; 381], s: Shard, j: usize) -> bool
    requires { j < 127 }
    ensures { result ≡ is_run body.now s.0 j }
{
    base_ids::wide(message_rows::fields::tag(body, j)) == 768 + base_ids::wide(s.0)
}

// The last position of run j.
fn run_end(body: &[u32; 381], j: usize) -> Position
    requires { j < 127 }
    ensures { result ≡ pos (word1 body.now j) (word2 body.now j) }
{
    Position {
        view: View(message_rows::fields::word1(body, j)),
        k: message_rows::fields::word2(body, j),
    }
}

// The first record from i on that is a run of shard s, or len.
fn next_run(body: &[u32; 381], len: usize, s: Shard, i: usize) -> usize
    requires { (i ≤ len) × (len ≤ 127) }
    ensures { NextRun body.now len s.0 i result }
{
    for j in i..len {
        if is_run(body, s, j) {
            return j;
        }
    }
    len
}

// The node's run r and the holder's run q are the same, and the target is of a later view: the next runs may be shared too.
fn shared_whole(r: Position, q: Position, t: Position) -> bool
    ensures { result ≡ whole_run r q t }
{
    let v = r.view;
    let w = q.view;
    if v.0 != w.0 {
        return false;
    }
    if r.k != q.k {
        return false;
    }
    let u = t.view;
    w.0 < u.0
}

// Where logs that are the same up to a stop being the same, if the node's log goes on with run r alone and the holder's with q.
fn shared_part(a: Position, r: Position, q: Position, t: Position) -> Position
    ensures { result ≡ shared_after a (r ∷ []) (runs_to t (q ∷ [])) }
{
    let v = r.view;
    let w = q.view;
    let u = t.view;
    if v.0 != w.0 {
        return a;
    }
    if w.0 < u.0 {
        return Position {
            view: v,
            k: min(r.k, q.k),
        };
    }
    if w.0 != u.0 {
        return a;
    }
    if t.k < 1 {
        return a;
    }
    Position {
        view: v,
        k: min(r.k, min(q.k, t.k)),
    }
}

// The cut for shard s of the node whose report has this body, against the holder's body and the target t: run by run, as long as the
// two logs are the same.
pub fn cut(
    body: &[u32; 381],
    len: usize,
    holder: &[u32; 381],
    hlen: usize,
    s: Shard,
    t: Position,
) -> Position
    requires { (len ≤ 127) × (hlen ≤ 127) }
    ensures { result ≡ cut_from body.now len holder.now hlen s.0 t }
{
    let mut a = Position {
        view: View(0),
        k: 0,
    };
    let mut i = next_run(body, len, s, 0);
    let mut j = next_run(holder, hlen, s, 0);
    while i < len {
        if hlen <= j {
            return a;
        }
        let r = run_end(body, i);
        let q = run_end(holder, j);
        if !shared_whole(r, q, t) {
            return shared_part(a, r, q, t);
        }
        a = r;
        i = next_run(body, len, s, i + 1);
        j = next_run(holder, hlen, s, j + 1);
    }
    a
}
