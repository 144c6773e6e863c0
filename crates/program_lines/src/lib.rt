// What a run prints, as text in lent bytes. Each function puts its text from a place on and answers the place after it; what
// would lie past the end of the bytes is left out.
#![tactic(auto)]

pub mod decision;

ghost use Rattle.std.specs.Prelude.{◌++◌, ◌≤◌, ◌<◌, length};
ghost use Rattle.program_text.specs.Definitions.{number_line, field as Text·field, line as Text·line, Puts};
ghost use Rattle.program_lines.specs.Definitions.{member, members_below};
ghost use Rattle.program_lines.specs.Definitions as Definitions;
ghost use Rattle.program_lines.specs.Lines as Lines;

use base_ids::{Node, Position, Refusal, Shard};
use report_views::{Plan, Reason};

// Two labels, each with its number.
fn put_fields(out: &mut [u8], at: usize, label: &[u8], n: u32, second: &[u8], m: u32) -> usize
    requires { at ≤ length out.old }
    ensures { Puts out.old at (Text·field label.now n ++ Text·field second.now m) out.new result }
{
    let next = program_text::put_field(out, at, label, n);
    program_text::put_field(out, next, second, m)
}

// A node of a mask.
fn put_member(out: &mut [u8], at: usize, mask: u32, n: usize) -> usize
    requires at_in_bounds { at ≤ length out.old }
    requires n_bound { n < 32 }
    ensures { Puts out.old at (member mask n) out.new result }
{
    if base_masks::has(mask, n) {
        return program_text::put_field(out, at, b" ", n as u32);
    }
    at
}

// The nodes of a mask, ascending.
fn put_members(out: &mut [u8], at: usize, mask: u32) -> usize
    requires { at ≤ length out.old }
    ensures { Puts out.old at (members_below 32 mask) out.new result }
{
    let mut next = at;
    for n in 0..32 {
        next = put_member(out, next, mask, n);
    }
    next
}

// The end of a shard's line.
fn put_carriers(out: &mut [u8], at: usize, mask: u32) -> usize
    requires { at ≤ length out.old }
    ensures { Puts out.old at (Lines.carriers mask) out.new result }
{
    let label = program_text::put_text(out, at, b" members");
    let members = put_members(out, label, mask);
    program_text::put_byte(out, members, b'\n')
}

// The line of a shard by its holder, target and mask.
fn put_entry(
    out: &mut [u8],
    at: usize,
    s: Shard,
    holder: Node,
    target: Position,
    mask: u32,
) -> usize
    requires { at ≤ length out.old }
    ensures { Puts out.old at (Lines.shard_text s.0 holder.0 target mask) out.new result }
{
    let view = target.view;
    let first = put_fields(out, at, b"shard ", s.0, b" holder ", holder.0);
    let second = put_fields(out, first, b" target ", view.0, b" ", target.k);
    put_carriers(out, second, mask)
}

// The line of a shard.
fn put_shard(out: &mut [u8], at: usize, plan: Plan, s: usize) -> usize
    requires at_in_bounds { at ≤ length out.old }
    requires s_bound { s < 16 }
    ensures { Puts out.old at (Definitions.shard_line plan s) out.new result }
{
    let layout = plan.layout;
    put_entry(
        out,
        at,
        Shard(s as u32),
        plan.holders[s],
        plan.targets[s],
        layout.masks[s],
    )
}

// The lines of the shards below n.
fn put_shards(out: &mut [u8], at: usize, plan: Plan, n: usize) -> usize
    requires at_in_bounds { at ≤ length out.old }
    requires n_bound { n ≤ 16 }
    ensures { Puts out.old at (Definitions.shard_lines plan n) out.new result }
{
    let mut next = at;
    for s in 0..n {
        next = put_shard(out, next, plan, s);
    }
    next
}

// The lines of a plan of n shards.
pub fn plan_lines(out: &mut [u8], plan: Plan, n: usize) -> usize
    requires { n ≤ 16 }
    ensures { Puts out.old 0 (Definitions.plan_lines plan n) out.new result }
{
    let layout = plan.layout;
    let number = layout.number;
    let view = program_text::put_line(out, 0, b"view ", number.0);
    let moves = program_text::put_line(out, view, b"moves ", plan.total);
    put_shards(out, moves, plan, n)
}

// The line of a refusal.
pub fn number_line(out: &mut [u8], refusal: Refusal) -> usize
    ensures { Puts out.old 0 (number_line refusal) out.new result }
{
    program_text::put_number(out, 0, refusal)
}

// The line of a wait that names nothing, and of one that names a shard or a subgroup.
fn wait_of(out: &mut [u8], reason: u32) -> usize
    ensures { Puts out.old 0 (Text·line Definitions.wait_label reason) out.new result }
{
    program_text::put_line(out, 0, b"wait ", reason)
}

fn wait_for(out: &mut [u8], reason: u32, value: u32) -> usize
    ensures { Puts out.old 0 (Definitions.wait_for reason value) out.new result }
{
    let next = program_text::put_field(out, 0, b"wait ", reason);
    program_text::put_line(out, next, b" ", value)
}

// The line of a wait: its reason, then its shard or subgroup if there is one.
pub fn wait_line(out: &mut [u8], reason: Reason) -> usize
    ensures { Puts out.old 0 (Definitions.wait_line reason) out.new result }
{
    match reason {
        Reason::NoView => wait_of(out, 1),
        Reason::NoMajority => wait_of(out, 2),
        Reason::TooFew => wait_of(out, 3),
        Reason::NoHolder(shard) => wait_for(out, 4, shard.0),
        Reason::NoPlacement(group) => wait_for(out, 5, group),
    }
}
