// The text of a readiness sheet in lent bytes: a line for every mask of held nodes, and the line of counts. What would lie past the end of the
// bytes is left out.
#![tactic(auto)]

ghost use Rattle.std.specs.Prelude.{◌^◌, ◌≤◌, ◌≡◌, length};
ghost use Rattle.program_text.specs.Definitions.{field, space, Puts};
ghost use Rattle.program_sheet_text.specs.Definitions as Definitions;
ghost use Rattle.program_sheet_text.specs.Sheets as Sheets;

// The line of a mask: the mask and its number.
fn put_row(out: &mut [u8], at: usize, mask: u32, number: u8) -> usize
    requires { at ≤ length out.old }
    ensures { Puts out.old at (Definitions.mask_line mask number) out.new result }
{
    let next = program_text::put_decimal(out, at, mask);
    program_text::put_line(out, next, b" ", u32::from(number))
}

// The lines of the first count masks, from the start of the lent bytes on.
fn put_rows(out: &mut [u8], rows: &[u8; 1024], count: u32) -> usize
    requires { count ≤ 1024 }
    ensures { Puts out.old 0 (Sheets.lines_below rows.now count) out.new result }
{
    let mut next = 0;
    for mask in 0..count {
        next = put_row(out, next, mask, rows[base_ids::wide(mask)]);
    }
    next
}

// How many of the first count rows have a number.
fn rows_with(rows: &[u8; 1024], count: u32, number: u8) -> u32
    requires { count ≤ 1024 }
    ensures { result ≡ Definitions.rows_with rows.now count number }
{
    let mut found: u32 = 0;
    for mask in 0..count {
        found += u32::from(rows[base_ids::wide(mask)] == number);
    }
    found
}

// A space, and how many of the first count rows have a number.
fn put_count(out: &mut [u8], at: usize, rows: &[u8; 1024], count: u32, number: u8) -> usize
    requires { (at ≤ length out.old) × (count ≤ 1024) }
    ensures { Puts out.old at (field space (Definitions.rows_with rows.now count number)) out.new result }
{
    program_text::put_field(out, at, b" ", rows_with(rows, count, number))
}

// The last line: how many rows have a plan, and how many each of waits 2 to 5.
fn put_counts(out: &mut [u8], at: usize, rows: &[u8; 1024], count: u32) -> usize
    requires { (at ≤ length out.old) × (count ≤ 1024) }
    ensures { Puts out.old at (Definitions.counts_line rows.now count) out.new result }
{
    let plans = program_text::put_decimal(out, at, rows_with(rows, count, 0));
    let second = put_count(out, plans, rows, count, 2);
    let third = put_count(out, second, rows, count, 3);
    let fourth = put_count(out, third, rows, count, 4);
    let fifth = put_count(out, fourth, rows, count, 5);
    program_text::put_byte(out, fifth, b'\n')
}

// How many masks of so many nodes there are.
fn masks_of(nodes: u32) -> u32
    requires { nodes ≤ 10 }
    ensures { result ≡ 2 ^ nodes }
{
    1u32 << nodes
}

// The whole sheet.
pub fn put_sheet(out: &mut [u8], rows: &[u8; 1024], nodes: u32) -> usize
    requires { nodes ≤ 10 }
    ensures { Puts out.old 0 (Definitions.sheet_text rows.now nodes) out.new result }
{
    let count = masks_of(nodes);
    let next = put_rows(out, rows, count);
    put_counts(out, next, rows, count)
}
