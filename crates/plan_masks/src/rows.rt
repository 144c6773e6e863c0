// The row of every mask of held nodes: the number that decide would give.
ghost use Rattle.std.specs.Prelude.{◌^◌, ◌+◌, ◌≤◌, ◌<◌, ◌≡◌, length};
ghost use Rattle.settings_values.specs.Definitions.{nodes, Settings};
ghost use Rattle.plan_masks.specs.Definitions.{Rows};
ghost use Rattle.plan_masks.specs.Rows.{masks_say, RowsFilled};

use report_views::Layout;

// A mask with one node more, above all of its own.
fn above(up: u32, last: u32) -> u32
    requires { (last < 32) × (up + 2 ^ last < 4294967296) }
    ensures { result ≡ up + 2 ^ last }
{
    up + (1u32 << last)
}

// Stores the rows of the masks from `up` on, with the nodes below `undecided` down or up: the last of them down, then up.
fn fill(
    undecided: u32,
    up: u32,
    settings: &[u32],
    v: Layout,
    masks: &[u32; 16],
    rows: &mut [u8; 1024],
)
    requires settings { Settings settings.now }
    requires settings_bound { (nodes settings.now ≤ 10) × (undecided ≤ nodes settings.now) × (length rows.old ≡ 1024) }
    requires undecided_bound { up + 2 ^ undecided ≤ 2 ^ nodes settings.now }
    ensures rows_len { length rows.new ≡ 1024 }
    ensures rows_filled { RowsFilled settings.now (masks_say settings.now v masks.now) undecided up rows.old rows.new }
{
    if undecided == 0 {
        rows[up as usize] = crate::number(settings, v, up, masks);
        return;
    }
    let last = undecided - 1;
    fill(last, up, settings, v, masks, rows);
    fill(last, above(up, last), settings, v, masks, rows);
}

// The row of every mask of the settings' nodes; zeros after them.
pub fn rows_of(settings: &[u32], v: Layout, masks: &[u32; 16]) -> [u8; 1024]
    requires settings { Settings settings.now }
    requires settings_bound { nodes settings.now ≤ 10 }
    ensures { Rows settings.now (masks_say settings.now v masks.now) result }
{
    let mut rows = [0u8; 1024];
    fill(
        settings_values::nodes(settings),
        0,
        settings,
        v,
        masks,
        &mut rows,
    );
    rows
}
