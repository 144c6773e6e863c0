// The ends of a report's logs, each as one number: 2^32 times its view and its k.
ghost use Rattle.std.specs.Prelude.{◌≡◌, ◌<◌, ◌≤◌, ◌+◌, ◌*◌};
ghost use Rattle.report_desk.specs.Ends.{ends_of, end_noted};

// The number of a position.
fn number(view: u32, k: u32) -> u64
    ensures { result ≡ 4294967296 * view + k }
{
    4294967296 * (view as u64) + k as u64
}

// Stores the end that record j gives, if it is a run.
fn note_end(ends: &mut [u64; 16], body: &[u32; 381], j: usize)
    requires { j < 127 }
    ensures { ends.new ≡ end_noted body.now j ends.old }
{
    let tag = base_ids::wide(body[3 * j]);
    if tag < 768 {
        return;
    }
    if 784 <= tag {
        return;
    }
    ends[tag - 768] = number(body[3 * j + 1], body[3 * j + 2]);
}

// The end of each shard's log.
pub fn ends_of(body: &[u32; 381], len: usize) -> [u64; 16]
    requires { len ≤ 127 }
    ensures { result ≡ ends_of body.now len }
{
    let mut ends = [0u64; 16];
    for j in 0..len {
        note_end(&mut ends, body, j);
    }
    ends
}
