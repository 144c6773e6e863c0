// The sum of bytes.
#![tactic(auto)]

ghost use Rattle.std.specs.Prelude.{◌≡◌, ◌≤◌, length};
ghost use Rattle.program_sums.specs.Definitions.{sum_of};

// The sum of bytes, of which there are not too many for 16 bits: the compiler adds up eight at a time.
fn sum_of_few(bytes: &[u8]) -> u16
    requires { length bytes.now ≤ 256 }
    ensures { result ≡ sum_of bytes.now }
{
    let mut sum = 0;
    for x in bytes {
        sum += u16::from(*x);
    }
    sum
}

// The sum of bytes, of which there are not too many for 32 bits.
pub fn sum_of(bytes: &[u8]) -> u32
    requires { length bytes.now ≤ 32768 }
    ensures { result ≡ sum_of bytes.now }
{
    let mut sum = 0;
    for few in bytes.chunks(256) {
        sum += u32::from(sum_of_few(few));
    }
    sum
}
