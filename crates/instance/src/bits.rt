// The bits of an assignment's number.
ghost use Rattle.std.specs.Prelude.{◌<◌, ◌^◌};
ghost use Rattle.instance.specs.Tests.{Decides};

// Whether an assignment has no bit from n up.
pub fn within(a: u64, n: u64) -> bool
    ensures { Decides result (a < 2 ^ n) }
{
    if n < 64 {
        return a >> n == 0;
    }
    true
}
