// Numbers drawn from a seed.

ghost use Rattle.std.specs.Prelude.{◌≡◌};
ghost use Rattle.fs_workload.specs.Draws.{next_state, number_of};

use fs_quadratic::Elem;

// The state after the next draw.
pub fn next_state(s: u32) -> u32
    ensures { result ≡ next_state s }
{
    ((1_103_515_245 * u64::from(s) + 12_345) % (1 << 31)) as u32
}

// The number that a state gives.
pub fn number_of(s: u32) -> Elem
    ensures { result ≡ number_of s }
{
    let p = 1 + s / 65_536 % 4;
    let q = s / 1_048_576 % 3;
    Elem::new(i128::from(p), i128::from(q))
}
