// The law of staircases.

ghost use Rattle.std.specs.Prelude.{ℕ, ◌≤◌};
ghost use Rattle.std.specs.List.{AllByRecursion};
ghost use Rattle.fs_gluing.specs.FirstFault.{PassesOf, tests_of};
ghost use Rattle.fs_workload.specs.Staircase.{staircase_shape};

/// The surface of each staircase of 1 to 200 rectangles is built: its shape passes each test of `build`. This is a law
/// about the definitions: the call itself does nothing.
pub fn staircase_builds()
    ensures passes { (k seed : ℕ) → 1 ≤ k → k ≤ 200 → AllByRecursion (PassesOf 2 (staircase_shape k seed)) (tests_of (staircase_shape k seed)) }
{}
