//! How many iterations a loop has.

ghost use Rattle.std.specs.Prelude.{◌≡◌, ◌<◌, ◌↔◌, ℕ, IfOk, IsTrue};
ghost use Rattle.gomp_types.specs.Tests.{first_holding, outcome};
ghost use Rattle.gomp_types.specs.Iterations.{trip_count, iteration_value, lies_before_end, trip_tests};

use gomp_types::{LoopDesc, Refusal};

/// The number of iterations of a loop: iteration `k` is one exactly if its value lies before the end.
pub fn trips(desc: &LoopDesc) -> Result<u64, Refusal>
    ensures count { result ≡ outcome (first_holding (trip_tests desc.now)) (trip_count desc.now) }
    ensures iterations { IfOk result (λ count. (k : ℕ) →
        (k < count) ↔ IsTrue (lies_before_end desc.now (iteration_value desc.now k))) }
{
    gomp_types::trips(desc)
}
