ghost use Rattle.std.specs.Prelude.{◌≡◌, ◌↔◌, ℕ, List, IsTrue};
ghost use Rattle.qu_waiting.specs.Fetching.{same_bytes};

/// Answers are counted together exactly where they are equal.
pub fn same_bytes_are_equal()
    ensures { (text other : List ℕ) → IsTrue (same_bytes text other) ↔ (text ≡ other) }
{}
