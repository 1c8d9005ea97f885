ghost use Rattle.std.specs.Prelude.{◌≡◌, ◌<◌, ◌++◌, ◌∷◌, [], length};

use qu_base::ObjectId;
use std::marker::Model;

/// How many pairs there is room for.
const ROOM: usize = 4;

/// What stands behind the last pair.
const BLANK: (ObjectId, u64) = (ObjectId(0), 0);

/// Objects, each with a time: at most four, in place.
#[derive(Clone, Copy)]
pub(crate) struct Pairs {
    len: usize,
    cells: [(ObjectId, u64); ROOM],
}

impl Model for Pairs {
    ghost use Rattle.std.specs.Prelude.{◌≡◌, ℕ, ◌-◌, ◌≤◌, List, length, take, drop, ◌++◌};
    ghost use Rattle.std.proofs.Common.{arith, sym, ap, ◌∙◌, take-append-drop, length-take-le};
    ghost use Rattle.qu_base.specs.declared.party.ObjectId.{ObjectId};
    ghost use Rattle.qu_stamp.specs.Blanks.{room, blanks};

    ghost Value = { List (ObjectId × ℕ) };

    ghost view = { λ pairs. take pairs.len pairs.cells };

    ghost invariant = { λ pairs. (pairs.len ≤ room) × (length pairs.cells ≡ room)
        × (drop pairs.len pairs.cells ≡ blanks (room - pairs.len)) };

    ghost inverse = { λ pairs. record { len = length pairs; cells = pairs ++ blanks (room - length pairs) } };

    ghost inverse_ok = { λ pairs whole.
        let size = length-take-le pairs.len pairs.cells (omega (arith, whole.0, whole.1)) in
        let cells = ap (λ (many : ℕ). take pairs.len pairs.cells ++ blanks (room - many)) size
        ∙ ap (λ (rest : List (ObjectId × ℕ)). take pairs.len pairs.cells ++ rest) (sym whole.2)
        ∙ take-append-drop pairs.len pairs.cells in
        λ i. record { len = size i; cells = cells i } };
}

impl Pairs {
    ghost use Rattle.qu_stamp.specs.Blanks.{room};

    /// No pair.
    pub(crate) const fn none() -> Pairs
        ensures { result ≡ [] }
    {
        Pairs {
            len: 0,
            cells: [BLANK; ROOM],
        }
    }

    /// Puts a pair at the end.
    #[tactic(auto, using(crate::proofs::Blanks::blanks_behind))]
    pub(crate) fn push(&mut self, pair: (ObjectId, u64))
        requires { length self.old < room }
        ensures { self.new ≡ self.old ++ pair ∷ [] }
    {
        self.cells[self.len] = pair;
        self.len += 1;
    }

    pub(crate) fn as_slice(&self) -> &[(ObjectId, u64)]
        ensures { result.now ≡ self.now }
    {
        &self.cells[..self.len]
    }
}
