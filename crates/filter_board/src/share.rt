// What a hand has of its board.
ghost use Rattle.std.specs.Prelude.{ℕ, List, Bool};
ghost use Rattle.std.specs.Borrow.{ftrue};
ghost use Rattle.transfer_core.specs.Actors.{Actor};

use std::marker::Model;

/// It is for proofs alone: no value of it is made.
pub struct Share {
    // What the hand knows.
    pub ghost actor: { Actor },
    // For each pipe a mark, whether the hand was told that no morsel is left.
    pub ghost told: { List Bool },
    // Its parts of the board.
    pub ghost parts: { ℕ },
}

impl Model for Share {
    ghost also_owns = { λ _. ftrue };
}
