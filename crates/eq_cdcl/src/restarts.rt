//! When to go back to level 0 (Luby, Sinclair, Zuckerman, 'Optimal Speedup of Las Vegas Algorithms', 1993).

/// Rounds of conflicts, each as many hundreds as a term of Luby's sequence 1 1 2 1 1 2 4 1 1 2 ..
#[derive(Clone, Copy, Debug)]
pub struct Restarts {
    /// How many conflicts are left of this round.
    left: u64,
    // Knuth's way through the sequence: after the term t of the turn n comes 2 t of the same turn, unless t is the
    // largest power of two that divides n; then comes the term 1 of the next turn.
    turn: u64,
    term: u64,
}

/// How many conflicts make a round for the term 1.
const ROUND: u64 = 100;

impl Restarts {
    pub fn new() -> Restarts {
        Restarts {
            left: ROUND,
            turn: 1,
            term: 1,
        }
    }

    /// Counts a conflict, and answers whether a round ends with it.
    pub fn are_due(&mut self) -> bool {
        if 1 < self.left {
            self.left -= 1;
            return false;
        }
        self.next_round();
        true
    }

    // Begins the round of the sequence's next term.
    fn next_round(&mut self) {
        if self.turn & self.turn.wrapping_neg() == self.term {
            self.turn = self.turn.saturating_add(1);
            self.term = 1;
        } else {
            self.term = self.term.saturating_mul(2);
        }
        self.left = self.term.saturating_mul(ROUND);
    }
}
