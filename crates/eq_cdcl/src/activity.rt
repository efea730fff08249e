//! Which variable to decide: one that the analysis of many conflicts of late came upon.
use eq_base::Memory;
use eq_proof::Lit;
use std::alloc::Global;

/// A score for each variable, and what the analysis of a conflict adds to the scores of the variables that it marks.
#[derive(Debug, Drop)]
pub struct Activity {
    scores: Vec<u64>,
    weight: u64,
}

/// The first weight, large enough that a sixteenth of it is a whole number.
const FIRST_WEIGHT: u64 = 1 << 20;

/// A weight from which on all scores are scaled down.
const LARGE_WEIGHT: u64 = 1 << 58;

/// How many bits the scores and the weight lose then.
const SCALED_BITS: u32 = 38;

impl Activity {
    /// All variables below `size` have the score 0.
    pub fn new(alloc: Global, size: usize) -> Result<Activity, Memory> {
        Ok(Activity {
            scores: vec![in alloc; 0; size]?,
            weight: FIRST_WEIGHT,
        })
    }

    pub fn score(&self, var: u32) -> u64 {
        self.scores.get(var as usize).copied().unwrap_or(0)
    }

    /// Raises the score of a variable that the analysis of a conflict marks.
    pub fn bump(&mut self, l: Lit) {
        if let Some(score) = self.scores.get_mut(l.var() as usize) {
            *score = score.saturating_add(self.weight);
        }
    }

    /// Ends the analysis of a conflict. The next one weighs more by a sixteenth.
    pub fn decay(&mut self) {
        self.weight = self.weight.saturating_add(self.weight / 16);
        if self.weight >= LARGE_WEIGHT {
            self.scale_down();
        }
    }

    // Scales all scores and the weight down alike.
    fn scale_down(&mut self) {
        for score in &mut self.scores {
            *score = *score >> SCALED_BITS;
        }
        self.weight = self.weight >> SCALED_BITS;
    }
}
