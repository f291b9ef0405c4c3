// The answer to a question about pairs of states, and what it cost to tell.
ghost use Rattle.std.specs.Prelude.{◌≡◌, not, ◌&&◌};

use std::ops::{BitAnd, Not};

// Yes or no, and how many pairs were visited to tell.
#[derive(Clone, Copy, Debug)]
pub struct Answer {
    pub yes: bool,
    pub visited: usize,
}

impl Answer {
    // What is told without a visit.
    pub fn known(yes: bool) -> Self
        ensures { result.yes ≡ yes }
    {
        Answer { yes, visited: 0 }
    }
}

// Whether both are so; their visits add up.
impl BitAnd for Answer {
    type Output = Answer;

    ghost bitand_gives = { λ a b both. both.yes ≡ (a.yes && b.yes) };

    fn bitand(self, other: Answer) -> Answer {
        Answer {
            yes: self.yes & other.yes,
            visited: self.visited.saturating_add(other.visited),
        }
    }
}

impl Not for Answer {
    type Output = Answer;

    ghost not_gives = { λ a other. other.yes ≡ not a.yes };

    fn not(self) -> Answer {
        Answer {
            yes: !self.yes,
            visited: self.visited,
        }
    }
}
