// How counts are made, which letters they give, and what their refusal says.
ghost use Rattle.std.specs.Prelude.{◌≡◌, ◌≤◌, true, false, MatchOption, MatchResult};
ghost use Rattle.relations.specs.Counts.{is_count, count_refusal};
ghost use Rattle.relations.specs.Declare.{is_generator};

use crate::count::{Count, CountOutOfRange};
use orders::letter::Letter;
use refusals::Refusal;

impl TryFrom<u64> for Count {
    type Error = CountOutOfRange;

    ghost try_from_gives = { λ n r. MatchResult r (λ k. (is_count n ≡ true) × (k.n ≡ n)) (λ _. is_count n ≡ false) };

    fn try_from(n: u64) -> Result<Count, CountOutOfRange> {
        if n < 1 || n > 8 {
            return Err(CountOutOfRange);
        }
        Ok(Count { n })
    }
}

impl Count {
    pub fn value(&self) -> u64
        ensures value { result ≡ self.now.n }
        ensures bound { (1 ≤ result) × (result ≤ 8) }
    {
        self.n
    }

    // The letter of a generator; None where no generator has the number.
    pub fn letter(&self, x: u64) -> Option<Letter>
        ensures { MatchOption result (is_generator self.now.n x ≡ false) (λ l. (is_generator self.now.n x ≡ true) × (l.number ≡ x)) }
    {
        if x > self.n {
            return None;
        }
        Letter::new(x)
    }
}

impl From<CountOutOfRange> for Refusal {
    ghost from_gives = { λ e r. r ≡ count_refusal e };

    fn from(_: CountOutOfRange) -> Refusal {
        Refusal::plain(1, 3)
    }
}
