// How relations are made, and what is asked of them.
ghost use Rattle.std.specs.Prelude.{◌≡◌, ◌<◌, ◌≤◌, length, IfSome, MatchOption};
ghost use Rattle.run.specs.Relations.{pair_place, relation_of, tail_of, made_relation};

use crate::relation::{Relation, TAIL_TERMS, Table};
use orders::letter::Letter;
use words::term::Term;

impl Relation {
    // None where the tail has too many terms.
    pub fn new(factor: u64, tail: &[Term]) -> Option<Relation>
        ensures says { MatchOption result (8 < length tail.now) (λ x. (x.factor ≡ factor) × (tail_of x ≡ tail.now)) }
        ensures whole { IfSome result (λ x. x ≡ made_relation factor tail.now) }
    {
        let count = tail.len();
        if count > TAIL_TERMS {
            return None;
        }
        let mut terms = [Term::blank(); TAIL_TERMS];
        terms[0..count].copy_from_slice(tail);
        Some(Relation {
            factor,
            count,
            tail: terms,
        })
    }

    pub fn factor(&self) -> u64
        ensures { result ≡ self.now.factor }
    {
        self.factor
    }

    pub fn tail(&self) -> &[Term]
        ensures { result.now ≡ tail_of self.now }
    {
        &self.tail[0..self.count]
    }

    // The place of the relation of x_j x_i in a table.
    pub fn pair_place(j: Letter, i: Letter) -> usize
        ensures value { result ≡ pair_place j.number i.number }
        ensures bound { result < 64 }
    {
        let j = j.number() as usize;
        let i = i.number() as usize;
        8 * (j - 1) + (i - 1)
    }

    // The relation of x_j x_i.
    pub fn of_letters(table: &Table, j: Letter, i: Letter) -> &Relation
        ensures { result.now ≡ relation_of table.now j.number i.number }
    {
        &table[Relation::pair_place(j, i)]
    }

    // The same, where the letters are numbers yet.
    pub fn of_pair(table: &Table, j: u8, i: u8) -> &Relation
        requires { (0 < j) × ((j ≤ 8) × ((0 < i) × (i ≤ 8))) }
        ensures { result.now ≡ relation_of table.now j i }
    {
        let place = 8 * (j as usize - 1) + (i as usize - 1);
        &table[place]
    }
}
