// Where the relation of a pair stands, and the word that a relation exchanges a pair to.
ghost use Rattle.std.specs.Prelude.{◌≡◌, ◌<◌, [], ◌∷◌};
ghost use Rattle.orders.specs.Letters.{letters};
ghost use Rattle.run.specs.Relations.{pair_place};

use crate::pair::Pair;
use crate::row::row_of;
use orders::letter::Row;
use run::relation::Relation;

impl Pair {
    // The place of the relation in a table.
    pub(crate) fn place(&self) -> usize
        ensures value { result ≡ pair_place self.now.j.number self.now.i.number }
        ensures bound { result < 64 }
    {
        Relation::pair_place(self.j, self.i)
    }

    // The word x_i x_j.
    pub(crate) fn row(&self) -> Row
        ensures { letters result ≡ self.now.i.number ∷ self.now.j.number ∷ [] }
    {
        row_of(&[self.i, self.j])
    }
}
