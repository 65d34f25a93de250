// What a calculation begins with.
ghost use Rattle.std.specs.Prelude.{List};
ghost use Rattle.coefficients.specs.Coding.{Coding};
ghost use Rattle.kept.specs.Lists.{items, places};
ghost use Rattle.run.specs.declared.relation.Relation.{Relation};
ghost use Rattle.run.specs.Entries.{Entry, load};
ghost use Rattle.run.specs.Post.{Left};

use crate::fault::RunFault;
use crate::rules::Rules;
use coefficients::ring::Ring;
use kept::list::KeptList;
use orders::order::MonomialOrder;

pub trait Source {
    // what is loaded, under the coding of a ring and the relations of a table
    ghost entries: { Self → Coding → List Relation → List Entry };

    // Inserts the entries one after another.
    fn load<R: Ring, O: MonomialOrder>(
        &self,
        rules: &Rules<R, O>,
        list: &mut KeptList<O>,
    ) -> Result<(), RunFault>
        ensures { Left (load (R.model rules.now.ring) (O.model list.old.order.now) (places list.old) (entries self.now (R.model rules.now.ring) rules.now.table) (items list.old)) list.old list.new result };
}
