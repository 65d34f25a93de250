// What a line of a script holds.
ghost use Rattle.std.specs.Prelude.{◌≡◌, ◌≤◌, [], ◌∷◌, ◌++◌, length, OnOk, IfErr};

use crate::fault::ReadFault;
use crate::forms::RingForm;
use crate::piece::Piece;

// The weights as they are written: the first `count` of eight places, since a form is `Copy`.
#[derive(Clone, Copy)]
pub struct Weights {
    values: [u64; 8],
    count: usize,
    ghost in_range: { count ≤ 8 },
}

impl Weights {
    ghost use Rattle.grammar.specs.Forms.{written_weights, padded};
    ghost use Rattle.grammar.specs.declared.fault.ReadFault.TheVariants.{Misfit};

    pub(crate) fn none() -> Weights
        ensures { written_weights result ≡ [] }
    {
        Weights {
            values: [1; 8],
            count: 0,
        }
    }

    // Keeps one more, but no ninth.
    pub(crate) fn push(&mut self, weight: u64) -> Result<(), ReadFault>
        ensures ok { OnOk result (written_weights self.new ≡ written_weights self.old ++ weight ∷ []) }
        ensures err { IfErr result (λ e. (e ≡ Misfit) × (length (written_weights self.old) ≡ 8)) }
    {
        if self.count == 8 {
            return Err(ReadFault::Misfit);
        }
        self.values[self.count] = weight;
        self.count += 1;
        Ok(())
    }

    // All eight: those that were written, then ones.
    pub fn eight(&self) -> [u64; 8]
        ensures { result ≡ padded (written_weights self.now) }
    {
        let mut all = [1; 8];
        all[..self.count].copy_from_slice(&self.values[..self.count]);
        all
    }
}

#[derive(Clone, Copy)]
pub enum OrderForm {
    Lex,
    Degree(Weights),
}

// A form. The tail of a relation is the pieces of its terms, of each its coefficient and then its generators, and an expression is its
// postfix form.
#[derive(Clone, Copy)]
pub enum Line<'p, 'a> {
    Algebra(u64, RingForm, OrderForm),
    Rel(u64, u64, &'a [u8], &'p [Piece<'a>]),
    Decide,
    Calc(&'p [Piece<'a>]),
}
