// How a session opens an algebra.
ghost use Rattle.std.specs.Prelude.{◌≡◌};
ghost use Rattle.grammar.specs.Forms.{order_choice};
ghost use Rattle.session.specs.Turns.{ring_from, order_from, opening};
ghost use Rattle.session.specs.Results.{Opens};

use answers::fault::ScriptFault;
use choices::order::AnyOrder;
use choices::ring::AnyRing;
use grammar::forms::RingForm;
use grammar::line::OrderForm;
use relations::count::Count;
use relations::open::Open;

fn chosen_ring(form: RingForm) -> Result<AnyRing, ScriptFault>
    ensures { result ≡ ring_from form }
{
    match form {
        RingForm::Mod(modulus) => {
            let ring = AnyRing::residues(modulus)?;
            Ok(ring)
        }
        RingForm::Int => Ok(AnyRing::integers()),
        RingForm::QPoly => Ok(AnyRing::q_polynomials()),
    }
}

fn chosen_order(form: OrderForm) -> Result<AnyOrder, ScriptFault>
    ensures { result ≡ order_from (order_choice form) }
{
    match form {
        OrderForm::Lex => Ok(AnyOrder::lex()),
        OrderForm::Degree(weights) => {
            let order = AnyOrder::degree(weights.eight())?;
            Ok(order)
        }
    }
}

// An algebra in which no relation is declared yet. The count is checked first, then the modulus, then the weights.
pub(crate) fn open_algebra(
    n: u64,
    ring: RingForm,
    order: OrderForm,
) -> Result<Open<AnyRing, AnyOrder>, ScriptFault>
    ensures { Opens (opening n ring (order_choice order)) result }
{
    let count = Count::try_from(n)?;
    let chosen = chosen_ring(ring)?;
    let by = chosen_order(order)?;
    Ok(Open::new(count, chosen, by))
}
