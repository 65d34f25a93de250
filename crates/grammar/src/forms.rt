// Rings and orders as they are written, and their readers.
ghost use Rattle.std.specs.Prelude.{◌≡◌};
ghost use Rattle.grammar.specs.Reading.{seen, seen_as};
ghost use Rattle.grammar.specs.FormReader.{read_mod, read_ring, read_weights, read_order};
ghost use Rattle.grammar.specs.Forms.{order_choice, written_weights};

use crate::bytes::{Next, next_part, number, take_bytes};
use crate::fault::ReadFault;
use crate::line::{OrderForm, Weights};

#[derive(Clone, Copy)]
pub enum RingForm {
    Mod(u64),
    Int,
    QPoly,
}

fn modulus(s: &[u8]) -> Result<(RingForm, &[u8]), ReadFault>
    ensures { seen result ≡ read_mod s.now }
{
    let a = take_bytes(s, b"(mod ")?;
    let (m, b) = number(a)?;
    let rest = take_bytes(b, b")")?;
    Ok((RingForm::Mod(m), rest))
}

pub(crate) fn ring(s: &[u8]) -> Result<(RingForm, &[u8]), ReadFault>
    ensures { seen result ≡ read_ring s.now }
{
    if let Ok(rest) = take_bytes(s, b"(int)") {
        return Ok((RingForm::Int, rest));
    }
    if let Ok(rest) = take_bytes(s, b"(qpoly)") {
        return Ok((RingForm::QPoly, rest));
    }
    modulus(s)
}

// The weights up to the closing bracket, each behind a space. They are kept as numbers and not as pieces, and are at most eight.
fn weights(s: &[u8]) -> Result<(Weights, &[u8]), ReadFault>
    ensures { seen_as written_weights result ≡ read_weights s.now }
{
    let mut weights = Weights::none();
    let mut rest = s;
    loop {
        let (next, after) = next_part(rest)?;
        match next {
            Next::End => return Ok((weights, after)),
            Next::Part => {
                let (weight, more) = number(after)?;
                weights.push(weight)?;
                rest = more;
            }
        }
    }
}

pub(crate) fn order(s: &[u8]) -> Result<(OrderForm, &[u8]), ReadFault>
    ensures { seen_as order_choice result ≡ read_order s.now }
{
    if let Ok(rest) = take_bytes(s, b"(lex)") {
        return Ok((OrderForm::Lex, rest));
    }
    let inner = take_bytes(s, b"(deg")?;
    let (w, rest) = weights(inner)?;
    Ok((OrderForm::Degree(w), rest))
}
