// Where a term belongs in a list whose words fall: from the front in doubling strides, then by halves.
ghost use Rattle.std.specs.Prelude.{◌≡◌, ◌<◌, ◌≤◌, length, drop, IfOk, IfErr, Err};
ghost use Rattle.kept.specs.Falling.{ListFrom};
ghost use Rattle.kept.specs.Search.{Near, Settled, found_place, measured_term};

use orders::order::MonomialOrder;
use std::cmp::Ordering;
use std::ops::Range;
use words::measured::Measured;
use words::term::Term;

// The place of the term's word, or between which places it belongs: from the front, in doubling strides, for which the library has no
// search.
fn stride<O: MonomialOrder>(
    order: &O,
    work: &[Term],
    start: usize,
    t: &Measured,
) -> Result<usize, Range<usize>>
    requires { start ≤ length work.now }
    ensures { Near (O.model order.now) work.now start (measured_term t.now) result }
{
    let mut low = start;
    let mut high = start;
    let mut step = 1usize;
    while high < work.len() {
        match t.compare_with(order, &work[high].row) {
            Ordering::Less => {
                low = high + 1;
                let left = work.len() - low;
                high = if step < left { low + step } else { work.len() };
                step = step.saturating_mul(2);
            }
            Ordering::Equal => return Ok(high),
            Ordering::Greater => return Err(low..high),
        }
    }
    Err(low..work.len())
}

// The place of the term's word, or where it belongs: between two places, by halves. The slice's own binary search does not end at the word
// itself and compares once more at the end: the plain run of the benchmark took up to 8 percent longer with it.
fn halve<O: MonomialOrder>(
    order: &O,
    work: &[Term],
    start: usize,
    between: Range<usize>,
    t: &Measured,
) -> Result<usize, usize>
    requires { Near (O.model order.now) work.now start (measured_term t.now) (Err between) }
    ensures { Settled (O.model order.now) work.now start (measured_term t.now) result }
{
    let Range {
        start: mut low,
        end: mut high,
    } = between;
    while low < high {
        let middle = low + (high - low) / 2;
        match t.compare_with(order, &work[middle].row) {
            Ordering::Less => low = middle + 1,
            Ordering::Equal => return Ok(middle),
            Ordering::Greater => high = middle,
        }
    }
    Err(low)
}

// The place of the term's word, or where it belongs.
pub fn find_place<O: MonomialOrder>(
    order: &O,
    work: &[Term],
    start: usize,
    t: &Measured,
) -> Result<usize, usize>
    requires { ListFrom (O.model order.now) start work.now }
    ensures value { result ≡ found_place (O.model order.now) start (measured_term t.now) (drop start work.now) }
    ensures here { IfOk result (λ p. (start ≤ p) × (p < length work.now)) }
    ensures absent { IfErr result (λ p. (start ≤ p) × (p ≤ length work.now)) }
{
    match stride(order, work, start, t) {
        Ok(p) => Ok(p),
        Err(between) => halve(order, work, start, between, t),
    }
}
