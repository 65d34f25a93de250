// What is asked of the word that a plain row holds.
ghost use Rattle.std.specs.Prelude.{◌≡◌, ◌≤◌, length, if◌then◌else◌};
ghost use Rattle.orders.specs.Letters.{letters, is_letter, row_places};
ghost use Rattle.orders.specs.Orders.{first_difference};
ghost use Rattle.words.specs.Compare.{compare_words};
ghost use Rattle.words.specs.Inversions.{inversions as inversions_of, standard, leftmost_inversion};
ghost use Rattle.words.specs.Laws.{StandardWords};

use crate::measured::Measured;
use orders::letter::{ROW_LENGTH, Row, is_letter};
use orders::order::MonomialOrder;
use std::cmp::Ordering;

// How many letters there are.
pub fn row_length(row: &Row) -> usize
    ensures value { result ≡ length (letters row.now) }
    ensures bound { result ≤ row_places }
{
    row.iter().take_while(|x| is_letter(**x)).count()
}

// The letters before this place have at most 253 inversions, and those from it to the end of a row add at most 243.
const REDUCE_AT: usize = 23;

// How many pairs of places have the larger letter on the left. The letters so far are counted in the bytes of one number, that of x1 the
// highest; below the byte of a letter are those of the larger letters. These low parts are added up, and what 255 leaves of a sum is the
// sum of its bytes as long as that is less than 255, so two remainders do for a whole row, one for each part.
pub fn row_inversions(row: &Row) -> usize
    ensures { result ≡ inversions_of (letters row.now) }
{
    let mut seen = 0u64;
    let mut n = 0;
    for part in [&row[..REDUCE_AT], &row[REDUCE_AT..]] {
        let mut sum = 0u64;
        for x in part {
            if !is_letter(*x) {
                return n + (sum % 255) as usize;
            }
            let unit = 1u64 << (64 - 8 * *x);
            sum += seen & (unit - 1);
            seen += unit;
        }
        n += (sum % 255) as usize;
    }
    n
}

// The place, counted from 0, of the left letter of the leftmost inversion of neighbours.
pub fn row_leftmost_inversion(row: &Row) -> Option<usize>
    ensures { result ≡ leftmost_inversion (letters row.now) }
{
    if !is_letter(row[0]) {
        return None;
    }
    // measured: as a chain over the zip of the row with itself one place on, this takes 15 % longer, and a run asks it at every step
    for i in 1..ROW_LENGTH {
        if !is_letter(row[i]) {
            return None;
        }
        if row[i] < row[i - 1] {
            return Some(i - 1);
        }
    }
    None
}

// Whether the letters never fall from left to right.
pub fn row_is_standard(row: &Row) -> bool
    ensures { result ≡ standard (letters row.now) }
{
    row_leftmost_inversion(row).is_none()
}

// Later image, then more inversions, then the larger letter at the first difference. Inversions are counted only for different words of
// one image.
pub fn compare_rows<O: MonomialOrder>(order: &O, a: &Row, b: &Row) -> Ordering
    ensures { result ≡ compare_words (O.model order.now) (letters a.now) (letters b.now) }
{
    Measured::new(*a).compare_with(order, b)
}

fn letter_or_zero(x: u8) -> u8
    ensures { result ≡ (if is_letter x then x else 0) }
{
    if is_letter(x) { x } else { 0 }
}

// By the letters at the first difference; a word comes before those that it is the beginning of.
pub(crate) fn first_letter_difference(a: &Row, b: &Row) -> Ordering
    ensures { result ≡ first_difference (letters a.now) (letters b.now) }
{
    for (x, y) in a.iter().zip(b.iter()) {
        if x != y {
            return letter_or_zero(*x).cmp(&letter_or_zero(*y));
        }
        if !is_letter(*x) {
            break;
        }
    }
    Ordering::Equal
}

// Standard words are those without inversions, and what the leftmost inversion is.
pub fn standard_words_are_told()
    ensures { StandardWords }
{}
