// All pairs of words of up to three letters, compared under lex and under weighted degree, and in a second way: by what decides, in its order.
use orders::degree::Degree;
use orders::order::{Lex, MonomialOrder};
use orders::weight::{Weight, WeightOutOfRange};
use std::process::Abort;
use std::test::Fail;
use words::measured::Measured;
use words::word::{Word, WordFault};

const WEIGHTS: [u8; 8] = [3, 1, 255, 2, 5, 1, 4, 7];

// The word whose letters are the digits of n in base 9, the lowest first.
fn word(n: u64) -> Result<Word, WordFault> {
    let mut row = [0; 32];
    row[0] = (n % 9) as u8;
    row[1] = (n / 9 % 9) as u8;
    row[2] = (n / 81 % 9) as u8;
    Word::try_from(row)
}

// What decides between words, in its order.
#[derive(PartialEq, Eq, PartialOrd, Ord, Drop)]
struct Place {
    degree: u64,
    counts: [u64; 8],
    inversions: u64,
    letters: [u8; 32],
}

fn falls(x: u8, y: u8) -> bool {
    x > y && y > 0
}

fn weight(weights: &[u8; 8], letter: u8) -> u8 {
    match letter {
        1..=8 => weights[letter as usize - 1],
        _ => 0,
    }
}

fn place_of(weights: &[u8; 8], row: &[u8; 32]) -> Place {
    let [a, b, c] = [row[0], row[1], row[2]];
    let counts = [1, 2, 3, 4, 5, 6, 7, 8].map(|x| u64::from(a == x)
        + u64::from(b == x)
        + u64::from(c == x));
    Place {
        degree: weight(weights, a) as u64 + weight(weights, b) as u64 + weight(weights, c) as u64,
        counts,
        inversions: falls(a, b) as u64 + falls(a, c) as u64 + falls(b, c) as u64,
        letters: *row,
    }
}

// Every pair of words, compared under the order and by places; without weights all degrees are 0.
fn agrees<O: MonomialOrder>(rt: &impl Abort, order: &O, weights: &[u8; 8]) {
    for m in 0..729u64 {
        if let Ok(a) = word(m) {
            let first = Measured::new(a.row());
            for n in 0..729u64 {
                if let Ok(b) = word(n) {
                    let want = place_of(weights, &a.row()).cmp(&place_of(weights, &b.row()));
                    assert_eq!(rt; a.compare(order, &b), want);
                    assert_eq!(rt; first.compare_with(order, &b.row()), want);
                }
            }
        }
    }
}

#[test]
fn all_words(rt: HostRuntime) -> Result<(), Fail> {
    assert_eq!(rt; (0..729u64).filter(|n| word(*n).is_ok()).count(), 585);
    Ok(())
}

#[test]
fn lex(rt: HostRuntime) {
    agrees(&rt, &Lex, &[0; 8]);
}

#[test]
fn degree(rt: HostRuntime) -> Result<(), Fail> {
    let weights = WEIGHTS.try_map(|w| Weight::try_from(u64::from(w)))?;
    agrees(&rt, &Degree::new(weights), &WEIGHTS);
    Ok(())
}
