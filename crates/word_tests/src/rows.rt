// Rows accepted and refused, and words that grow.
use refusals::Refusal;
use std::test::Fail;
use words::term::Term;
use words::word::{Word, WordFault};

// A row that begins with these three, then zeros.
fn row(a: u8, b: u8, c: u8) -> [u8; 32] {
    let mut row = [0; 32];
    row[0] = a;
    row[1] = b;
    row[2] = c;
    row
}

#[test]
fn accepted(rt: HostRuntime) -> Result<(), Fail> {
    for (a, b, c, n) in [(0, 0, 0, 0), (8, 0, 0, 1), (1, 8, 0, 2), (8, 1, 8, 3)] {
        let word = Word::try_from(row(a, b, c))?;
        assert_eq!(rt; word.row(), row(a, b, c));
        assert_eq!(rt; word.len(), n);
    }
    assert_eq!(rt; Word::try_from([8; 32])?.len(), 32);
    Ok(())
}

#[test]
fn refused(rt: HostRuntime) {
    for (a, b, c) in [
        (0, 1, 0),
        (0, 0, 8),
        (1, 0, 1),
        (9, 0, 0),
        (1, 2, 9),
        (1, 255, 0),
        (0, 9, 0),
    ] {
        assert!(rt; Word::try_from(row(a, b, c)).is_err());
    }
    assert_eq!(rt; Refusal::from(WordFault::NoWord), Refusal::plain(2, 3));
}

#[test]
fn growth(rt: HostRuntime) {
    let mut word = Word::empty();
    for n in 0..32usize {
        assert_eq!(rt; word.len(), n);
        assert_eq!(rt; word.push(0), Err(WordFault::BadLetter));
        assert_eq!(rt; word.push(9), Err(WordFault::BadLetter));
        assert_eq!(rt; word.push(257), Err(WordFault::BadLetter));
        assert_eq!(rt; word.push(8), Ok(()));
    }
    assert_eq!(rt; word.push(9), Err(WordFault::BadLetter));
    assert_eq!(rt; word.push(1), Err(WordFault::TooLong));
    assert_eq!(rt; word.row(), [8; 32]);
    assert_eq!(rt; Refusal::from(WordFault::BadLetter), Refusal::plain(2, 3));
    assert_eq!(rt; Refusal::from(WordFault::TooLong), Refusal::plain(11, 2));
}

#[test]
fn inversions(rt: HostRuntime) -> Result<(), Fail> {
    for (a, b, c, n, place) in [
        (1, 1, 2, 0, None),
        (2, 1, 1, 2, Some(0)),
        (1, 3, 2, 1, Some(1)),
        (3, 2, 1, 3, Some(0)),
        (2, 3, 1, 2, Some(1)),
    ] {
        let word = Word::try_from(row(a, b, c))?;
        assert_eq!(rt; word.inversions(), n);
        assert_eq!(rt; word.leftmost_inversion(), place);
        assert_eq!(rt; word.is_standard(), place == None);
    }
    assert_eq!(rt;
        Term::blank(),
        Term {
            row: [0; 32],
            code: 0,
        }
    );
    Ok(())
}
