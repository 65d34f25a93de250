// The limits of each ring, and what is written there.
use coefficients::fault::RingFault;
use coefficients::ring::Ring;
use coefficients::round_trip::{read_again, write_again};
use integers::integers::Integers;
use qpolynomials::qpolynomials::QPolynomials;
use refusals::Refusal;
use residues::residues::{ModulusOutOfRange, Residues};
use std::process::Abort;
use std::test::Fail;

const UNUSED: Result<u64, RingFault> = Err(RingFault::NotInUse);

const NONE: Result<u64, RingFault> = Err(RingFault::NoCode);

// The code is written as the text, and the text read as the code.
fn written<R: Ring>(rt: &impl Abort, ring: &R, code: u64, text: &[u8]) -> Result<(), Fail> {
    let mut out = [7; 80];
    let n = ring.write(code, &mut out)?;
    assert!(rt; n <= 80);
    assert_eq!(rt; &out[0..n], text);
    for x in &out[n..] {
        assert_eq!(rt; *x, 0);
    }
    assert_eq!(rt; ring.read(text), Ok(code));
    assert_eq!(rt; read_again(ring, code), Ok(code));
    assert_eq!(rt; write_again(ring, text, &mut out), Ok(n));
    Ok(())
}

// A code that is not in use is not written, and the bytes stay.
fn not_written<R: Ring>(rt: &impl Abort, ring: &R, code: u64) {
    let mut out = [7; 80];
    assert_eq!(rt; ring.write(code, &mut out), Err(RingFault::NotInUse));
    assert_eq!(rt; out, [7; 80]);
    assert_eq!(rt; ring.in_use(code), false);
}

// Two codes, their sum, their product, and the negative of the first.
fn table<R: Ring>(
    rt: &impl Abort,
    ring: &R,
    rows: &[(
        u64,
        u64,
        Result<u64, RingFault>,
        Result<u64, RingFault>,
        Result<u64, RingFault>,
    )],
) {
    for (a, b, sum, product, negative) in rows {
        assert_eq!(rt; ring.sum(*a, *b), *sum);
        assert_eq!(rt; ring.product(*a, *b), *product);
        assert_eq!(rt; ring.negative(*a), *negative);
    }
}

#[test]
fn moduli(rt: HostRuntime) {
    for m in [0, 1, 4294967296, 18446744073709551615] {
        assert!(rt; Residues::new(m).is_err());
    }
    assert_eq!(rt; Refusal::from(ModulusOutOfRange), Refusal::plain(9, 1));
    assert!(rt; Residues::new(2).is_ok());
}

#[test]
fn residues(rt: HostRuntime) -> Result<(), Fail> {
    let ring = Residues::new(4294967295)?;
    assert_eq!(rt; ring.one(), 1);
    written(&rt, &ring, 0, b"0")?;
    written(&rt, &ring, 4294967294, b"4294967294")?;
    not_written(&rt, &ring, 4294967295);
    assert_eq!(rt; ring.read(b"4294967295"), Err(RingFault::NoWriting));
    table(
        &rt,
        &ring,
        &[
            (4294967294, 4294967294, Ok(4294967293), Ok(1), Ok(1)),
            (0, 4294967294, Ok(4294967294), Ok(0), Ok(0)),
            (4294967294, 1, Ok(0), Ok(4294967294), Ok(1)),
            (4294967295, 0, UNUSED, UNUSED, UNUSED),
            (0, 4294967295, UNUSED, UNUSED, Ok(0)),
        ],
    );
    Ok(())
}

#[test]
fn integers(rt: HostRuntime) -> Result<(), Fail> {
    let ring = Integers;
    assert_eq!(rt; ring.one(), 2);
    written(&rt, &ring, 0, b"0")?;
    written(&rt, &ring, 1, b"-1")?;
    written(&rt, &ring, 4294967294, b"2147483647")?;
    written(&rt, &ring, 4294967293, b"-2147483647")?;
    not_written(&rt, &ring, 4294967295);
    assert_eq!(rt; ring.read(b"2147483648"), Err(RingFault::NoWriting));
    assert_eq!(rt; ring.read(b"-2147483648"), Err(RingFault::NoWriting));
    table(
        &rt,
        &ring,
        &[
            (4294967294, 2, NONE, Ok(4294967294), Ok(4294967293)),
            (4294967293, 1, NONE, Ok(4294967294), Ok(4294967294)),
            (4294967294, 4294967293, Ok(0), NONE, Ok(4294967293)),
            (92680, 92680, Ok(185360), Ok(4294791200), Ok(92679)),
            (92682, 92682, Ok(185364), NONE, Ok(92681)),
            (4294967295, 4294967294, UNUSED, UNUSED, UNUSED),
        ],
    );
    Ok(())
}

#[test]
fn qpolynomials(rt: HostRuntime) -> Result<(), Fail> {
    let ring = QPolynomials;
    let all = 18446744073709551615;
    assert_eq!(rt; ring.one(), 1);
    written(&rt, &ring, 0, b"0")?;
    written(&rt, &ring, 6, b"110")?;
    written(
        &rt,
        &ring,
        all,
        b"1111111111111111111111111111111111111111111111111111111111111111",
    )?;
    let long = b"10000000000000000000000000000000000000000000000000000000000000000";
    assert_eq!(rt; ring.read(long), Err(RingFault::NoWriting));
    let top = 9223372036854775808;
    table(
        &rt,
        &ring,
        &[
            (3, 3, Ok(0), Ok(5), Ok(3)),
            (top, 1, Ok(9223372036854775809), Ok(top), Ok(top)),
            (top, 2, Ok(9223372036854775810), NONE, Ok(top)),
            (
                4294967296,
                2147483648,
                Ok(6442450944),
                Ok(top),
                Ok(4294967296),
            ),
            (all, all, Ok(0), NONE, Ok(all)),
        ],
    );
    Ok(())
}

#[test]
fn refusals(rt: HostRuntime) {
    assert_eq!(rt; Refusal::from(RingFault::NotInUse), Refusal::plain(4, 1));
    assert_eq!(rt; Refusal::from(RingFault::NoWriting), Refusal::plain(4, 1));
    assert_eq!(rt; Refusal::from(RingFault::NoCode), Refusal::plain(10, 1));
}
