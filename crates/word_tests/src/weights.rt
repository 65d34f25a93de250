// Weights at their limits.
use orders::weight::{Weight, WeightOutOfRange};
use refusals::Refusal;
use std::test::Fail;

#[test]
fn limits(rt: HostRuntime) -> Result<(), Fail> {
    assert_eq!(rt; Weight::try_from(1)?.value(), 1);
    assert_eq!(rt; Weight::try_from(255)?.value(), 255);
    for n in [0, 256, 4294967296, 18446744073709551615] {
        assert_eq!(rt; Weight::try_from(n), Err(WeightOutOfRange));
    }
    assert_eq!(rt; Refusal::from(WeightOutOfRange), Refusal::plain(9, 1));
    Ok(())
}
