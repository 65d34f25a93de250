// How weights are made, and what their refusal says.
ghost use Rattle.std.specs.Prelude.{◌≡◌, ◌*◌, ◌≤◌};
ghost use Rattle.orders.specs.Weights.{Weighs, refusal_of};

use crate::weight::{Weight, WeightOutOfRange};
use refusals::Refusal;

impl TryFrom<u64> for Weight {
    type Error = WeightOutOfRange;

    ghost try_from_gives = { Weighs };

    fn try_from(n: u64) -> Result<Weight, WeightOutOfRange> {
        if n == 0 || n > 255 {
            return Err(WeightOutOfRange);
        }
        Ok(Weight { value: n as u8 })
    }
}

impl Weight {
    pub fn value(&self) -> u8
        ensures { result ≡ self.now.value }
    {
        self.value
    }

    // So many times the weight.
    pub(crate) fn times(&self, count: u8) -> u32
        ensures value { result ≡ self.now.value * count }
        ensures bound { result ≤ 65025 }
    {
        u32::from(self.value) * u32::from(count)
    }
}

impl From<WeightOutOfRange> for Refusal {
    ghost from_gives = { λ fault refusal. refusal ≡ refusal_of fault };

    fn from(_fault: WeightOutOfRange) -> Refusal {
        Refusal::plain(9, 1)
    }
}
