ghost use Rattle.std.specs.Prelude.{◌≡◌, ◌<◌};
ghost use Rattle.capture_formats.specs.Interface.{nanoseconds};

use crate::rate::Rate;

const NANOSECONDS_PER_SECOND: u32 = 1_000_000_000;

/// What an interface description block says of its packets.
#[derive(Clone, Copy)]
pub struct Interface {
    pub link: u16,
    /// The most bytes that are kept of a packet; 0 where there is no limit.
    pub snap: u32,
    /// How many ticks of the interface's clock make a second.
    pub rate: Rate,
    /// Seconds that are added to each time.
    pub offset: i64,
}

/// Nanoseconds since 1970 of a packet's time, whose high and low halves count ticks of the interface's clock.
pub fn time(interface: &Interface, high: u32, low: u32) -> i128
    ensures { result ≡ nanoseconds interface.now high low }
{
    let ticks = u64::from(high) * (1 << 32) + u64::from(low);
    let nanoseconds = u128::from(ticks) * u128::from(NANOSECONDS_PER_SECOND);
    let rate = &interface.rate;
    let whole = nanoseconds / u128::from(rate.ticks_per_second());
    let offset = i128::from(interface.offset) * i128::from(NANOSECONDS_PER_SECOND);
    whole as i128 + offset
}
