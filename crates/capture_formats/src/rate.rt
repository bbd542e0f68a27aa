ghost use Rattle.std.specs.Prelude.{◌≡◌, ◌<◌, ◌^◌};
ghost use Rattle.capture_formats.specs.Ticks.{ticks_per_second, decimal_rate, binary_rate};

use std::marker::Model;

/// The resolutions from here on are powers of 2, and those below are powers of 10.
const BINARY: u8 = 0x80;

/// The largest power of 10 that is read.
const DECIMAL_LIMIT: u8 = 18;

/// The largest power of 2 that is read.
const BINARY_LIMIT: u8 = 63;

/// How many ticks of an interface's clock make a second: at least one.
#[derive(Clone, Copy)]
pub struct Rate {
    ticks: u64,
}

impl Model for Rate {
    ghost use Rattle.std.specs.Prelude.{ℕ, ◌<◌};

    ghost Value = { ℕ };

    ghost view = { λ r. r.ticks };

    ghost inverse = { λ n. record { ticks = n } };

    ghost invariant = { λ r. 0 < r.ticks };
}

impl Rate {
    /// The rate that an interface's resolution means (`if_tsresol`), where its ticks aren't too fine.
    pub fn of_resolution(resolution: u8) -> Option<Rate>
        ensures { result ≡ ticks_per_second resolution }
    {
        if resolution < BINARY {
            return decimal(resolution);
        }
        binary(resolution - BINARY)
    }

    pub fn ticks_per_second(&self) -> u64
        ensures value { result ≡ self.now }
        ensures some { 0 < result }
    {
        self.ticks
    }
}

#[tactic(auto, using(crate::proofs::Powers::power_of_ten))]
fn decimal(exponent: u8) -> Option<Rate>
    ensures { result ≡ decimal_rate exponent }
{
    if exponent > DECIMAL_LIMIT {
        return None;
    }
    let ticks = 10u64.pow(u32::from(exponent));
    Some(Rate { ticks })
}

fn binary(exponent: u8) -> Option<Rate>
    ensures { result ≡ binary_rate exponent }
{
    if exponent > BINARY_LIMIT {
        return None;
    }
    let ticks = 2u64.pow(u32::from(exponent));
    Some(Rate { ticks })
}
