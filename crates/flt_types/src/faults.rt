ghost use Rattle.std.specs.Prelude.{◌≡◌, OnOk, IfErr, IsTrue};
ghost use Rattle.flt_syntax.specs.declared.fault.FilterError.TheVariants.{Fault};
ghost use Rattle.flt_types.specs.Faults.{IsAnswer, unless};

use flt_syntax::{FilterError, FilterFault, FilterReason};

/// The error of a fault at a place.
pub(crate) fn fault(at: u32, reason: FilterReason) -> FilterError
    ensures { result ≡ Fault (record { at = at; reason = reason }) }
{
    FilterError::Fault(FilterFault { at, reason })
}

/// A fault, unless a test holds.
pub(crate) fn require(test: bool, at: u32, reason: FilterReason) -> Result<(), FilterError>
    ensures ok { OnOk result (IsTrue test) }
    ensures err { IfErr result (IsAnswer (unless test at reason)) }
{
    if test { Ok(()) } else { Err(fault(at, reason)) }
}
