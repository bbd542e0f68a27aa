// The first sign of an operand.
ghost use Rattle.std.specs.Prelude.{◌≡◌};
ghost use Rattle.flt_syntax.specs.Written.{operand_of};
ghost use Rattle.flt_types.specs.Faults.{first_sign as first_sign_of};

use flt_syntax::Operand;

/// The place of the first sign of arithmetic; of an operand that is none, the place that is given.
pub(crate) fn first_sign(at: u32, operand: &Operand) -> u32
    ensures { result ≡ first_sign_of at (operand_of operand.now) }
{
    let mut at = at;
    let mut first = operand;
    'signs: loop {
        match first {
            Operand::Computed(_, sign, left, _) => {
                at = *sign;
                first = left;
            }
            _ => return at,
        }
    }
}
