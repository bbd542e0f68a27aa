ghost use Rattle.std.specs.Prelude.{◌≡◌, IfOk};
ghost use Rattle.run_output.specs.Lines.{opening};

use out_lines::header_line;
use pk_base::NoMemory;
use run_frames::Plan;
use shark_words::LineKind;
use std::alloc::Global;

/// What stands before the lines of the frames.
#[tactic(auto, unfolding(crate::specs::Lines::opening))]
pub fn opening_line(alloc: Global, plan: &Plan) -> Result<Vec<u8>, NoMemory>
    ensures { IfOk result (λ line. line.items ≡ opening plan.now) }
{
    if plan.written.is_some() || plan.source.is_generated() {
        return Ok(Vec::new(alloc));
    }
    match plan.kind {
        LineKind::Fields if plan.style.header && !plan.quiet => {
            header_line(alloc, plan.fields.slice(), &plan.style)
        }
        LineKind::Fields | LineKind::Text | LineKind::Json => Ok(Vec::new(alloc)),
    }
}
