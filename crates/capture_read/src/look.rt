// What stands at a reader's place.
ghost use Rattle.std.specs.Prelude.{◌≡◌, ℕ, [], length, None, IfOk, OnOk, OnErr};
ghost use Rattle.capture_formats.specs.Sections.{scope_of, IsStepWithin, WhenTaken, WhenUntaken};
ghost use Rattle.capture_read.specs.Offsets.{AreInterfaces, IsStepTimely};
ghost use Rattle.capture_read.specs.Reader.{IsPlaced, kind_then, scope_then, step_here, step_of_item};

use crate::kind::Kind;
use crate::state::{PCAP_HEADER_SIZE, begins_pcapng};
use capture_formats::{BlockStep, HeadStep, ItemStep, Sections, head, next_item};
use pk_base::NoMemory;

/// Looks at a file's header, or at the first block of a pcapng file.
fn look_first(
    kind: &mut Option<Kind>,
    sections: &mut Sections,
    bytes: &[u8],
) -> Result<BlockStep, NoMemory>
    requires first { kind.old ≡ None }
    requires before { sections.old ≡ scope_of [] }
    ensures step { IfOk result (λ step. step ≡ step_here kind.old sections.old bytes.now) }
    ensures within { IfOk result (λ step. IsStepWithin step (length bytes.now)) }
    ensures kind { IfOk result (λ step. kind.new ≡ kind_then step kind.old bytes.now) }
    ensures scope { OnOk result (sections.new ≡ scope_then kind.old sections.old bytes.now) }
    ensures taken { IfOk result (λ step. WhenTaken step
        ((number at : ℕ) → IsPlaced kind.new sections.new number at)) }
    ensures untaken { IfOk result (λ step. WhenUntaken step (sections.new ≡ sections.old)) }
    ensures kept { OnErr result ((kind.new ≡ kind.old) × (sections.new ≡ sections.old)) }
{
    if begins_pcapng(bytes) {
        let step = sections.next_block(bytes)?;
        return Ok(match step {
            BlockStep::Need(_) | BlockStep::Bad(_) => step,
            BlockStep::Item(_) | BlockStep::Skipped(_) => {
                *kind = Some(Kind::Pcapng);
                step
            }
        });
    }
    match head(bytes) {
        HeadStep::Need(need) => Ok(BlockStep::Need(need)),
        HeadStep::Bad(reason) => Ok(BlockStep::Bad(reason)),
        HeadStep::Head(head) => {
            *kind = Some(Kind::Pcap(head));
            Ok(BlockStep::Skipped(PCAP_HEADER_SIZE))
        }
    }
}

/// Looks at the header, record or block that begins with the first of the bytes held, and keeps what is known behind it.
#[inline(always)]
pub fn look(
    kind: &mut Option<Kind>,
    sections: &mut Sections,
    bytes: &[u8],
) -> Result<BlockStep, NoMemory>
    requires { (number : ℕ) × (at : ℕ) × IsPlaced kind.old sections.old number at }
    ensures step { IfOk result (λ step. step ≡ step_here kind.old sections.old bytes.now) }
    ensures within { IfOk result (λ step. IsStepWithin step (length bytes.now)) }
    ensures kind { IfOk result (λ step. kind.new ≡ kind_then step kind.old bytes.now) }
    ensures scope { OnOk result (sections.new ≡ scope_then kind.old sections.old bytes.now) }
    ensures taken { IfOk result (λ step. WhenTaken step
        ((number at : ℕ) → IsPlaced kind.new sections.new number at)) }
    ensures untaken { IfOk result (λ step. WhenUntaken step
        ((kind.new ≡ kind.old) × (sections.new ≡ sections.old))) }
    ensures kept { OnErr result ((kind.new ≡ kind.old) × (sections.new ≡ sections.old)) }
    ensures timely { IfOk result (λ step.
        AreInterfaces sections.old.interfaces → IsStepTimely step) }
    ensures offsets { AreInterfaces sections.old.interfaces
        → AreInterfaces sections.new.interfaces }
{
    match *kind {
        None => Ok(look_first(kind, sections, bytes)?),
        Some(Kind::Pcap(head)) => Ok(step_of_item(next_item(&head, bytes))),
        Some(Kind::Pcapng) => Ok(sections.next_block(bytes)?),
    }
}

#[inline(always)]
fn step_of_item(item: ItemStep) -> BlockStep
    ensures { result ≡ step_of_item item }
{
    match item {
        ItemStep::Need(need) => BlockStep::Need(need),
        ItemStep::Item(found) => BlockStep::Item(found),
        ItemStep::Bad(reason) => BlockStep::Bad(reason),
    }
}
