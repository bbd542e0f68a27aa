//! Blocks of pcapng files, one behind the other, of which the first begins a section: their bytes, ` -> `, and what each is, up to the
//! first that isn't whole. That is a frame as in module `heads`; `skips:` and the size of a block that is passed over; `needs:` and how
//! many bytes are needed; or why it isn't read.
ghost use Rattle.std.specs.Prelude.{◌≡◌, ◌≢◌, ◌∷◌, [], None, take};

use crate::heads::found_text;
use crate::pieces::bytes_of;
use capture_formats::{BlockStep, Sections};
use std::alloc::Global;

fn step_text(alloc: Global, step: &BlockStep) -> Option<String> {
    match step {
        BlockStep::Item(found) => found_text(alloc, found),
        BlockStep::Skipped(size) => format!(in alloc; "skips:{size}").ok(),
        BlockStep::Need(count) => format!(in alloc; "needs:{count}").ok(),
        BlockStep::Bad(reason) => format!(in alloc; "{reason:?}").ok(),
    }
}

fn is_step(alloc: Global, step: &BlockStep, wanted: &str) -> Option<bool> {
    let text = step_text(alloc, step)?;
    Some(text.as_str() == wanted)
}

/// Whether these blocks are these steps, and no bytes are behind them.
fn are_steps(alloc: Global, sections: &mut Sections, blocks: &[u8], wanted: &str) -> Option<bool>
    requires { sections.old.order ≢ None }
{
    let mut rest = blocks;
    for word in wanted.split(' ') {
        let step = sections.next_block(rest).ok()?;
        if !is_step(alloc, &step, word)? {
            return Some(false);
        }
        match step {
            BlockStep::Item(found) => rest = rest.get(found.end..)?,
            BlockStep::Skipped(size) => rest = rest.get(size..)?,
            BlockStep::Need(_) | BlockStep::Bad(_) => rest = &[],
        }
    }
    Some(rest.is_empty())
}

/// Whether a section is passed over, and the blocks behind it are these steps.
fn are_steps_of(alloc: Global, bytes: &[u8], wanted: &str) -> Option<bool>
    requires { take 4 bytes.now ≡ 0x0A ∷ 0x0D ∷ 0x0D ∷ 0x0A ∷ [] }
{
    let mut sections = Sections::new(alloc);
    match sections.next_block(bytes).ok()? {
        BlockStep::Skipped(28) => {
            let blocks = bytes.get(28..)?;
            are_steps(
                alloc,
                &mut sections,
                blocks,
                wanted.strip_prefix("skips:28 ")?,
            )
        }
        _ => Some(false),
    }
}

pub(crate) fn are_blocks(alloc: Global, row: &str) -> Option<bool> {
    let (given, wanted) = row.split_once(" -> ")?;
    let bytes = bytes_of(alloc, given)?;
    let bytes = bytes.as_slice();
    match bytes {
        [0x0A, 0x0D, 0x0D, 0x0A, ..] => are_steps_of(alloc, bytes, wanted),
        _ => None,
    }
}
