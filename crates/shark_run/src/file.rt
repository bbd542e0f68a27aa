// Beginning the capture file.
ghost use Rattle.std.specs.Prelude.{◌≡◌, IsErrOf, IfOk, OnOk, OnErr, Some};
ghost use Rattle.capture_write.specs.Made.{made};
ghost use Rattle.pk_outside.specs.Outside.{counted};
ghost use Rattle.shark_run.specs.Causes.{IsUnopened};

use crate::owned::let_go;
use pk_base::NoMemory;
use pk_outside::{Capture, Failed, SureCapture};
use run_frames::Generated;
use run_texts::Text;
use std::alloc::Global;

/// Why no file was begun.
#[derive(Clone, Copy)]
pub(crate) enum FileFault {
    CannotOpen,
    NoMemory,
}

/// Begins the file of a name.
pub(crate) fn begin_file<C: Capture>(
    alloc: Global,
    name: &Text,
    capture: &mut C,
) -> Result<(), FileFault>
    ensures left { OnOk result (C.left capture.new ≡ C.file capture.old name.now) }
    ensures begun { OnOk result (C.begun capture.new ≡ counted (C.begun capture.old)) }
    ensures not_missed { OnOk result (C.missed capture.new ≡ C.missed capture.old) }
    ensures starved { IsErrOf result FileFault.NoMemory
        → C.missed capture.new ≡ C.missed capture.old }
    ensures asked { OnOk result (C.asked capture.new ≡ name.now) }
    ensures faults { C.faults capture.new ≡ C.faults capture.old }
    ensures not_begun { OnErr result (C.begun capture.new ≡ C.begun capture.old) }
    ensures left_err { OnErr result (C.left capture.new ≡ C.left capture.old) }
    ensures unopened { IsErrOf result FileFault.CannotOpen
        → IsUnopened (C.missed capture.old) (C.missed capture.new)
        (C.begun capture.old) (C.begun capture.new) (C.asked capture.new) name.now }
{
    let name = match name.to_string(alloc) {
        Ok(name) => name,
        Err(_) => return Err(FileFault::NoMemory),
    };
    match capture.begin(name) {
        Ok(()) => Ok(()),
        Err(Failed) => Err(FileFault::CannotOpen),
    }
}

/// The begun file of a generated capture.
pub(crate) fn begin_generated(alloc: Global, capture: &Generated) -> Result<SureCapture, NoMemory>
    ensures { IfOk result (λ begun. Some begun.left ≡ Some (made capture.now.start capture.now.frames)) }
{
    let file = capture.file(alloc)?;
    let copied = Vec::from_slice(alloc, file.bytes());
    let_go(file);
    let mut begun = SureCapture::new(copied?);
    match begun.begin(String::new(alloc)) {
        Ok(()) => Ok(begun),
        Err(Failed) => {
            let_go(begun);
            Err(NoMemory)
        }
    }
}
