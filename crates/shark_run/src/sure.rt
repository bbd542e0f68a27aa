ghost use Rattle.std.specs.Prelude.{◌≡◌, ◌⊎◌, IfSome, Some};
ghost use Rattle.shark_words.specs.Words.{texts};
ghost use Rattle.run_frames.specs.declared.plan.Plan.{Plan};
ghost use Rattle.run_words.specs.declared.refused.Refused.{Refused};
ghost use Rattle.shark_run.specs.Answers.{IsAnswered};
ghost use Rattle.shark_run.specs.Headline.{IsAnswer};
ghost use Rattle.run_words.specs.Plan.{IsPlan, IsRefusal};
ghost use Rattle.run_words.specs.Sure.{IsSure};
ghost use Rattle.run_passes.specs.Reading.{file_of, frames_read};
ghost use Rattle.run_words.specs.Statuses.{status_of, refusal_status};
ghost use Rattle.run_words.specs.Statuses.{IsNoFault, IsRefusing, WhenEnded};
ghost use Rattle.shark_run.specs.Wrote.{WroteAll, WrotePart};

use crate::top::run;
use pk_outside::{SureCapture, SureSink};
use run_words::Status;
use std::alloc::Global;

/// A run over a capture file in memory, or over a generated capture, where nothing outside fails: the words are refused for their reason,
/// or the run ends as the file does. No other answer exists but want of memory.
pub fn sure_run(alloc: Global, words: &[String], file: Vec<u8>, out: &mut SureSink) -> Status
    // What the headline says of the words, the file and the output.
    ensures answer { IsAnswer (texts words.now) (λ _. Some file.items) result (Some out.old.taken) (Some out.new.taken) }

    // The words are refused for a reason that they give, and then nothing is written.
    ensures refusing { IsRefusing result → (reason : Refused) × IsRefusal (texts words.now) reason
        × (result ≡ refusal_status reason) }
    ensures untouched { IsRefusing result → out.new ≡ out.old }
    ensures refused { (reason : Refused) → IsRefusal (texts words.now) reason → IsSure reason
        → IsAnswered (texts words.now) (refusal_status reason) result }

    // Where the run came to an end the output got all lines, and never anything but a front of them.
    ensures whole { WhenEnded result ((plan : Plan) × IsPlan (texts words.now) plan
        × IfSome (file_of plan (λ _. Some file.items)) (λ bytes.
        WroteAll plan (frames_read plan bytes) (Some out.old.taken) (Some out.new.taken)
        × (result ≡ status_of (frames_read plan bytes).ending))) }
    ensures part { (out.new ≡ out.old) ⊎ ((plan : Plan) × IsPlan (texts words.now) plan
        × IfSome (file_of plan (λ _. Some file.items)) (λ bytes.
        WrotePart plan (frames_read plan bytes) (Some out.old.taken) (Some out.new.taken))) }

    // Words that ask for a plan end as their file does, or find no memory; nothing outside fails.
    ensures ended { (plan : Plan) → IsPlan (texts words.now) plan
        → IfSome (file_of plan (λ _. Some file.items)) (λ bytes.
        IsAnswered (texts words.now) (status_of (frames_read plan bytes).ending) result) }
    ensures no_fault { IsNoFault result }
{
    let mut capture = SureCapture::new(file);
    let mut err = SureSink::new(alloc);
    run(alloc, words, &mut capture, out, &mut err)
}
