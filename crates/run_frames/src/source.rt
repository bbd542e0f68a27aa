// Where the frames of a run come from.
ghost use Rattle.std.specs.Prelude.{◌≡◌};
ghost use Rattle.run_frames.specs.Source.{is_generated_by, name_by};

use crate::generated::Generated;
use run_texts::Text;

/// Where the frames of a run come from.
#[derive(Drop)]
pub enum PlanSource {
    /// The capture file of this name.
    Named(Text),
    /// A capture that is made for the run.
    Generated(Generated),
}

impl PlanSource {
    /// The name of the file; a generated capture has none.
    pub fn name(&self) -> &str
        ensures { result.now ≡ name_by self.now }
    {
        match self {
            PlanSource::Named(name) => name.as_str(),
            PlanSource::Generated(_) => "",
        }
    }

    /// Whether a capture is made for the run.
    pub fn is_generated(&self) -> bool
        ensures { result ≡ is_generated_by self.now }
    {
        match self {
            PlanSource::Named(_) => false,
            PlanSource::Generated(_) => true,
        }
    }
}
