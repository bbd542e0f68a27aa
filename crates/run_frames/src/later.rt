// What is known of later frames while the lines of frames are made.
ghost use Rattle.std.specs.Prelude.{◌≡◌, Bool, false, true, IfOk, OnOk};
ghost use Rattle.run_frames.specs.Job.{Passes, with_links};
ghost use Rattle.run_frames.specs.Later.{IsUnnamed, Serves};

use crate::owned::give_up_tree;
use pk_base::NoMemory;
use pk_tree::Tree;
use second_pass::Links;

/// What is known of later frames while the lines of frames are made.
#[derive(Drop)]
pub enum Later {
    /// Nothing: the frames are read once.
    Unread,
    /// The links to them, from a first reading.
    Known(Links),
}

impl Later {
    /// Whether no later frame is known to name this one among those that brought its bytes.
    #[inline(always)]
    pub(crate) fn leaves_unnamed(&self, frame: u32) -> bool
        ensures { result ≡ true → IsUnnamed self.now frame }
    {
        match self {
            Later::Unread => true,
            Later::Known(links) => !links.is_named(frame),
        }
    }

    #[inline(always)]
    pub(crate) fn is_known(&self) -> bool
        ensures { result ≡ false → self.now ≡ Later.Unread }
    {
        match self {
            Later::Unread => false,
            Later::Known(_) => true,
        }
    }
}

/// A frame's tree with its links to later frames, as far as they are known.
pub(crate) fn with_later(later: &Later, frame: u32, bare: Tree) -> Result<Tree, NoMemory>
    ensures { IfOk result (λ tree. (two : Bool) (passes : Passes) → Serves two passes later.now
        → tree ≡ with_links passes frame bare) }
{
    let mut tree = bare;
    match add_links(later, frame, &mut tree) {
        Ok(()) => Ok(tree),
        Err(error) => {
            give_up_tree(tree);
            Err(error)
        }
    }
}

/// Adds to the tree of a frame its links to later frames, as far as they are known.
fn add_links(later: &Later, frame: u32, tree: &mut Tree) -> Result<(), NoMemory>
    ensures { OnOk result ((two : Bool) (passes : Passes) → Serves two passes later.now
        → tree.new ≡ with_links passes frame tree.old) }
{
    match later {
        Later::Unread => Ok(()),
        Later::Known(links) => match links.forward(frame, tree) {
            Ok(()) => Ok(()),
            Err(error) => Err(error),
        },
    }
}
