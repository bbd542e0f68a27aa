ghost use Rattle.std.specs.Prelude.{◌≡◌, ◌<◌, ◌≤◌, ◌^◌, ◌∷◌, [], length, Some, None, IfOk, IfSome, OnOk};
ghost use Rattle.pk_fields.specs.Ids.{FRAME, FRAME_NUMBER, FRAME_LEN, FRAME_CAP_LEN};
ghost use Rattle.pk_base.specs.declared.heads.Mode.TheVariants.{Plain};
ghost use Rattle.pk_tree.specs.Layouts.{StepFits, StepsFit, layer_read};
ghost use Rattle.app_layers.specs.FrameLayer.{is_cut, frame_span, frame_layout, asks_measure, kept_frame};
ghost use Rattle.capture_read.specs.FrameList.{IsTime};
ghost use Rattle.app_layers.specs.Times.{AreTimes};

use crate::times::{Times, since};
use capture_read::Frame;
use pk_base::{Mode, NoMemory, Span, Value};
use pk_fields::{FieldId, FieldSet, ids};
use pk_tree::{Spare, Step, TreeBuilder, read_layer};

/// Whether fewer bytes were captured than the frame had.
pub fn is_cut(frame: &Frame) -> bool
    requires { length frame.now.bytes < 2 ^ 32 }
    ensures { result ≡ is_cut frame.now }
{
    captured(frame) < frame.original
}

/// How many bytes were captured.
pub fn captured(frame: &Frame) -> u32
    requires { length frame.now.bytes < 2 ^ 32 }
    ensures { result ≡ length frame.now.bytes }
{
    frame.bytes.bytes().len() as u32
}

/// All of the frame's bytes, which are its tree's first buffer.
pub fn frame_span(frame: &Frame) -> Span
    requires { length frame.now.bytes < 2 ^ 32 }
    ensures { result ≡ frame_span frame.now }
{
    Span {
        buffer: 0,
        start: 0,
        len: captured(frame),
    }
}

/// A tree of the wanted fields with the layer that tells of the frame itself, given the times of the frames before, in the
/// memory of an earlier tree.
pub fn begin_tree(
    spare: Spare,
    before: Times,
    frame: &Frame,
    wanted: FieldSet,
) -> Result<TreeBuilder, NoMemory>
    requires bytes { length frame.now.bytes < 2 ^ 32 }
    requires before { AreTimes before }
    requires time { IfSome frame.now.time IsTime }
    ensures tree { IfOk result (λ tree. tree ≡ kept_frame wanted before frame.now) }
    ensures buffers { IfOk result (λ tree. tree.buffers ≡ frame.now.bytes ∷ []) }
    ensures most { IfOk result (λ tree. length tree.layers ≤ 2) }
{
    let mut tree = TreeBuilder::again(spare, frame.bytes.clone()?, wanted)?;
    add_wanted(before, frame, &wanted, &mut tree)?;
    Ok(tree)
}

/// Adds the layer that tells of the frame itself, with its items as far as they are wanted.
#[tactic(auto, using(crate::proofs::FramePassed::frame_passed, crate::proofs::FramePassed::number_alone), unfolding(crate::specs::FrameLayer::kept_frame, pk_tree::specs::Layouts::StepsFit))]
fn add_wanted(
    before: Times,
    frame: &Frame,
    wanted: &FieldSet,
    tree: &mut TreeBuilder,
) -> Result<(), NoMemory>
    requires bytes { length frame.now.bytes < 2 ^ 32 }
    requires before { AreTimes before }
    requires time { IfSome frame.now.time IsTime }
    requires empty { tree.old ≡ record { layers = []; buffers = frame.now.bytes ∷ []; wanted = wanted.now } }
    ensures tree { IfOk result (λ _. tree.new ≡ kept_frame wanted.now before frame.now) }
    ensures buffers { tree.new.buffers ≡ tree.old.buffers }
    ensures most { OnOk result (length tree.new.layers ≤ 2) }
{
    if asks_measure(wanted) {
        add_measured(before, frame, tree)
    } else if wanted.contains(ids::FRAME_NUMBER) {
        add_frame(frame, &[number(frame)], tree)
    } else {
        add_frame(frame, &[], tree)
    }
}

/// Adds the layer that tells of the frame itself, with all of its items.
fn add_measured(before: Times, frame: &Frame, tree: &mut TreeBuilder) -> Result<(), NoMemory>
    requires bytes { length frame.now.bytes < 2 ^ 32 }
    requires before { AreTimes before }
    requires time { IfSome frame.now.time IsTime }
    requires layers { tree.old.layers ≡ [] }
    requires buffers { tree.old.buffers ≡ frame.now.bytes ∷ [] }
    ensures tree { IfOk result (λ _. tree.new ≡ layer_read tree.old FRAME (frame_span frame.now) (frame_layout before frame.now) Plain (is_cut frame.now)) }
    ensures buffers { tree.new.buffers ≡ tree.old.buffers }
    ensures most { OnOk result (length tree.new.layers ≤ 2) }
{
    match frame.time {
        Some(time) => add_frame(frame, &timed_steps(before, frame, time), tree),
        None => add_frame(frame, &untimed_steps(before, frame), tree),
    }
}

/// Whether a field of the frame's own layer is asked, but its number.
fn asks_measure(wanted: &FieldSet) -> bool
    ensures { result ≡ asks_measure wanted.now }
{
    wanted.contains(ids::FRAME_TIME_EPOCH)
        || wanted.contains(ids::FRAME_TIME_RELATIVE)
        || wanted.contains(ids::FRAME_TIME_DELTA)
        || wanted.contains(ids::FRAME_LEN)
        || wanted.contains(ids::FRAME_CAP_LEN)
}

#[tactic(auto, unfolding(pk_fields::specs::Fields::row_of, pk_fields::specs::Table::rows))]
fn add_frame(frame: &Frame, steps: &[Step], tree: &mut TreeBuilder) -> Result<(), NoMemory>
    requires bytes { length frame.now.bytes < 2 ^ 32 }
    requires fits { StepsFit FRAME steps.now }
    requires layers { tree.old.layers ≡ [] }
    requires buffers { tree.old.buffers ≡ frame.now.bytes ∷ [] }
    ensures tree { IfOk result (λ _. tree.new ≡ layer_read tree.old FRAME (frame_span frame.now) steps.now Plain (is_cut frame.now)) }
    ensures buffers { tree.new.buffers ≡ tree.old.buffers }
    ensures most { OnOk result (length tree.new.layers ≤ 2) }
{
    read_layer(
        tree,
        ids::FRAME,
        frame_span(frame),
        steps,
        Mode::Plain,
        is_cut(frame),
    )?;
    Ok(())
}

/// The items of a frame that has a time.
#[tactic(auto, unfolding(crate::specs::FrameLayer::frame_layout, pk_tree::specs::Layouts::StepsFit, pk_fields::specs::Fields::row_of, pk_fields::specs::Table::rows))]
fn timed_steps(before: Times, frame: &Frame, time: i128) -> [Step; 6]
    requires bytes { length frame.now.bytes < 2 ^ 32 }
    requires before { AreTimes before }
    requires is_time { IsTime time }
    requires time { frame.now.time ≡ Some time }
    ensures layout { result ≡ frame_layout before frame.now }
    ensures fits { StepsFit FRAME result }
{
    [
        number(frame),
        Step::Made(ids::FRAME_TIME_EPOCH, Value::Time(time)),
        Step::Made(
            ids::FRAME_TIME_RELATIVE,
            Value::Time(since(before.first, time)),
        ),
        Step::Made(
            ids::FRAME_TIME_DELTA,
            Value::Time(since(before.latest, time)),
        ),
        wire_length(frame),
        captured_length(frame),
    ]
}

/// The items of a frame that has no time.
#[tactic(auto, unfolding(crate::specs::FrameLayer::frame_layout, pk_tree::specs::Layouts::StepsFit, pk_fields::specs::Fields::row_of, pk_fields::specs::Table::rows))]
fn untimed_steps(before: Times, frame: &Frame) -> [Step; 3]
    requires bytes { length frame.now.bytes < 2 ^ 32 }
    requires time { frame.now.time ≡ None }
    ensures layout { result ≡ frame_layout before frame.now }
    ensures fits { StepsFit FRAME result }
{
    [number(frame), wire_length(frame), captured_length(frame)]
}

#[tactic(auto, unfolding(pk_fields::specs::Fields::row_of, pk_fields::specs::Table::rows))]
fn number(frame: &Frame) -> Step
    ensures step { result ≡ Step.Made FRAME_NUMBER (Value.Uint frame.now.number) }
    ensures fits { StepFits FRAME result }
{
    number_step(ids::FRAME_NUMBER, frame.number)
}

#[tactic(auto, unfolding(pk_fields::specs::Fields::row_of, pk_fields::specs::Table::rows))]
fn wire_length(frame: &Frame) -> Step
    ensures step { result ≡ Step.Made FRAME_LEN (Value.Uint frame.now.original) }
    ensures fits { StepFits FRAME result }
{
    number_step(ids::FRAME_LEN, frame.original)
}

#[tactic(auto, unfolding(pk_fields::specs::Fields::row_of, pk_fields::specs::Table::rows))]
fn captured_length(frame: &Frame) -> Step
    requires { length frame.now.bytes < 2 ^ 32 }
    ensures step { result ≡ Step.Made FRAME_CAP_LEN (Value.Uint (length frame.now.bytes)) }
    ensures fits { StepFits FRAME result }
{
    number_step(ids::FRAME_CAP_LEN, captured(frame))
}

fn number_step(field: FieldId, number: u32) -> Step
    ensures step { result ≡ Step.Made field (Value.Uint number) }
    ensures kind { number < 2 ^ 32 }
{
    Step::Made(field, Value::Uint(u64::from(number)))
}
