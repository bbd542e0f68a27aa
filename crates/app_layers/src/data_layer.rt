ghost use Rattle.std.specs.Prelude.{◌≡◌, ◌+◌, ◌<◌, ◌≤◌, ◌^◌, length, IfOk, OnOk};
ghost use Rattle.pk_tree.specs.Buffers.{IsInside};
ghost use Rattle.app_layers.specs.DataLayer.{data_layout, data_over};

use pk_base::{Mode, NoMemory, Span, Value};
use pk_fields::ids;
use pk_tree::{Reach, Step, TreeBuilder, pass_layer, read_layer};

/// Shows bytes that no protocol reads. There is no layer for no bytes.
#[tactic(auto, using(crate::proofs::DataLemmas::data_read), unfolding(crate::specs::DataLayer::data_over, pk_tree::specs::Layouts::StepsFit, pk_fields::specs::Fields::row_of, pk_fields::specs::Table::rows))]
pub fn add_data(span: Span, tree: &mut TreeBuilder) -> Result<(), NoMemory>
    requires inside { IsInside tree.old.buffers span }
    requires room { length tree.old.layers + 2 < 2 ^ 32 }
    ensures tree { IfOk result (λ _. tree.new ≡ data_over tree.old span) }
    ensures buffers { tree.new.buffers ≡ tree.old.buffers }
    ensures most { OnOk result (length tree.new.layers ≤ length tree.old.layers + 2) }
{
    if span.len == 0 {
        return Ok(());
    }
    if !tree.asks(ids::DATA) {
        return pass_layer(tree, ids::DATA, span, Reach::All, Mode::Plain, false);
    }
    let steps = data_steps(span.len);
    read_layer(tree, ids::DATA, span, &steps, Mode::Plain, false)?;
    Ok(())
}

fn data_steps(len: u32) -> [Step; 2]
    ensures { result ≡ data_layout len }
{
    [
        Step::Whole(ids::DATA_DATA, 0, len as usize),
        Step::Made(ids::DATA_LEN, Value::Uint(u64::from(len))),
    ]
}
