// The layers that a name with `#` chooses.
ghost use Rattle.std.specs.Prelude.{◌≡◌, [], ◌∷◌, map, IfOk, IfErr, OnOk, IsTrue};
ghost use Rattle.std.specs.List.{list_all};
ghost use Rattle.flt_syntax.specs.declared.fault.FilterReason.TheVariants.{OutOfRange};
ghost use Rattle.pk_base.specs.declared.chosen.Layers.TheVariants.{These};
ghost use Rattle.flt_typing.specs.Layers.{is_layer, is_layers, last_of as last_layer_of, layers_of as layers_written, one_layer};
ghost use Rattle.flt_types.specs.Faults.{IsAnswer, layers_faults, unless};

use crate::faults::{fault, require};
use flt_syntax::{FilterError, FilterReason, Layer, LayerRange};
use pk_base::{LayerRanges, Layers, NoMemory};
use std::alloc::Global;

/// The layer of a number, which is counted from 1.
pub(crate) fn single_layer(alloc: Global, layer: Layer) -> Result<Layers, FilterError>
    ensures valid { OnOk result (IsTrue (is_layer layer)) }
    ensures ok { IfOk result (λ layers. layers ≡ These (one_layer layer ∷ [])) }
    ensures err { IfErr result (IsAnswer (unless (is_layer layer) layer.at OutOfRange)) }
{
    require(1 <= layer.nth, layer.at, FilterReason::OutOfRange)?;
    let mut chosen = Vec::new(alloc);
    chosen.push(pk_base::LayerRange {
        first: layer.nth,
        last: None,
    })?;
    Ok(Layers::These(LayerRanges::from_vec(chosen)))
}

/// The layers of ranges, each of which begins at 1 or later and doesn't fall.
pub(crate) fn layers_in(alloc: Global, ranges: &[LayerRange]) -> Result<Layers, FilterError>
    ensures valid { OnOk result (IsTrue (list_all is_layers ranges.now)) }
    ensures ok { IfOk result (λ layers. layers ≡ These (map layers_written ranges.now)) }
    ensures err { IfErr result (IsAnswer (layers_faults ranges.now)) }
{
    match check_layers(ranges) {
        Ok(()) => match all_layers(alloc, ranges) {
            Ok(chosen) => Ok(Layers::These(LayerRanges::from_vec(chosen))),
            Err(NoMemory) => Err(FilterError::NoMemory),
        },
        Err(error) => Err(error),
    }
}

fn check_layers(ranges: &[LayerRange]) -> Result<(), FilterError>
    ensures valid { OnOk result (IsTrue (list_all is_layers ranges.now)) }
    ensures err { IfErr result (IsAnswer (layers_faults ranges.now)) }
{
    for range in ranges {
        if !is_layers(*range) {
            return Err(fault(range.at, FilterReason::OutOfRange));
        }
    }
    Ok(())
}

fn is_layers(range: LayerRange) -> bool
    ensures { result ≡ is_layers range }
{
    1 <= range.first && range.first <= last_of(range)
}

/// The last layer of a range; a number alone is its own last.
fn last_of(range: LayerRange) -> u32
    ensures { result ≡ last_layer_of range }
{
    range.last.unwrap_or(range.first)
}

fn all_layers(alloc: Global, ranges: &[LayerRange]) -> Result<Vec<pk_base::LayerRange>, NoMemory>
    ensures { IfOk result (λ layers. layers.items ≡ map layers_written ranges.now) }
{
    let mut layers = Vec::with_capacity(alloc, ranges.len())?;
    for range in ranges {
        layers.push(layers_of(*range))?;
    }
    Ok(layers)
}

fn layers_of(range: LayerRange) -> pk_base::LayerRange
    ensures { result ≡ layers_written range }
{
    pk_base::LayerRange {
        first: range.first,
        last: range.last,
    }
}
