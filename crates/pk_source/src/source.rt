ghost use Rattle.std.specs.Prelude.{◌≡◌, ◌<◌, length, slice_get, IfOk};
ghost use Rattle.std.specs.List.{AllByRecursion as Each};
ghost use Rattle.pk_fields.specs.Fields.{row_of};
ghost use Rattle.pk_source.specs.Found.{is_there};
ghost use Rattle.pk_source.specs.Sources.{shown_by};
ghost use Rattle.pk_tree.specs.FieldValues.{values_of};
ghost use Rattle.pk_tree.specs.Trees.{IsTree, proto_at};
ghost use Rattle.pk_tree.specs.Values.{IsOfKind};

use crate::outline::Outline;
use crate::walks::{tree_has, tree_protocol, tree_value};
use pk_base::{Layers, NoMemory, Value};
use pk_fields::FieldId;
use pk_tree::Tree;
use std::alloc::Global;
use std::marker::Model;

/// What answers for the values of a frame's fields. Contracts see it as the frame's tree, whichever it is.
#[derive(Drop)]
pub struct Source<'s> {
    of: Lender<'s>,
}

/// A frame's tree, or the headers of a frame that needs none.
#[derive(Clone, Copy)]
pub enum Lender<'s> {
    Tree(&'s Tree),
    Outline(&'s Outline<'s>),
}

impl<'s> Model for Source<'s> {
    ghost use Rattle.pk_source.specs.Sources.{shown_by};
    ghost use Rattle.pk_tree.specs.Trees.{IsTree, TreeShown};

    ghost Value = { TreeShown };

    ghost view = { λ s. shown_by s.of };
}

impl<'s> Source<'s> {
    pub fn of_tree(tree: &'s Tree) -> Source<'s>
        ensures { result ≡ tree.now }
    {
        Source {
            of: Lender::Tree(tree),
        }
    }

    pub fn of_outline(outline: &'s Outline<'s>) -> Source<'s>
        ensures { result ≡ outline.now }
    {
        Source {
            of: Lender::Outline(outline),
        }
    }

    pub fn new(of: Lender<'s>) -> Source<'s>
        ensures { result ≡ shown_by of.entry }
    {
        Source { of }
    }

    /// What it answers by.
    pub fn lender(&self) -> Lender<'s>
        ensures lender { shown_by result ≡ self.now }
        ensures fits { IsTree self.now }
    {
        match self.of {
            Lender::Tree(tree) => {
                let _layers = tree.layers();
            }
            Lender::Outline(outline) => outline.fits(),
        }
        self.of
    }

    /// The values of a field or protocol in the chosen layers, in the tree's order.
    pub fn values(
        &self,
        alloc: Global,
        field: FieldId,
        layers: &Layers,
    ) -> Result<Vec<Value>, NoMemory>
        ensures values { IfOk result (λ values.
            values.items ≡ values_of self.now field layers.now) }
        ensures kind { IfOk result (λ values. Each (IsOfKind (row_of field).kind) values.items) }
    {
        match self.of {
            Lender::Tree(tree) => tree.values(field, layers),
            Lender::Outline(outline) => outline.values(alloc, field, layers),
        }
    }

    /// Whether there is a value of a field or protocol in the chosen layers.
    pub fn has(&self, field: FieldId, layers: &Layers) -> bool
        ensures { result ≡ is_there (values_of self.now field layers.now) }
    {
        match self.of {
            Lender::Tree(tree) => tree_has(tree, field, layers),
            Lender::Outline(outline) => outline.has(field, layers),
        }
    }

    /// The value of a number, from 0, among those of a field in the chosen layers.
    pub fn value(
        &self,
        field: FieldId,
        layers: &Layers,
        k: usize,
    ) -> Result<Option<Value>, NoMemory>
        ensures { IfOk result (λ value. value ≡ slice_get (values_of self.now field layers.now) k) }
    {
        match self.of {
            Lender::Tree(tree) => tree_value(tree, field, layers, k),
            Lender::Outline(outline) => outline.value(field, layers, k),
        }
    }

    /// How many layers there are.
    pub fn layer_count(&self) -> usize
        ensures { result ≡ length self.now.layers }
    {
        match self.of {
            Lender::Tree(tree) => tree.layers().len(),
            Lender::Outline(outline) => outline.layer_count(),
        }
    }

    /// The protocol of the layer at a place.
    pub fn protocol(&self, place: usize) -> FieldId
        requires { place < length self.now.layers }
        ensures { result ≡ proto_at self.now.layers place }
    {
        match self.of {
            Lender::Tree(tree) => tree_protocol(tree, place),
            Lender::Outline(outline) => outline.protocol(place),
        }
    }
}
