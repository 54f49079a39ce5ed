use crate::shape_part::ShapePart;
use std::marker::Model;
use value_order::Order;

/// What the snapshots of a job have in common: the order of its values, and where they start. A
/// call that takes a shape asks for at most 64 parts with at most 1,000,000 owned vertices and
/// 1,000,000 mirrors each.
#[derive(Drop)]
pub struct Shape {
    pub order: Order,
    /// A part for each worker, in the order of their numbers.
    pub parts: Vec<ShapePart>,
}

impl Model for Shape {
    ghost use Rattle.token_cut.specs.Shapes.{Starts};

    ghost Value = { Starts };

    ghost view = { λ s. record { order = s.order; parts = s.parts.items } };
}
