use std::marker::Model;

/// The start values of a worker's places. Contracts see the two vectors as lists.
#[derive(Drop)]
pub struct ShapePart {
    /// The start value of each vertex that the worker owns, in the order of their places.
    pub owned: Vec<u64>,
    /// The start value of each of its mirrors, in the order of their places.
    pub mirrors: Vec<u64>,
}

impl Model for ShapePart {
    ghost use Rattle.token_cut.specs.Shapes.{PartStarts};

    ghost Value = { PartStarts };

    ghost view = { λ p. record { owned = p.owned.items; mirrors = p.mirrors.items } };
}
