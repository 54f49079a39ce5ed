use std::marker::Model;

/// What an answer tells of each vertex.
#[derive(Clone, Copy, Debug, PartialEq, Eq)]
pub enum Kind {
    /// Its distance from a source, or `FAR` where no walk leads to it.
    Dist,
    /// The least number of the vertices that it is connected with.
    Label,
    /// 0 where a walk from a source leads to it, and else another number.
    Reach,
    /// A bit for each node of the pattern that it simulates.
    Sim,
}

/// A vertex and its value.
#[derive(Clone, Copy, Debug, PartialEq, Eq)]
pub struct AnswerRow {
    /// The number of the vertex.
    pub id: u32,
    /// Its value, which is read by the answer's kind.
    pub value: u64,
}

/// An answer: its kind, and a row for each vertex.
#[derive(Drop)]
pub struct Answer {
    pub kind: Kind,
    pub rows: Vec<AnswerRow>,
}

impl Model for Answer {
    ghost use Rattle.answer_text.specs.AnswerTable.{AnswerTable};

    ghost Value = { AnswerTable };

    ghost view = { λ a. record { kind = a.kind; rows = a.rows.items } };
}
