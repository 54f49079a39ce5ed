ghost use Rattle.std.specs.Prelude.{◌≡◌, ℕ, ◌+◌, ◌<◌, ◌≤◌, ◌||◌, nat_lt, List, [], ◌∷◌, ◌++◌, length, Ok, option_map, OnOk, IfOk};
ghost use Rattle.text_lines.specs.Lines.{lines_of, before_line_feed, words_of, HasNoLineFeed, IsOneLine};
ghost use Rattle.line_statements.specs.Statements.{statement_of};

use crate::fault::TextFault;
use crate::gathered::Gathered;
use graph_core::{Edge, Job};
use line_statements::{Statement, Why, read_statement};
use std::alloc::Global;
use text_lines::length_before_line_feed;

/// The most bytes of a line before its line feed.
const MAX_LINE: u64 = 4_096;

/// The most bytes of an input.
const MAX_INPUT: u64 = 268_435_456;

/// The lines of a text that were judged: how many, how many bytes, and what they say.
#[derive(Drop)]
pub(crate) struct WholeLines {
    count: u64,
    bytes: u64,
    gathered: Gathered,
    ghost few_bytes: { bytes ≤ 268435456 },
    ghost few_lines: { count ≤ bytes },
}

impl WholeLines {
    ghost use Rattle.graph_core.specs.Graphs.{IsJob};
    ghost use Rattle.line_statements.specs.declared.statement.Statement.{Statement as Said};
    ghost use Rattle.graph_text.specs.Input.{bad, cause_among, first_bad, cause_of, job_of_lines};
    ghost use Rattle.graph_text.specs.ReaderState.{gathered_state, lines_state};
    ghost use Rattle.graph_text.specs.Gathering.{Holds};
    ghost use Rattle.graph_text.specs.Reader.{HasLines, Answers, Gives, DoesSay};

    /// No lines.
    pub(crate) fn new(alloc: Global) -> WholeLines
        ensures { HasLines (lines_state result) [] }
    {
        WholeLines {
            count: 0,
            bytes: 0,
            gathered: Gathered::new(alloc),
        }
    }

    /// Whether the next line is too long, if it has `shown` bytes before its line feed and `length` in all.
    pub(crate) fn is_too_long(&self, shown: usize, length: usize) -> bool
        ensures { result ≡ (nat_lt 4096 shown || nat_lt 268435456 (self.now.bytes + length)) }
    {
        shown as u64 > MAX_LINE || length as u64 > MAX_INPUT - self.bytes
    }

    /// That the next line is too long.
    pub(crate) fn too_long(&self) -> TextFault
        ensures { result ≡ TextFault.Bad (self.now.count + 1) Why.TooLong }
    {
        let line = self.count + 1;
        let why = Why::TooLong;
        TextFault::Bad { line, why }
    }

    /// Takes the next line, with its line feed if it has one. The answer is that of the line behind those before it. After
    /// a fault what is kept is of no use.
    pub(crate) fn take(&mut self, line: &[u8]) -> Result<(), TextFault>
        requires { 0 < length line.now }
        ensures answer { (lines : List (List ℕ)) → HasLines (lines_state self.old) lines → Answers result (option_map (bad (length lines + 1)) (cause_of lines line.now)) }
        ensures ok { OnOk result ((lines : List (List ℕ)) → HasLines (lines_state self.old) lines → HasLines (lines_state self.new) (lines ++ line.now ∷ [])) }
    {
        if self.is_too_long(length_before_line_feed(line), line.len()) {
            return Err(self.too_long());
        }
        match read_statement(line) {
            Ok(statement) => self.add(line.len(), statement),
            Err(why) => {
                let line = self.count + 1;
                Err(TextFault::Bad { line, why })
            }
        }
    }

    /// Takes the next line, which ends with its line feed, and says this edge where there is one.
    pub(crate) fn take_known(&mut self, line: &[u8], edge: Option<Edge>) -> Result<(), TextFault>
        requires one { IsOneLine line.now }
        requires says { DoesSay line.now edge }
        ensures answer { (lines : List (List ℕ)) → HasLines (lines_state self.old) lines → Answers result (option_map (bad (length lines + 1)) (cause_of lines line.now)) }
        ensures ok { OnOk result ((lines : List (List ℕ)) → HasLines (lines_state self.old) lines → HasLines (lines_state self.new) (lines ++ line.now ∷ [])) }
    {
        match edge {
            Some(edge) => self.take_edge(line, edge),
            None => self.take(line),
        }
    }

    /// Takes the next line, which says this edge.
    fn take_edge(&mut self, line: &[u8], edge: Edge) -> Result<(), TextFault>
        requires one { IsOneLine line.now }
        requires says { statement_of (words_of line.now) ≡ Ok (Statement.Joins edge) }
        ensures answer { (lines : List (List ℕ)) → HasLines (lines_state self.old) lines → Answers result (option_map (bad (length lines + 1)) (cause_of lines line.now)) }
        ensures ok { OnOk result ((lines : List (List ℕ)) → HasLines (lines_state self.old) lines → HasLines (lines_state self.new) (lines ++ line.now ∷ [])) }
    {
        if self.is_too_long(length_before_line_feed(line), line.len()) {
            return Err(self.too_long());
        }
        self.add(line.len(), Statement::Joins(edge))
    }

    /// Adds a line of this length that says this.
    fn add(&mut self, length: usize, statement: Statement) -> Result<(), TextFault>
        requires some { 0 < length }
        requires few { self.old.bytes + length ≤ 268435456 }
        ensures answer { (ss : List Said) → Holds (gathered_state self.old.gathered) ss → Answers result (option_map (bad (self.old.count + 1)) (cause_among ss (Ok statement))) }
        ensures count { OnOk result (self.new.count ≡ self.old.count + 1) }
        ensures bytes { OnOk result (self.new.bytes ≡ self.old.bytes + length) }
        ensures says { OnOk result ((ss : List Said) → Holds (gathered_state self.old.gathered) ss → Holds (gathered_state self.new.gathered) (ss ++ statement ∷ [])) }
    {
        let line = self.count + 1;
        self.gathered.take(line, statement)?;
        self.count = line;
        self.bytes += length as u64;
        Ok(())
    }

    /// Takes the bytes behind the last line feed, which are a line where there are any.
    pub(crate) fn take_last(&mut self, line: &[u8]) -> Result<(), TextFault>
        requires { HasNoLineFeed line.now }
        ensures answer { (lines : List (List ℕ)) → HasLines (lines_state self.old) lines → Answers result (first_bad cause_of lines (lines_of line.now)) }
        ensures ok { OnOk result ((lines : List (List ℕ)) → HasLines (lines_state self.old) lines → HasLines (lines_state self.new) (lines ++ lines_of line.now)) }
    {
        if line.is_empty() {
            return Ok(());
        }
        self.take(line)
    }

    /// The job that the lines make.
    pub(crate) fn into_job(self) -> Result<Job, TextFault>
        requires { (lines : List (List ℕ)) × HasLines (lines_state self) lines }
        ensures answer { (lines : List (List ℕ)) → HasLines (lines_state self) lines → Gives result (job_of_lines lines None) }
        ensures job { IfOk result IsJob }
    {
        let line = self.count + 1;
        self.gathered.into_job(line)
    }
}
