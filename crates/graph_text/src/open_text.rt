ghost use Rattle.std.specs.Prelude.{◌≡◌, ℕ, ◌+◌, ◌<◌, ◌≤◌, List, [], ◌∷◌, ◌++◌, length, Some, OnOk, IfOk, MatchOption};
ghost use Rattle.text_lines.specs.Lines.{HasNoLineFeed, IsOneLine};

use crate::fault::TextFault;
use crate::next_line::next_line;
use crate::whole_lines::WholeLines;
use grape_port::NoMemory;
use graph_core::{Edge, Job};
use std::alloc::Global;

/// The most bytes of a line, with its line feed.
const LINE_ROOM: usize = 4_097;

/// What was read of a text: its whole lines, judged, and the bytes behind them.
#[derive(Drop)]
pub(crate) struct OpenText {
    whole: WholeLines,
    line: Vec<u8>,
    ghost short: { length line.items ≤ 4097 },
}

impl OpenText {
    ghost use Rattle.graph_core.specs.Graphs.{IsJob};
    ghost use Rattle.graph_text.specs.Input.{input_of, shown_of};
    ghost use Rattle.graph_text.specs.ReaderState.{text_state};
    ghost use Rattle.graph_text.specs.Reader.{HasText, Answers, Gives, DoesSay};

    /// No text, and room for a line.
    pub(crate) fn new(alloc: Global) -> Result<OpenText, NoMemory>
        ensures { IfOk result (λ text. HasText (text_state text) []) }
    {
        match Vec::with_capacity(alloc, LINE_ROOM) {
            Ok(line) => Ok(OpenText {
                whole: WholeLines::new(alloc),
                line,
            }),
            Err(_) => Err(NoMemory),
        }
    }

    /// Reads the next bytes of the text, in time linear in their number. After a fault what is kept is of no use.
    pub(crate) fn read(&mut self, piece: &[u8]) -> Result<(), TextFault>
        ensures answer { (text : List ℕ) → HasText (text_state self.old) text → Answers result (shown_of (text ++ piece.now)) }
        ensures ok { OnOk result ((text : List ℕ) → HasText (text_state self.old) text → HasText (text_state self.new) (text ++ piece.now)) }
    {
        let mut rest = piece;
        'lines: while let Some((end, others, edge)) = next_line(rest) {
            self.end_line(end, edge)?;
            rest = others;
        }
        self.hold(rest)
    }

    /// Reads bytes that end the line, and judges it. A line that lies whole in the piece isn't copied. The edge is what the
    /// bytes are known to say as a line of their own.
    fn end_line(&mut self, end: &[u8], edge: Option<Edge>) -> Result<(), TextFault>
        requires one { IsOneLine end.now }
        requires says { DoesSay end.now edge }
        ensures answer { (text : List ℕ) → HasText (text_state self.old) text → Answers result (shown_of (text ++ end.now)) }
        ensures ok { OnOk result ((text : List ℕ) → HasText (text_state self.old) text → HasText (text_state self.new) (text ++ end.now)) }
    {
        if self.line.is_empty() {
            return self.whole.take_known(end, edge);
        }
        if end.len() > LINE_ROOM - self.line.len() {
            return Err(self.whole.too_long());
        }
        self.line.extend_from_slice(end)?;
        self.whole.take(&self.line)?;
        self.line.clear();
        Ok(())
    }

    /// Keeps bytes of a line that goes on.
    fn hold(&mut self, rest: &[u8]) -> Result<(), TextFault>
        requires { HasNoLineFeed rest.now }
        ensures answer { (text : List ℕ) → HasText (text_state self.old) text → Answers result (shown_of (text ++ rest.now)) }
        ensures ok { OnOk result ((text : List ℕ) → HasText (text_state self.old) text → HasText (text_state self.new) (text ++ rest.now)) }
    {
        if rest.is_empty() {
            return Ok(());
        }
        let length = self.line.len() + rest.len();
        if self.whole.is_too_long(length, length) {
            return Err(self.whole.too_long());
        }
        self.line.extend_from_slice(rest)?;
        Ok(())
    }

    /// The job that the whole text is.
    pub(crate) fn finish(self) -> Result<Job, TextFault>
        requires { (text : List ℕ) × HasText (text_state self) text }
        ensures answer { (text : List ℕ) → HasText (text_state self) text → Gives result (input_of text) }
        ensures job { IfOk result IsJob }
    {
        let OpenText { mut whole, line } = self;
        whole.take_last(&line)?;
        whole.into_job()
    }
}
