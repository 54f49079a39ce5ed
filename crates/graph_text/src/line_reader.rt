ghost use Rattle.std.specs.Prelude.{◌≡◌, ◌≤◌, ℕ, ◌++◌, List, [], length, IfErr, OnOk, IfOk};
ghost use Rattle.graph_core.specs.Graphs.{IsJob};
ghost use Rattle.graph_text.specs.declared.fault.TextFault.{TextFault};
ghost use Rattle.text_lines.specs.Lines.{MAX_INPUT};
ghost use Rattle.graph_text.specs.Input.{input_of, shown_of};
ghost use Rattle.graph_text.specs.Reader.{HasRead, HasFailed, Answers, Gives};

use crate::fault::TextFault;
use crate::open_text::OpenText;
use grape_port::NoMemory;
use graph_core::Job;
use std::alloc::Global;
use std::marker::Model;

/// Reads the lines of an input that comes in pieces. It keeps what the lines say, and of the text at most 4,096 bytes: a
/// line that hasn't ended.
#[derive(Drop)]
pub struct LineReader {
    text: OpenText,
    fault: Option<TextFault>,
}

impl Model for LineReader {
    ghost use Rattle.graph_text.specs.ReaderState.{ReaderState, text_state};
    ghost use Rattle.graph_text.specs.Reader.{IsSound};

    ghost Value = { ReaderState };

    ghost view = { λ r. record { text = text_state r.text; fault = r.fault } };

    ghost invariant = { λ r. IsSound (text_state r.text) r.fault };
}

impl LineReader {
    /// A reader that has read nothing, with room for a line.
    pub fn new(alloc: Global) -> Result<LineReader, NoMemory>
        ensures { IfOk result (λ reader. HasRead reader []) }
    {
        let text = OpenText::new(alloc)?;
        let fault = None;
        Ok(LineReader { text, fault })
    }

    /// Reads the next piece. However the text was cut, the answer is that of the text so far: `Bad` of its first bad line
    /// exactly where that is shown, which is when the line has ended or is too long. `NoMemory` comes only where memory
    /// ran out. A line that lies whole in the piece isn't copied.
    pub fn feed(&mut self, piece: &[u8]) -> Result<(), TextFault>
        ensures answer { (text : List ℕ) → HasRead self.old text → Answers result (shown_of (text ++ piece.now)) }
        ensures ok { OnOk result ((text : List ℕ) → HasRead self.old text → HasRead self.new (text ++ piece.now)) }
        ensures few { OnOk result ((text : List ℕ) → HasRead self.old text → length (text ++ piece.now) ≤ MAX_INPUT) }

        // A fault stays: this call answers it again, and so does each later one.
        ensures err { IfErr result (HasFailed self.new) }
        ensures again { (fault : TextFault) → HasFailed self.old fault → result ≡ Err fault }
    {
        if let Some(fault) = self.fault {
            return Err(fault);
        }
        let answer = self.text.read(piece);
        if let Err(fault) = answer {
            self.fault = Some(fault);
        }
        answer
    }

    /// The job that the whole text is, or `Bad` of its first bad line. Where no line is bad and they make no job, that is
    /// the line behind the last.
    pub fn finish(self) -> Result<Job, TextFault>
        ensures answer { (text : List ℕ) → HasRead self text → Gives result (input_of text) }
        ensures again { (fault : TextFault) → HasFailed self fault → result ≡ Err fault }
        ensures job { IfOk result IsJob }
    {
        let LineReader { text, fault } = self;
        match fault {
            Some(fault) => Err(fault),
            None => text.finish(),
        }
    }
}
