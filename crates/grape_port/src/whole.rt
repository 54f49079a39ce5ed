ghost use Rattle.std.specs.Prelude.{◌≡◌, ◌≤◌, OnOk, OnErr};
ghost use Rattle.grape_port.specs.Ports.{Rose, Appends, AppendsFront};

use crate::faults::Failed;
use crate::sink::Sink;

/// Writes all of `bytes`, in as many calls as the sink takes for them. It doesn't flush.
///
/// `Failed` comes where a call failed. The bytes before that call are then written, and no others.
pub fn write_all<O: Sink>(out: &mut O, bytes: &[u8]) -> Result<(), Failed>
    ensures appended { OnOk result (Appends (O.written out.old) bytes.now (O.written out.new)) }
    ensures err { OnErr result (AppendsFront (O.written out.old) bytes.now (O.written out.new)) }
    ensures fault { OnErr result (Rose (O.faults out.old) (O.faults out.new)) }
    ensures faults_stay { O.faults out.old ≤ O.faults out.new }
{
    let mut done = 0;
    'pieces: while done < bytes.len() {
        done += out.write(&bytes[done..])?;
    }
    Ok(())
}
