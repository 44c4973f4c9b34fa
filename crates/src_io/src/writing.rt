ghost use Rattle.std.specs.Prelude.{◌≡◌, length, IsOk, OnOk, OnErr};
ghost use Rattle.src_io.specs.Faults.{Rose};
ghost use Rattle.src_io.specs.Written.{Appends, AppendsFront};

use crate::{Failed, Sink};

/// Writes all bytes, and takes no memory. Failed where the device failed, which may have taken a front of them.
pub fn write_all<O: Sink>(sink: &mut O, bytes: &[u8]) -> Result<(), Failed>
    ensures written { OnOk result ((O.faults sink.new ≡ O.faults sink.old)
        × Appends (O.written sink.old) (O.written sink.new) bytes.now) }
    ensures failed { OnErr result (Rose (O.faults sink.old) (O.faults sink.new)
        × AppendsFront (O.written sink.old) (O.written sink.new) bytes.now) }
    ensures accepted { O.accepts sink.old (length bytes.now) → IsOk result }
{
    let mut done = 0;
    while done < bytes.len() {
        done += sink.write(&bytes[done..])?;
    }
    Ok(())
}
