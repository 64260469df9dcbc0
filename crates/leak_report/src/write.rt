//! Writing a report to a device.
ghost use Rattle.std.specs.Prelude.{◌≡◌, true, OnOk, IsErrOf};
ghost use Rattle.std.specs.Io.KnownBytes.{Appends};
ghost use Rattle.trace_types.specs.Devices.{AppendsFront};
ghost use Rattle.leak_report.specs.Text.{report_text};

use crate::shown::Report;
use crate::text::text_of;
use std::alloc::Global;
use thiserror::Error;
use trace_types::devices::{Sink, write_all};

/// Why a report was not written.
#[derive(Clone, Copy, Debug, PartialEq, Eq, Error)]
pub enum WriteFault {
    #[error("a write failed")]
    Device,
    #[error("out of memory")]
    Memory,
}

/// Writes the whole text of a report. The text is made before any of it is written.
pub fn write_report<K: Sink>(alloc: Global, sink: &mut K, report: &Report) -> Result<(), WriteFault>
    ensures ok { OnOk result
        (Appends (K.held sink.old) (K.held sink.new) (report_text report.now)) }
    ensures ok_unraised { OnOk result (K.failed sink.new ≡ K.failed sink.old) }

    // A prefix of the text was written, and the flag is raised.
    ensures device { IsErrOf result WriteFault.Device
        → AppendsFront (K.held sink.old) (K.held sink.new) (report_text report.now) }
    ensures device_raised { IsErrOf result WriteFault.Device → K.failed sink.new ≡ true }

    // Nothing was written.
    ensures memory { IsErrOf result WriteFault.Memory → sink.new ≡ sink.old }
{
    let text = text_of(alloc, report).map_err(|_| WriteFault::Memory)?;
    write_all(sink, text.as_bytes()).map_err(|_| WriteFault::Device)
}
