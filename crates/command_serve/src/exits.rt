//! How a command ends.
ghost use Rattle.std.specs.Prelude.{◌≡◌};
ghost use Rattle.command_serve.specs.Exits.{status_of};

/// How a command ended, with the program's exit status.
#[derive(Clone, Copy, Debug, PartialEq, Eq)]
pub enum Exit {
    /// 0: what was due was written.
    Fine,
    /// 1: the input is at fault, or an object that was asked for isn't there; the line that says so was written.
    Trace,
    /// 2: the words are none that the program takes. No command answers it.
    Usage,
    /// 3: a device failed.
    Device,
    /// 4: out of memory.
    Memory,
}

impl Exit {
    /// The program's exit status.
    pub fn status(&self) -> u8
        ensures { result ≡ status_of self.now }
    {
        match self {
            Exit::Fine => 0,
            Exit::Trace => 1,
            Exit::Usage => 2,
            Exit::Device => 3,
            Exit::Memory => 4,
        }
    }
}
