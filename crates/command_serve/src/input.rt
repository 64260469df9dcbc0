//! All of an input, read before any of it is parsed.
ghost use Rattle.std.specs.Prelude.{◌≡◌, ◌≢◌, ℕ, ◌+◌, ◌<◌, ◌≤◌, List, length, true, IfOk, IfErr, OnOk, vec_len, IsErrOf};
ghost use Rattle.std.specs.Io.KnownBytes.{Consumes, IsAtEnd};
ghost use Rattle.trace_types.specs.Devices.{IsInput};
ghost use Rattle.command_serve.specs.Serve.{IsRead};

use std::alloc::Global;
use thiserror::Error;
use trace_types::devices::Source;
use trace_types::limits::MAX_INPUT;

/// Why an input can't be had.
#[derive(Clone, Copy, Debug, PartialEq, Eq, Error)]
pub enum InputFault {
    #[error("the input has more than {MAX_INPUT} bytes")]
    TooLong,
    #[error("a read failed")]
    Device,
    #[error("out of memory")]
    Memory,
}

/// How many bytes a read asks for at most.
const PIECE: usize = 65_536;

/// Reads all there is, until a read gives 0 bytes, or one byte more than is allowed.
pub fn read_all<S: Source>(alloc: Global, source: &mut S) -> Result<Vec<u8>, InputFault>
    ensures ok { IfOk result (λ v. Consumes (S.left source.old) (S.left source.new) v.items
        × IsAtEnd (S.left source.new) × (vec_len v ≤ MAX_INPUT)) }
    ensures too_long { IsErrOf result InputFault.TooLong → ((bytes : List ℕ)
        × Consumes (S.left source.old) (S.left source.new) bytes × (length bytes ≡ MAX_INPUT + 1)) }
    ensures input { IfOk result (λ v. IsInput (S.left source.old) v.items
        × IsRead (S.left source.old) (S.left source.new) v.items) }
    ensures long_input { IsErrOf result InputFault.TooLong → ((input : List ℕ)
        × IsInput (S.left source.old) input × IsRead (S.left source.old) (S.left source.new) input
        × (MAX_INPUT < length input)) }
    ensures device { IsErrOf result InputFault.Device → S.failed source.new ≡ true }
    ensures read { OnOk result (S.failed source.new ≡ S.failed source.old) }
    ensures other { IfErr result
        (λ e. e ≢ InputFault.Device → S.failed source.new ≡ S.failed source.old) }
{
    let mut all = Vec::new(alloc);
    let mut piece = [0u8; PIECE];
    'reads: while all.len() <= MAX_INPUT {
        let room = (MAX_INPUT + 1 - all.len()).min(PIECE);
        let n = source
            .read(&mut piece[..room])
            .map_err(|_| InputFault::Device)?;
        if n == 0 {
            return Ok(all);
        }
        all.extend_from_slice(&piece[..n])
            .map_err(|_| InputFault::Memory)?;
    }
    Err(InputFault::TooLong)
}
