ghost use Rattle.std.specs.Prelude.{◌≡◌, ◌⊎◌, ◌↔◌, IfOk, IfErr, IsErr};
ghost use Rattle.hex.specs.Hex.{decode_of};

use crate::fault::Fault;
use lw_script::is_hex;
use std::alloc::Global;

/// The bytes that a line of hex digits spells, in either case.
pub fn bytes_of_hex(alloc: Global, line: &[u8]) -> Result<Vec<u8>, Fault>
    ensures bytes { IfOk result (λ bytes. decode_of line.now ≡ Ok bytes.items) }
    ensures refused { (result ≡ Err Fault.HexRefused) ↔ IsErr (decode_of line.now) }
    ensures faults { IfErr result (λ e. (e ≡ Fault.HexRefused) ⊎ (e ≡ Fault.NoMemory)) }
{
    if !is_hex(line) {
        return Err(Fault::HexRefused);
    }
    hex::decode(alloc, line).map_err(|_| Fault::NoMemory)
}
