// The wires by their codes and names: "each once", and "the caller names the two wires".
ghost use Rattle.std.specs.Prelude.{◌≡◌, false, replicate};
ghost use Rattle.vcd_read.specs.Wires.{told, left, clash_of, twice_of, code_named, filled};

use crate::wires::{WireHere, Wires};

// The code of the wire of this name.
pub fn code_named(mut wires: Wires, name: &[u8]) -> Option<u8>
    ensures { result ≡ code_named name.now (left wires.entry) }
{
    wires.find(|wire| wire.name == name).map(|wire| wire.code)
}

// Whether one of the others has this wire's code or name.
fn clashes(wire: WireHere, mut others: Wires) -> bool
    ensures { result ≡ clash_of (told wire.entry) (left others.entry) }
{
    others.any(|other| other.code == wire.code || other.name == wire.name)
}

// "each once": whether two of the wires have the same code or the same name.
pub fn twice(mut wires: Wires) -> bool
    ensures { result ≡ twice_of (left wires.entry) }
{
    // Kept: a `while`, for each turn asks the wires still left, and `for wire in wires` goes over a copy of them.
    while let Some(wire) = wires.next() {
        if clashes(wire, wires) {
            return true;
        }
    }
    false
}

// "those codes": which bytes are codes.
pub fn codes_of(wires: Wires) -> [bool; 256]
    ensures { result ≡ filled (left wires.entry) (replicate 256 false) }
{
    let mut codes = [false; 256];
    for wire in wires {
        codes[wire.code as usize] = true;
    }
    codes
}
