// The output pins.
ghost use Rattle.std.specs.Prelude.{◌≡◌};
ghost use Rattle.outputs.specs.Outputs.{fresh_outputs, bits_set, bits_reset, outputs_chosen, opcr_not_modelled};
ghost use Rattle.outputs.specs.Outputs.{driven_by, driven_op3, op_levels};

use byte_bits::{byte_of, has_bit};

#[repr(C)]
#[derive(Clone, Copy)]
pub struct Outputs {
    // the output bits
    pub bits: u8,
    pub opcr: u8,
}

// "Chip reset: .. every other register, .. and output bit 0"
pub fn fresh_outputs() -> Outputs
    ensures { result ≡ fresh_outputs }
{
    Outputs { bits: 0, opcr: 0 }
}

// "set OP bits"
pub fn set_bits(outputs: Outputs, byte: u8) -> Outputs
    ensures { result ≡ bits_set outputs byte }
{
    Outputs {
        bits: outputs.bits | byte,
        opcr: outputs.opcr,
    }
}

// "reset OP bits"
pub fn reset_bits(outputs: Outputs, byte: u8) -> Outputs
    ensures { result ≡ bits_reset outputs byte }
{
    Outputs {
        bits: outputs.bits & !byte,
        opcr: outputs.opcr,
    }
}

pub fn choose_outputs(outputs: Outputs, opcr: u8) -> Outputs
    ensures { result ≡ outputs_chosen outputs opcr }
{
    Outputs {
        bits: outputs.bits,
        opcr: opcr,
    }
}

// "OPCR bits 1-0 not 00, or bits 3-2 = 10 or 11": bits 3-2 are then above 01.
pub fn opcr_not_modelled(opcr: u8) -> bool
    ensures { result ≡ opcr_not_modelled opcr }
{
    (opcr % 4 != 0) | (opcr / 8 % 2 == 1)
}

// "OPCR bits 7, 6, 5, 4 turn OP7, 6, 5, 4 into the complement of ISR bits 4, 0, 5, 1.": what such a pin is
// the complement of.
fn driven_by(outputs: Outputs, isr: u8, pin: u8, source: u8) -> bool
    ensures { result ≡ driven_by outputs isr pin source }
{
    if has_bit(outputs.opcr, pin) {
        return has_bit(isr, source);
    }
    has_bit(outputs.bits, pin)
}

// "OPCR 3-2 = 01 puts the timer output on OP3, or in counter mode the complement of ISR bit 3.": what OP3
// is the complement of, `timer` being that level.
fn driven_op3(outputs: Outputs, timer: bool) -> bool
    ensures { result ≡ driven_op3 outputs timer }
{
    if outputs.opcr / 4 % 4 == 1 {
        return !timer;
    }
    has_bit(outputs.bits, 3)
}

// "OP pins are the complement of the output bits.": all of them where OPCR turns none into something else.
pub fn op_levels(outputs: Outputs, isr: u8, timer: bool) -> u8
    ensures { result ≡ op_levels outputs isr timer }
{
    if outputs.opcr == 0 {
        return !outputs.bits;
    }
    let driven = byte_of(
        driven_by(outputs, isr, 7, 4),
        driven_by(outputs, isr, 6, 0),
        driven_by(outputs, isr, 5, 5),
        driven_by(outputs, isr, 4, 1),
        driven_op3(outputs, timer),
        has_bit(outputs.bits, 2),
        has_bit(outputs.bits, 1),
        has_bit(outputs.bits, 0),
    );
    !driven
}
