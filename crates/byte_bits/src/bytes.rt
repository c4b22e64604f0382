// One bit of a byte, and the byte of eight bits.
ghost use Rattle.std.specs.Prelude.{◌≤◌, ◌≡◌};
ghost use Rattle.byte_bits.specs.Bytes.{has_bit, weight_of, byte_of};

// Whether a byte's bit is set, 0 its lowest. A byte has no bit above 7.
pub fn has_bit(byte: u8, number: u8) -> bool
    ensures { result ≡ has_bit byte number }
{
    if number < 8 {
        return (byte >> number) % 2 == 1;
    }
    false
}

// What a bit adds to its byte.
fn weight_of(bit: bool, weight: u8) -> u8
    ensures { (result ≡ weight_of bit weight) × (result ≤ weight) }
{
    u8::from(bit) * weight
}

// The byte whose bits these are, bit 7 first, as document 01 lists them.
pub fn byte_of(
    bit7: bool,
    bit6: bool,
    bit5: bool,
    bit4: bool,
    bit3: bool,
    bit2: bool,
    bit1: bool,
    bit0: bool,
) -> u8
    ensures { result ≡ byte_of bit7 bit6 bit5 bit4 bit3 bit2 bit1 bit0 }
{
    let high = weight_of(bit7, 128)
        + weight_of(bit6, 64)
        + weight_of(bit5, 32)
        + weight_of(bit4, 16);
    let low = weight_of(bit3, 8) + weight_of(bit2, 4) + weight_of(bit1, 2) + weight_of(bit0, 1);
    high + low
}
