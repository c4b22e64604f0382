// "Crystal ticks, 16X pulses and whole bits are three counts the manual keeps apart."

// Ticks of the 3.6864 MHz crystal: a divider's period and its phase.
#[repr(C)]
#[derive(Clone, Copy)]
pub struct Ticks(pub u64);

// Pulses of a side's clock, which are 16X pulses, or with a 1X clock one a bit: a frame's length, a
// stop length in sixteenths; and those of a pin that /16 counts.
#[repr(C)]
#[derive(Clone, Copy)]
pub struct Pulses(pub u8);

// Whole bits: the data bits of a character, a stop length with a 1X clock, a bit's place in a frame.
#[repr(C)]
#[derive(Clone, Copy)]
pub struct Bits(pub u8);
