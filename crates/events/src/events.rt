// "Events: chip reset; read register n; write register n with a byte; interrupt acknowledge; pins (byte: bits
// 0-5 IP0-IP5, 6 RxDA, 7 RxDB); tick."
#[derive(Clone, Copy)]
pub enum Event {
    ChipReset,
    // the register
    Read(u8),
    // the register and the byte
    Write(u8, u8),
    Acknowledge,
    // the levels of all pins
    Pins(u8),
    Tick,
}
