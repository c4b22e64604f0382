// What one event hands to a receiver: a pulse, a command, a read, a chip reset.
use format::Format;

// What a pulse of the receiver's clock carries beside the level: the format, and 16X or 1X, as the
// registers stand.
#[repr(C)]
#[derive(Clone, Copy)]
pub struct Setting {
    pub format: Format,
    // 16X rather than 1X
    pub sixteen: bool,
}

// What bits 6-4 of a command do to a receiver.
#[derive(Clone, Copy)]
pub enum Effect {
    NoEffect,
    // 2 reset receiver
    Reset,
    // 4 clear overrun, block sums and the top character's marks
    ClearErrors,
    // 5 clear break change
    ClearBreakChange,
}

// What bits 1-0 of a command then do to it: `Enables` one that was off. "Enabling it again changes
// nothing.": that is `Stays`. Order 2: a mode change "leaves an enabled receiver as just enabled", by `Enables`.
#[derive(Clone, Copy)]
pub enum Enabling {
    Stays,
    Enables,
    Disables,
}

// What one event hands to a receiver. A pulse reaches an enabled one only: the level of the line, the
// format and 16X or 1X as they stand.
#[derive(Clone, Copy)]
pub enum Feed {
    Nothing,
    Pulse(bool, Setting),
    Command(Effect, Enabling),
    Read,
    ChipReset,
}
