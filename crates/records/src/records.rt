// An event and its answer as records.
ghost use Rattle.std.specs.Prelude.{◌≡◌};
ghost use Rattle.records.specs.Records.{event_of, seen_of};

use chip_answers::Lines;
use events::Event;

// "Events: chip reset; read register n; write register n with a byte; interrupt acknowledge; pins (byte: bits
// 0-5 IP0-IP5, 6 RxDA, 7 RxDB); tick." The kinds are 0 to 5, in this order.
#[repr(C)]
#[derive(Clone, Copy)]
pub struct EventRecord {
    // Kept: a number, for C writes it.
    pub kind: u8,
    // the register of a read or a write
    pub reg: u8,
    // the byte of a write, the levels of a pin event
    pub byte: u8,
}

// "The answer has the number, the data byte (0 where none is read), IRQ (1 when asserted), TxDA, TxDB, the OP0-OP7
// levels": all of it but the new state. Order 1: "The receive buffer read shall also say fresh or stale".
// Kept: a number, and a flag beside the byte, for C reads them.
#[repr(C)]
#[derive(Clone, Copy)]
pub struct Seen {
    pub number: u8,
    pub data: u8,
    pub fresh: bool,
    pub irq: bool,
    pub txda: bool,
    pub txdb: bool,
    // bit n is OPn
    pub op: u8,
}

// Every record is an event: a kind above 5 is a read of register 255, which is refused as a "register above 15".
// Kept: a function and no From, for docs/ list it by this name, with its edit.
pub fn event_of(event: EventRecord) -> Event
    ensures { result ≡ event_of event }
{
    match event.kind {
        0 => Event::ChipReset,
        1 => Event::Read(event.reg),
        2 => Event::Write(event.reg, event.byte),
        3 => Event::Acknowledge,
        4 => Event::Pins(event.byte),
        5 => Event::Tick,
        _ => Event::Read(255),
    }
}

// The record of an event, which `event_of` makes the event again.
impl From<Event> for EventRecord {
    ghost from_gives = { λ event made. event_of made ≡ event };

    #[tactic(auto, unfolding(crate::specs::Records::event_of, format::specs::Pick::pick))]
    fn from(event: Event) -> Self {
        let (kind, reg, byte) = match event {
            Event::ChipReset => (0, 0, 0),
            Event::Read(reg) => (1, reg, 0),
            Event::Write(reg, byte) => (2, reg, byte),
            Event::Acknowledge => (3, 0, 0),
            Event::Pins(levels) => (4, 0, levels),
            Event::Tick => (5, 0, 0),
        };
        EventRecord { kind, reg, byte }
    }
}

// Kept: four parameters and no From<Answer>, for docs/ list it so, and `Answer` stands in a crate above.
pub fn seen_of(number: u8, byte: u8, fresh: bool, lines: Lines) -> Seen
    ensures { result ≡ seen_of number byte fresh lines }
{
    Seen {
        number: number,
        data: byte,
        fresh: fresh,
        irq: lines.irq,
        txda: lines.txda,
        txdb: lines.txdb,
        op: lines.op,
    }
}
