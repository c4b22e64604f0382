// The front, and what an event makes of it.
ghost use Rattle.std.specs.Prelude.{◌≡◌};
ghost use Rattle.front.specs.Front.{front_at, side_handed, handed_nothing, handed_a, handed_b};

use feed::Feed;
use front_side::{Side, fresh_side};
use inputs::Inputs;
use outputs::{Outputs, fresh_outputs};
use timer_state::{Timer, fresh_timer};

#[repr(C)]
#[derive(Clone, Copy)]
pub struct Front {
    pub a: Side,
    pub b: Side,
    pub timer: Timer,
    pub inputs: Inputs,
    pub outputs: Outputs,
    pub acr: u8,
    pub imr: u8,
    pub ivr: u8,
}

// The front after an event, and what each receiver is handed.
#[derive(Clone, Copy)]
pub struct Handed {
    pub front: Front,
    pub a: Feed,
    pub b: Feed,
}

// The same of one side.
#[derive(Clone, Copy)]
pub struct SideHanded {
    pub side: Side,
    pub feed: Feed,
}

// "Chip reset: IVR 15, every other register, .. 0 .. Pin levels stay.": the front after one at these levels.
pub fn front_at(levels: u8) -> Front
    ensures { result ≡ front_at levels }
{
    Front {
        a: fresh_side(),
        b: fresh_side(),
        timer: fresh_timer(),
        inputs: Inputs {
            levels: levels,
            changes: 0,
        },
        outputs: fresh_outputs(),
        acr: 0,
        imr: 0,
        ivr: 15,
    }
}

// A side after an access, and what its receiver is handed.
pub fn hand_side(side: Side, feed: Feed) -> SideHanded
    ensures { result ≡ side_handed side feed }
{
    SideHanded {
        side: side,
        feed: feed,
    }
}

pub fn hand_nothing(front: Front) -> Handed
    ensures { result ≡ handed_nothing front }
{
    Handed {
        front: front,
        a: Feed::Nothing,
        b: Feed::Nothing,
    }
}

// Kept: two routines, for docs/ list both, and C names `a` and `b` as two fields of `Front`.
pub fn hand_a(front: Front, handed: SideHanded) -> Handed
    ensures { result ≡ handed_a front handed }
{
    let side = handed.side;
    let feed_a = handed.feed;
    let feed_b = Feed::Nothing;
    let mut f = front;
    f.a = side;
    Handed {
        front: f,
        a: feed_a,
        b: feed_b,
    }
}

// Kept: as `hand_a`.
pub fn hand_b(front: Front, handed: SideHanded) -> Handed
    ensures { result ≡ handed_b front handed }
{
    let side = handed.side;
    let feed_a = Feed::Nothing;
    let feed_b = handed.feed;
    let mut f = front;
    f.b = side;
    Handed {
        front: f,
        a: feed_a,
        b: feed_b,
    }
}
