// The rows of the table of answers that refuse.
ghost use Rattle.std.specs.Prelude.{◌≡◌};
ghost use Rattle.refusal.specs.Refusal.{number_of, answer_number};

// The rows of document 01's table of answers after the first, which is 0, accepted; 9 is order 5's, 10 and 11 are order
// 7's.
#[derive(Clone, Copy, PartialEq, Eq)]
pub enum Refusal {
    // "the state given is unsound"
    StateUnsound = 1,
    // "register above 15"
    RegisterAbove15 = 2,
    // "read of register 2 or 10"
    ReadForbidden = 3,
    // "command whose bits 3-2 or 1-0 are 11"
    CommandForbidden = 4,
    // "a write (or frame request) choosing a setting not modelled"
    SettingNotModelled = 5,
    // "acknowledge while IRQ is not asserted"
    AcknowledgeUnasserted = 6,
    // "the new state would be unsound"
    NewStateUnsound = 7,
    // "lent space shorter than the frame"
    SpaceShort = 8,
    // "a list or budget over its limit"
    OverLimit = 9,
    // "text outside the subset or a named wire missing"
    TextOutside = 10,
    // "a time not later than the one before"
    TimeNotLater = 11,
}

impl Refusal {
    // "The answer has the number": that of the row.
    pub fn number(self) -> u8
        ensures { result ≡ number_of self }
    {
        self as u8
    }
}

// The number of an answer: 0 where nothing is refused.
pub fn answer_number(refusal: Option<Refusal>) -> u8
    ensures { result ≡ answer_number refusal }
{
    refusal.map_or(0, Refusal::number)
}
