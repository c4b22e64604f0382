// The commands that the chip does not take.
ghost use Rattle.std.specs.Prelude.{◌≡◌};
ghost use Rattle.events.specs.Command.{command_forbidden};

// "command whose bits 3-2 or 1-0 are 11"
pub fn command_forbidden(byte: u8) -> bool
    ensures { result ≡ command_forbidden byte }
{
    (byte / 4 % 4 == 3) | (byte % 4 == 3)
}
