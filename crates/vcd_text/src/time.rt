// "Tick n, from 1, stands at the whole part of n x 625,000 / 2,304 ns."
ghost use Rattle.std.specs.Prelude.{◌≡◌};
ghost use Rattle.vcd_text.specs.Time.{time_of};

// No product of a number of 32 bits leaves 64.
pub fn tick_time(tick: u32) -> u64
    ensures { result ≡ time_of tick }
{
    u64::from(tick) * 625000 / 2304
}
