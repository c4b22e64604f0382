// A character put together from samples: how many there are before the stop's, and what they say.
ghost use Rattle.std.specs.Prelude.{◌≡◌};
ghost use Rattle.sampler_state.specs.Assembly.{data_width_of, samples_of, data_weight, data_of, parity_wrong_of};
ghost use Rattle.sampler_state.specs.Assembly.{character_of};

use character::{Character, Marks};
use format::{Bits, Format};

// The data bits that are sampled. A width that MR1 cannot choose, above 8, goes with 8.
fn data_width(format: Format) -> Bits
    ensures { result ≡ data_width_of format }
{
    Bits(format.width.0.min(8))
}

// The samples before the first stop sample: the data bits, and the parity bit if any.
pub fn samples_before_stop(format: Format) -> Bits
    ensures { result ≡ samples_of format }
{
    let width = data_width(format);
    if format::has_parity(format) {
        return Bits(width.0 + 1);
    }
    width
}

// The weight of the first sample above the data bits.
fn data_weight(format: Format) -> u16
    ensures { result ≡ data_weight format }
{
    let width = data_width(format);
    let w = width.0;
    1 << w
}

// The data bits among the samples: "Unused data bits are 0."
fn data_of(format: Format, value: u16) -> u8
    ensures { result ≡ data_of format value }
{
    (value % data_weight(format)) as u8
}

// "A wrong parity bit, forced ones too: parity mark."
fn parity_wrong(format: Format, value: u16) -> bool
    ensures { result ≡ parity_wrong_of format value }
{
    if format::has_parity(format) {
        let right = format::parity_bit(format, data_of(format, value));
        return (value / data_weight(format) % 2 == 1) != right;
    }
    false
}

// The character that the samples before the stop make, and the mark that the stop sample makes: "Low
// stop: framing mark".
pub fn character_of(format: Format, value: u16, stop: bool) -> Character
    ensures { result ≡ character_of format value stop }
{
    Character {
        byte: data_of(format, value),
        marks: Marks {
            broken: false,
            framing: !stop,
            parity: parity_wrong(format, value),
        },
    }
}
