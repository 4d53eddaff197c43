// The serial of an entry: what its bits say, and the serials that are stored.
#![tactic(auto)]

ghost use Rattle.std.specs.Prelude.{◌≡◌, ◌<◌, ◌==◌};
ghost use Rattle.layout.specs.Layout.{slot_size};
ghost use Rattle.serials.specs.Serial.{long_in, short_serial, long_serial, dirty, updated_serial, position};

use layout::Entry;

// The serial's bit that tells a long entry.
const LONG_FLAG: u32 = 0x0001_0000;

// The serial's unit of length: its top byte.
const LENGTH_UNIT: u32 = 0x0100_0000;

// How many positions there are: they go round.
pub const POSITIONS: u32 = 32_768;

// Whether the serial is a long entry's.
pub fn says_long(serial: u32) -> bool
    ensures { result ≡ (long_in serial == 1) }
{
    serial / LONG_FLAG % 2 == 1
}

// The serial of a short entry, of its value's length.
pub fn short_serial(size: usize) -> u32
    requires { size < slot_size }
    ensures { result ≡ short_serial size }
{
    size as u32 * LENGTH_UNIT
}

// The serial of a long entry: its length is the message's.
pub fn long_serial() -> u32
    ensures { result ≡ long_serial }
{
    Entry::MESSAGE_LENGTH * LENGTH_UNIT + LONG_FLAG
}

// The serial while a value is being written: odd.
pub fn dirty_serial(serial: u32) -> u32
    ensures { result ≡ dirty serial }
{
    serial / 2 * 2 + 1
}

// The serial after an update: the counter one on, never carried into the bit that tells a long entry, and the new length.
pub fn next_serial(serial: u32, size: usize) -> u32
    requires { size < slot_size }
    ensures { result ≡ updated_serial serial size }
{
    let counter = dirty_serial(serial).wrapping_add(1);
    counter % LENGTH_UNIT - u32::from(says_long(counter)) * LONG_FLAG + short_serial(size)
}

// The position of a serial: its update count, kept above the dirty bit in the low half.
pub fn position_of(serial: u32) -> u32
    ensures { result ≡ position serial }
{
    serial % (2 * POSITIONS) / 2
}
