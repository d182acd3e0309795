// The frame that a line holds: its bytes but the last, where that is their check byte.
ghost use Rattle.std.specs.Prelude.{◌≤◌, length};
ghost use Rattle.hex_text.specs.Held.{Holds};

use crate::digits::decode;
use crate::sum::check_byte;

// A line has at most 8,192 digits.
const DIGITS_MOST: usize = 8192;

// How many bytes the frame has that a line holds, at the front of `out`.
pub fn frame_bytes(line: &[u8], out: &mut [u8]) -> Option<usize>
    requires { 4096 ≤ length out.old }
    ensures { Holds line.now out.new result }
{
    if DIGITS_MOST < line.len() {
        return None;
    }
    let end = decode(line, out)?.checked_sub(1)?;
    if out[end] == check_byte(&out[..end]) {
        Some(end)
    } else {
        None
    }
}
