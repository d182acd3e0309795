// Lines of digits: bytes in hexadecimal with their check byte, the frame that a line holds, and words of 32 bits.
#![tactic(auto)]

mod digits;
mod frame;
mod sum;
mod words;

pub use digits::put_answer;
pub use frame::frame_bytes;
pub use words::{read_words, word_at};
