// What the system says of a call that failed, as a line on standard error.
ghost use Rattle.std.specs.Prelude.{◌≤◌, length};

use opnames::Stream;
use std::fmt;
use std::fmt::Write;
use std::io::Error;

// The system's numbers for a name that is longer than any may be, and for bytes that are no text.
pub const NAME_TOO_LONG: i32 = 36;

pub const NO_TEXT: i32 = 84;

// As it is shown, the text of an error stands in front of its number.
const NUMBER: [u8; 11] = *b" (os error ";

// What is shown of an error, as far as there is room.
#[derive(Drop)]
struct Shown {
    bytes: [u8; 256],
    len: usize,
}

impl fmt::Write for Shown {
    fn write_str(&mut self, s: &str) -> fmt::Result {
        for b in s.as_bytes() {
            let len = self.len;
            if len < self.bytes.len() {
                self.bytes[len] = *b;
                self.len = len + 1;
            }
        }
        Ok(())
    }
}

// Where the text ends in what is shown.
fn text_end(shown: &[u8]) -> usize
    ensures { result ≤ length shown.now }
{
    for i in 0..shown.len() {
        if shown[i..].starts_with(&NUMBER) {
            return i;
        }
    }
    shown.len()
}

fn write(text: &[u8]) {
    io::write_all(Stream::Error as i32, text);
}

// What failed, as the caller names it, a colon and the error's text. A path may be no text.
pub fn fail(what: &[u8], error: &Error) {
    let mut shown = Shown {
        bytes: [0; 256],
        len: 0,
    };
    let _ = shown.write(error);
    let end = text_end(&shown.bytes[..shown.len.min(256)]);
    write(what);
    write(b": ");
    write(&shown.bytes[..end]);
    write(b"\n");
}
