// A text that is being written: bytes, numbers and lines, each behind what is written already.
ghost use Rattle.std.specs.Prelude.{◌≡◌, ℕ, List, [], ◌∷◌, ◌++◌, ◌+◌, ◌≤◌, length, take};
ghost use Rattle.report_format.specs.Text.{ascii, spaced};
ghost use Rattle.printing.specs.Promise.{text_places, text_of};
ghost use Rattle.printing.specs.Code.{Begun, Appended, decimal_room, line_room};

use crate::{TEXT, Text};
use std::marker::Model;

// Digits of a number at most: those of the largest of 64 bits.
const DIGITS: usize = 20;

// Contracts see the bytes that are written.
#[derive(Drop)]
pub struct Draft {
    text: Text,
}

impl Model for Draft {
    ghost Value = { List ℕ };

    ghost view = { λ draft. take draft.text.length draft.text.bytes };

    ghost invariant = { λ draft. Begun draft.text };
}

impl Draft {
    // Nothing is written yet.
    pub fn new() -> Draft
        ensures { result ≡ [] }
    {
        let text = Text {
            bytes: [0u8; TEXT],
            length: 0,
        };
        Draft { text }
    }

    // The text as it stands.
    pub fn into_text(self) -> Text
        ensures { result ≡ text_of self }
    {
        self.text
    }

    // Writes some bytes.
    pub fn put_bytes(&mut self, bytes: &[u8])
        requires { length self.old + length bytes.now ≤ text_places }
        ensures { self.new ≡ self.old ++ bytes.now }
    {
        let end = self.text.length + bytes.len();
        self.text.bytes[self.text.length..end].copy_from_slice(bytes);
        self.text.length = end;
    }

    // Writes a space and a number in decimal.
    pub fn put_decimal(&mut self, x: u64)
        requires { length self.old + decimal_room ≤ text_places }
        ensures { Appended self.old (spaced (x ∷ [])) decimal_room self.new }
    {
        let mut digits = [0u8; DIGITS];
        let count = io::decimal(x, &mut digits);
        self.put_bytes(b" ");
        self.put_bytes(&digits[..count]);
    }

    // Writes a line: a name and a number.
    pub fn put_line(&mut self, name: &[u8], x: u64)
        requires { length self.old + line_room name.now 1 ≤ text_places }
        ensures { Appended self.old (name.now ++ spaced (x ∷ []) ++ ascii "\n") (line_room name.now 1) self.new }
    {
        self.put_bytes(name);
        self.put_decimal(x);
        self.put_bytes(b"\n");
    }
}
