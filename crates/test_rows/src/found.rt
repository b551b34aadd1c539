//! What was found, as a text.

use std::alloc::Global;

/// A text that grows, and that is cut once memory runs out.
#[derive(Drop)]
pub struct Found {
    bytes: Vec<u8>,
    is_cut: bool,
    alloc: Global,
}

const DIGITS: &[u8; 16] = b"0123456789abcdef";

impl Found {
    /// An empty text. Takes no memory.
    pub fn new(alloc: Global) -> Found {
        Found {
            bytes: Vec::new(alloc),
            is_cut: false,
            alloc,
        }
    }

    /// What it holds.
    pub fn bytes(&self) -> &[u8] {
        self.bytes.as_slice()
    }

    /// Whether memory ran out, so that something is missing.
    pub fn is_cut(&self) -> bool {
        self.is_cut
    }

    /// Appends bytes.
    pub fn put(&mut self, bytes: &[u8]) {
        if self.bytes.extend_from_slice(bytes).is_err() {
            self.is_cut = true;
        }
    }

    /// Appends a text.
    pub fn text(&mut self, text: &str) {
        self.put(text.as_bytes())
    }

    /// Appends a number in decimal.
    pub fn number(&mut self, number: usize) {
        match number.to_string(self.alloc) {
            Ok(text) => self.text(text.as_str()),
            Err(_) => self.is_cut = true,
        }
    }

    /// Appends the two hexadecimal digits of a byte.
    fn hex(&mut self, byte: u8) {
        let high = DIGITS[usize::from(byte >> 4)];
        let low = DIGITS[usize::from(byte & 15)];
        self.put(&[high, low])
    }

    /// Appends a byte as a row shows it.
    fn shown_byte(&mut self, byte: u8) {
        match byte {
            b'\n' => self.text("\\n"),
            b'\\' => self.text("\\\\"),
            b' '..=b'~' => self.put(&[byte]),
            _ => {
                self.text("\\x");
                self.hex(byte)
            }
        }
    }

    /// Appends bytes as a row shows them, with escapes.
    pub fn shown(&mut self, bytes: &[u8]) {
        for byte in bytes {
            self.shown_byte(*byte);
        }
    }
}
