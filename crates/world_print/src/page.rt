//! What is printed.
use std::alloc::Global;
use std::fmt::Write;
use std::io;
use std::io::ErrorKind;

/// Lines, each of words with a space before them. Where memory is wanting, pieces are lost and the page says so in the end.
#[derive(Drop)]
pub struct Page {
    pub alloc: Global,
    text: String,
    has_lost: bool,
}

impl Page {
    /// An empty page.
    pub fn new(alloc: Global) -> Page {
        Page {
            alloc,
            text: String::new(alloc),
            has_lost: false,
        }
    }

    /// Notes that a piece is lost.
    pub fn lose(&mut self) {
        self.has_lost = true;
    }

    /// Adds a piece as it is.
    pub fn put(&mut self, piece: &str) {
        if self.text.push_str(piece).is_err() {
            self.has_lost = true;
        }
    }

    /// Adds a word.
    pub fn word(&mut self, word: &str) {
        self.put(" ");
        self.put(word);
    }

    /// Adds a number behind what it tells.
    pub fn number(&mut self, label: &str, number: u64) {
        if write!(self.text, " {label} {number}").is_err() {
            self.has_lost = true;
        }
    }

    /// Adds a hexadecimal number behind what it tells.
    pub fn hex(&mut self, label: &str, number: u32) {
        if write!(self.text, " {label} {number:#x}").is_err() {
            self.has_lost = true;
        }
    }

    /// Adds bytes, each as two digits.
    pub fn bytes(&mut self, bytes: &[u8]) {
        for byte in bytes {
            if write!(self.text, " {byte:02x}").is_err() {
                self.has_lost = true;
            }
        }
    }

    /// Ends the line.
    pub fn end(&mut self) {
        self.put("\n");
    }

    /// Prints the page.
    pub fn show(&self, rt: &impl Print) -> io::Result<()> {
        if self.has_lost {
            return Err(io::Error::from(ErrorKind::OutOfMemory));
        }
        rt.print(self.text.as_str())
    }
}
