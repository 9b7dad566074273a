//! A part of a text, in a buffer of its own.

use std::cmp::min;
use std::fmt;
use std::fmt::{Display, Write};
use std::marker::Model;

/// The room of a window, in bytes.
pub(crate) const WINDOW: usize = 65536;

/// The bytes of a text after its first so many, as far as there is room for them. Contracts see its bytes.
#[derive(Drop)]
pub(crate) struct Window {
    /// How many bytes are to be passed over before any is taken.
    left_out: usize,
    bytes: [u8; WINDOW],
    len: usize,
}

impl Model for Window {
    ghost use Rattle.std.specs.Prelude.{List, ℕ, ◌≤◌, take};

    ghost Value = { List ℕ };

    ghost view = { λ window. take window.len window.bytes };

    ghost invariant = { λ window. window.len ≤ 65536 };
}

impl Window {
    /// The window over what a value shows, after its first `start` bytes.
    pub(crate) fn over<T: Display>(shown: &T, start: usize) -> Window {
        let mut window = Window {
            left_out: start,
            bytes: [0; WINDOW],
            len: 0,
        };
        let _whole = write!(window, "{shown}");
        window
    }

    pub(crate) fn as_bytes(&self) -> &[u8] {
        &self.bytes[..self.len]
    }

    /// Whether there is room left in it, so that the text ends there.
    pub(crate) fn has_end(&self) -> bool {
        self.len < WINDOW
    }
}

/// Refuses where a text goes on after the window, so that no more of it is made.
impl Write for Window {
    fn write_str(&mut self, text: &str) -> fmt::Result {
        let left_out = min(self.left_out, text.len());
        self.left_out -= left_out;
        let rest = &text.as_bytes()[left_out..];
        let taken = min(rest.len(), WINDOW - self.len);
        let end = self.len + taken;
        self.bytes[self.len..end].copy_from_slice(&rest[..taken]);
        self.len = end;
        if taken < rest.len() {
            Err(fmt::Error)
        } else {
            Ok(())
        }
    }
}
