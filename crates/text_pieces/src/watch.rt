//! Whether a text that is kept is still needed.

use crate::text::Text;
use std::rc::Weak;

/// Says whether any piece of a kept text is left. It doesn't keep the text alive itself.
#[derive(Drop)]
pub struct Watch {
    text: Weak<Text>,
}

impl Watch {
    pub fn new(text: Weak<Text>) -> Watch {
        Watch { text }
    }

    /// Whether no piece of the text is left, so that its memory is free again.
    pub fn is_gone(&self) -> bool {
        self.text.strong_count() == 0
    }
}
