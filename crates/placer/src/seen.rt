//! What is read, and of what the enable is assigned, as marks.

ghost use Rattle.placer.specs.Marks.{IsUnion};

use crate::marks::joined;

/// The signals that are read, and those whose enables are assigned: bit k is that of the signal at place k of those that are
/// asked for.
#[derive(Clone, Copy)]
pub struct Seen {
    pub read: u32,
    pub enabled: u32,
}

/// Nothing is read, and no enable assigned.
pub(crate) const NOTHING: Seen = Seen {
    read: 0,
    enabled: 0,
};

/// What both see.
pub(crate) fn both(first: Seen, second: Seen) -> Seen
    ensures { IsUnion first second result }
{
    Seen {
        read: joined(first.read, second.read),
        enabled: joined(first.enabled, second.enabled),
    }
}
