//! What was found of bytes that are no fuse file as they are.

/// A way in which bytes differ from a fuse file.
#[derive(Clone, Copy, PartialEq, Eq, Drop)]
pub enum Finding {
    /// There is no start byte.
    NoStart,
    /// There is no end byte.
    NoEnd,
    /// Line ends were CR LF, and are LF.
    LineEnds,
    /// The transmission sum that the file says is not that of its bytes.
    FileSum { read: u16, found: u16 },
    /// The fuse sum that the file says is not that of its fuses.
    FuseSum { read: u16, found: u16 },
}
