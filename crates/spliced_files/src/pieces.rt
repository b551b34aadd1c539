//! The text of a fuse file up to its first asterisk, and what follows it.

ghost use Rattle.std.specs.Prelude.{◌≡◌, ◌+◌, ◌<◌, ◌∷◌, [], IfSome, MatchOption, drop, length, take};
ghost use Rattle.spliced_files.specs.Prelude.{pieces};

use jedec_reader::place_of;

/// How many bytes precede the first asterisk. Takes no memory.
pub fn piece_len(text: &[u8]) -> Option<usize>
    ensures pieces { MatchOption result
        (pieces text.now ≡ text.now ∷ [])
        (λ k. pieces text.now ≡ take k text.now ∷ pieces (drop (k + 1) text.now)) }
    ensures within { IfSome result (λ k. k < length text.now) }
{
    place_of(text, b'*')
}
