//! Laws of bodies, for the crates above. Nothing is done: each function's contract is the law.

ghost use Rattle.std.specs.Prelude.{◌≡◌, ℕ, ◌+◌, ◌≤◌, List, ◌++◌, length, false, Ok, Err};
ghost use Rattle.std.specs.List.{flat_map};
ghost use Rattle.httparse.specs.Grammar.{ChunkLine, chunk_size};
ghost use Rattle.http_frames.specs.declared.body.BodyKind.{BodyKind};
ghost use Rattle.http_frames.specs.declared.fault.WireFault.{WireFault};
ghost use Rattle.http_frames.specs.Body.{body_in, is_whole, reads_body, body_start};
ghost use Rattle.http_frames.specs.Seen.{ReaderKept};
ghost use Rattle.http_frames.specs.Ahead.{ahead};
ghost use Rattle.http_frames.specs.Spelling.{chunk_data, chunked_spelling, AreWireChunks, WireChunk, IsSizeLine};
ghost use Rattle.http_frames.specs.Spelling.{IsTrailer};
ghost use Rattle.http_frames.specs.Standing.{StandsFor};

use crate::body::BodyKind;

/// What is spelled as chunks, with a trailer or none, is read as the bytes of the chunks, where there is room for them.
pub fn chunks_are_read()
    ensures value { (room : ℕ) (cs : List WireChunk) (last : ChunkLine) (lines : List (List ℕ)) → AreWireChunks cs
        → IsSizeLine last → chunk_size last ≡ 0 → IsTrailer lines → length (flat_map chunk_data cs) ≤ room
        → body_in room BodyKind.Chunked (chunked_spelling cs last lines) ≡ Ok (flat_map chunk_data cs) }
{}

/// A first fault stays the first, whatever follows.
pub fn fault_stays()
    ensures value { (room : ℕ) (k : BodyKind) (b c : List ℕ) (f : WireFault)
        → reads_body room (body_start k) b ≡ Err f → reads_body room (body_start k) (b ++ c) ≡ Err f }
{}

/// Each byte of a body that isn't whole yet lowers the number of bytes that may still come by one.
pub fn bodies_end()
    ensures value { (k : BodyKind) (b c before after : List ℕ) (h n : ReaderKept) → StandsFor k b h before
        → StandsFor k (b ++ c) n after → length after ≡ length before → is_whole n.next ≡ false
        → ahead (length before) n + length c ≤ ahead (length before) h }
{}
