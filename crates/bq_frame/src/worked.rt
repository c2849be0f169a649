//! Worked values of what is read and written: bytes are little-endian, and all other bytes stay.

ghost use Rattle.std.specs.Prelude.{◌≡◌, ◌++◌, [], ◌∷◌, drop, replicate, slice_index, slice_range, take};
ghost use Rattle.std.specs.List.{splice};
ghost use Rattle.bq_word.specs.Word.{le_bytes, le_number};

/// What the definitions say at telling operands.
pub fn worked()
    // Numbers that are read: the bytes from the place on, of which the first is the lowest.
    ensures one_byte { le_number (slice_range (1 ∷ 2 ∷ 3 ∷ []) 1 2) ≡ 2 }
    ensures two_bytes { le_number (slice_range (1 ∷ 2 ∷ 3 ∷ []) 1 3) ≡ 770 }
    ensures four_bytes { le_number (slice_range (0 ∷ 1 ∷ 2 ∷ 3 ∷ 4 ∷ 5 ∷ []) 1 5) ≡ 67305985 }
    ensures eight_bytes { le_number (slice_range (0 ∷ 1 ∷ 2 ∷ 3 ∷ 4 ∷ 5 ∷ 6 ∷ 7 ∷ 8 ∷ 9 ∷ []) 1 9) ≡ 578437695752307201 }

    // Bytes that are put: so many of the lowest, the lowest first.
    ensures one_put { splice (9 ∷ 9 ∷ 9 ∷ []) 1 2 (le_bytes 1 578437695752307201) ≡ 9 ∷ 1 ∷ 9 ∷ [] }
    ensures two_put { splice (9 ∷ 9 ∷ 9 ∷ 9 ∷ []) 1 3 (le_bytes 2 578437695752307201) ≡ 9 ∷ 1 ∷ 2 ∷ 9 ∷ [] }
    ensures four_put { splice (9 ∷ 9 ∷ 9 ∷ 9 ∷ 9 ∷ 9 ∷ []) 1 5 (le_bytes 4 578437695752307201) ≡ 9 ∷ 1 ∷ 2 ∷ 3 ∷ 4 ∷ 9 ∷ [] }
    ensures eight_put { splice (replicate 10 9) 1 9 (le_bytes 8 578437695752307201) ≡ 9 ∷ 1 ∷ 2 ∷ 3 ∷ 4 ∷ 5 ∷ 6 ∷ 7 ∷ 8 ∷ 9 ∷ [] }

    // A block as it is made, and one whose frame was cleared: the first 512 bytes are 0, and the others stay.
    ensures made { slice_index (replicate 640 0) 639 ≡ 0 }
    ensures cleared { slice_index (replicate 512 0 ++ drop 512 (replicate 640 7)) 511 ≡ 0 }
    ensures behind_the_frame { slice_index (replicate 512 0 ++ drop 512 (replicate 640 7)) 512 ≡ 7 }

    // A record behind the frame.
    ensures in_the_frame { slice_index (splice (replicate 640 7) 512 528 (replicate 16 5)) 511 ≡ 7 }
    ensures record_begins { slice_index (splice (replicate 640 7) 512 528 (replicate 16 5)) 512 ≡ 5 }
    ensures record_ends { slice_index (splice (replicate 640 7) 512 528 (replicate 16 5)) 527 ≡ 5 }
    ensures behind_the_record { slice_index (splice (replicate 640 7) 512 528 (replicate 16 5)) 528 ≡ 7 }

    // The record of an entry: its id, its number, and all of the value's bytes.
    ensures entry { le_bytes 8 258 ++ (le_bytes 8 3 ++ take 2 (7 ∷ 8 ∷ 9 ∷ [])) ≡ 2 ∷ 1 ∷ 0 ∷ 0 ∷ 0 ∷ 0 ∷ 0 ∷ 0 ∷ 3 ∷ 0 ∷ 0 ∷ 0 ∷ 0 ∷ 0 ∷ 0 ∷ 0 ∷ 7 ∷ 8 ∷ [] }
    ensures long_value { slice_index (le_bytes 8 258 ++ (le_bytes 8 3 ++ take 112 (replicate 112 7))) 127 ≡ 7 }
{}
