//! Laws of the words of slots, as contracts.

ghost use Rattle.std.specs.Prelude.{ℕ, ◌≡◌, ◌<◌, ◌≤◌, ◌^◌, IsTrue};
ghost use Rattle.switchless.specs.Slots.{slot_word, offered_word, place_of_frame, tag_in, ordinal_in, place_in, frame_in, status_in, is_offered, IsFrameUpTo, last_frame};

/// The parts of a word come back from it, and every word is that of its parts. It is below 2^35 exactly where its status
/// is 0, as it is where the word is free, offered or accepted.
pub fn slot_word_law()
    ensures tag { (tag ordinal place status : ℕ) → tag < 4 → tag_in (slot_word tag ordinal place status) ≡ tag }
    ensures ordinal { (tag ordinal place status : ℕ) → tag < 4 → ordinal < 2 ^ 16 →
        ordinal_in (slot_word tag ordinal place status) ≡ ordinal }
    ensures place { (tag ordinal place status : ℕ) → tag < 4 → ordinal < 2 ^ 16 → place < 2 ^ 17 →
        place_in (slot_word tag ordinal place status) ≡ place }
    ensures status { (tag ordinal place status : ℕ) → tag < 4 → ordinal < 2 ^ 16 → place < 2 ^ 17 →
        status_in (slot_word tag ordinal place status) ≡ status }
    ensures word { (word : ℕ) → slot_word (tag_in word) (ordinal_in word) (place_in word) (status_in word) ≡ word }
    ensures low { (word : ℕ) → status_in word ≡ 0 → word < 2 ^ 35 }
    ensures high { (word : ℕ) → 0 < status_in word → 2 ^ 35 ≤ word }
{}

/// The word that a caller offers counts as offered, and tells of its function and its frame.
pub fn offered_word_law()
    ensures offered { (ordinal frame : ℕ) → ordinal < 2 ^ 16 → IsFrameUpTo last_frame frame →
        IsTrue (is_offered (offered_word ordinal frame)) }
    ensures ordinal { (ordinal frame : ℕ) → ordinal < 2 ^ 16 → IsFrameUpTo last_frame frame →
        ordinal_in (offered_word ordinal frame) ≡ ordinal }
    ensures frame { (ordinal frame : ℕ) → ordinal < 2 ^ 16 → IsFrameUpTo last_frame frame →
        frame_in (offered_word ordinal frame) ≡ frame }
{}
