//! Lemmas on arrays in bytes.
ghost use Rattle.std.specs.Prelude.{◌≡◌, ◌≢◌, ℕ, List, length, Option, Some};
ghost use Rattle.geos_terms.specs.Bytes.{AreBytes};
ghost use Rattle.geos_terms.specs.Chunks.{bytes_of};
ghost use Rattle.geos_terms.specs.Arrays.{Array, arr, empty, spelled, with_element, without_element, with_element_bytes};
ghost use Rattle.geos_terms.specs.ArrayEdits.{array_of, with_array};
ghost use Rattle.chunk_array.specs.Changes.{ChangesArray, EditsChangeArrays, IsSized};

/// An array whose elements have its size, if it has one, is read back from the list that encodes
/// it, and from a chunk in which it replaces another. Each array that is read is such an array.
/// Conversely, a list of bytes that is read as an array is the one that encodes it.
///
/// The numbers in elements are arbitrary. If one of them is no byte, or the count, the size or
/// an offset is no word, the list that encodes the array has numbers that are no bytes, and is
/// in no block.
pub fn arrays_are_read_back()
    ensures read { (a : Array) → IsSized a → arr (spelled a) ≡ Some a }
    ensures there { (chunks : List (Option (List ℕ))) (c : ℕ) (old new : Array) → arr (bytes_of chunks c) ≡ Some old → IsSized new
        → arr (bytes_of (with_array chunks c new) c) ≡ Some new }
    ensures sized { (bytes : List ℕ) (a : Array) → arr bytes ≡ Some a → IsSized a }
    ensures once { (bytes : List ℕ) (a : Array) → AreBytes bytes → arr bytes ≡ Some a → spelled a ≡ bytes }
{}

/// Edits of arrays do not change the size of elements, if they
/// have one; bytes that replace an element must have this size.
pub fn edits_keep_sizes()
    ensures by_empty { (k : ℕ) → IsSized (empty k) }
    ensures by_insert { (a : Array) (i n : ℕ) → IsSized a → IsSized (with_element a i n) }
    ensures by_remove { (a : Array) (i : ℕ) → IsSized a → IsSized (without_element a i) }
    ensures by_set { (a : Array) (i : ℕ) (bytes : List ℕ) → (a.element_size ≢ 0 → length bytes ≡ a.element_size) → IsSized a
        → IsSized (with_element_bytes a i bytes) }
{}

/// What the model says of the calls on arrays, which is what the kernel's calls do to the chunks
/// of their block: if the call is not refused, the chunk encoded an array, and afterwards encodes
/// that array with the change that the call's name says. So later calls find that array there:
/// after `append` the count is one more, and so on.
pub fn edits_change_arrays()
    ensures edits { EditsChangeArrays }
    ensures found { (old new : List (Option (List ℕ))) (c : ℕ) (change : Array → Array) → ChangesArray old new c change
        → array_of new c ≡ change (array_of old c) }
{}
