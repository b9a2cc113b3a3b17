//! The lemma on the test of heaps.

ghost use Rattle.geos_terms.specs.HeapTest.{HeapTestIsExact};

/// The test by which definitions that compute tell a heap is true of heaps, and of nothing else.
pub fn heap_test_is_exact()
    ensures { HeapTestIsExact }
{}
