//! What is found of a pointer that is not known at a place.

use crate::ways::Way;
use geos_flow::Edge;
use geos_image::Pointer;

/// Ways meet, of which one brings a pointer and another does not.
#[derive(Clone, Copy)]
pub(crate) struct Meeting {
    /// Where they lead.
    pub to: u16,
    /// The first that brings it.
    pub known: Way,
    /// The first that does not.
    pub lost: Way,
}

/// Why a pointer is not known, if no instruction lost it.
#[derive(Clone, Copy)]
pub(crate) enum End {
    /// It is not set from the beginning of the routine on, whose entry row does not know it.
    Unset,
    /// No way leads to this pc, from where it is lacking.
    Unreached(u16),
    /// Each way to this pc brings it, and the row still does not know it.
    Merged(u16),
    /// This way brings it into this slot, which is empty there.
    Nowhere(Way, u8),
}

/// An instruction lost a pointer.
#[derive(Clone, Copy)]
pub(crate) struct Loss {
    /// The edge on which it did.
    pub edge: Edge,
    /// What is known of the pointer on some path to the place.
    pub hint: Option<Pointer>,
}

/// What is found of a pointer that is not known.
#[derive(Clone, Copy)]
pub(crate) struct Finding {
    /// Where paths join of which one brings the pointer and another does not.
    pub meeting: Option<Meeting>,
    /// Why it is not known, on the way that does not bring it.
    pub end: Option<End>,
    /// By what it was lost.
    pub lost: Option<Loss>,
}
