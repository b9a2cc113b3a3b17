//! The numbers that commands may be given.

/// A number that a command may be given, and its limits. The table of commands describes it.
#[derive(Clone, Copy)]
pub(crate) struct Number {
    /// What `arguments` calls it.
    pub(crate) name: &'static str,
    pub(crate) least: u32,
    pub(crate) most: u32,
    /// It is a multiple of this.
    pub(crate) unit: u32,
}

/// The bytes of an area of a VM file.
pub(crate) const AREA: Number = Number {
    name: "area",
    least: 512,
    most: 16_777_216,
    unit: 512,
};

/// The bytes of the region that blocks in memory lie in.
pub(crate) const REGION: Number = Number {
    name: "region",
    least: 65_536,
    most: 16_777_216,
    unit: 1,
};

/// The last step of a run that can be shown.
pub(crate) const LAST_STEP: u32 = 1_000_000;

/// Steps of a run, counted from 1.
#[derive(Clone, Copy)]
pub(crate) struct StepRange {
    /// How many steps precede the first one.
    pub(crate) skipped: u32,
    pub(crate) last: u32,
}

/// The steps of a text `N`, which are the first N, or `A..B`. `None` of any other text, or if no step or one after `LAST_STEP` is named.
pub(crate) fn steps_in(text: &str) -> Option<StepRange> {
    let (skipped, last) = match text.split_once("..") {
        Some((first, last)) => (number_in(first)?.checked_sub(1)?, number_in(last)?),
        None => (0, number_in(text)?),
    };
    let is_empty = skipped > 0 && last <= skipped;
    if is_empty || last > LAST_STEP {
        return None;
    }
    Some(StepRange { skipped, last })
}

/// The highest budget of routines that are run.
pub(crate) const MOST_STEPS: Number = Number {
    name: "most-steps",
    least: 0,
    most: 4_294_967_295,
    unit: 1,
};

/// The bytes that blocks in memory may have.
pub(crate) const MOST_BYTES: Number = Number {
    name: "most-bytes",
    least: 0,
    most: 4_294_967_295,
    unit: 1,
};

/// The blocks of global memory.
pub(crate) const MOST_BLOCKS: Number = Number {
    name: "most-blocks",
    least: 0,
    most: 1_024,
    unit: 1,
};

/// The columns of a drawing.
pub(crate) const WIDTH: Number = Number {
    name: "width",
    least: 60,
    most: 1_000,
    unit: 1,
};

/// The number of a text of digits only, if it has 32 bits.
pub(crate) fn number_in(text: &str) -> Option<u32> {
    if text.starts_with('+') {
        return None;
    }
    text.parse().ok()
}
