//! Potentials: how many steps are left, at most.

/// A bound on the steps that are left before an instruction: the constant, and each
/// coefficient times its counter.
#[derive(Clone, Copy)]
pub struct Potential {
    pub constant: u32,
    /// Of the counters k0 to k3.
    pub coefficients: [u32; 4],
}
