//! The processor of the triple machine that is built.

ghost use Rattle.s2_triplex.specs.R2000Triplex.{R2000IsTriplexCore};

/// The R2000 over two boards is a core of the triple machine: what the laws use of one holds of it.
pub fn r2000_is_triplex_core()
    ensures { R2000IsTriplexCore }
{}
