// The calls on a sparse state over two lent stores (statevector.rs). A call gives one of the
// refusals of SPECIFICATION 10.1 if one of its conditions holds, and a finished result if none
// does.
#![tactic(auto)]

mod calls;
mod sums;

pub use calls::{check, export, fresh, lookup};
pub use comparison::compare;
pub use dense::import_dense;
pub use estimates::{collapse_delta, forecast};
pub use gates::{Gated, perform_u4};
pub use measurement::measure;
pub use statevector::{Refusal, Side, State};
pub use sums::premeasure;

// The sums of squares of the records whose bit is clear, and of those whose bit is set: what is
// added for outcomes 0 and 1. They may be infinite.
#[derive(Clone, Copy)]
pub struct Squares {
    pub clear: f64,
    pub set: f64,
}
