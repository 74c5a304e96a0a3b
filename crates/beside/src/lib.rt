// What stands beside the runs: the fitness test and the report of a mask table, masked inversion, the sorter of replies and the
// converter of what early modules stored. No run can be reached from here, and none needs it.
#![tactic(auto)]

mod count;
mod fit;
mod host;
mod inversion;
mod lines;
mod stored;

pub use count::mask_count;
pub use fit::fitness;
pub use host::{Sorted, sort_reply};
pub use inversion::masked_inverse;
pub use lines::{Summary, report, triples};
pub use stored::convert;
