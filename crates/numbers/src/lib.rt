// Numbers in bytes: the high byte first in `high`, the low byte first in `low`; a signed one from its bits in `signed`.
#![tactic(auto)]

pub mod high;
pub mod low;
pub mod signed;
