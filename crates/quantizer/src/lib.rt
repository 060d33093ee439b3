// Document 01, **Code** and **Estimate**, one value at a time: what estimate, quantiser, packer and reader share.
#![tactic(auto)]

pub mod counts;
pub mod tables;
