// The register of a sheet: what its marks, its waiting requests and its state have to be, told by the calls that are made on it; and the law that
// every run of calls keeps to it.
#![tactic(auto)]

pub mod law;
pub mod request;
