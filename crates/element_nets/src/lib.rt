//! The nets of maps, scans and joins, and the law that each of them obeys in every run of a netlist in which its nets stand. The nets
//! of a map, and of a scan's output, are those of its body, which `push_formula` of `formula_nets` pushes.
#![tactic(auto)]

pub mod join;
mod laws;
pub mod scan;

pub use join::{JoinNets, push_join_forward, push_join_ready};
pub use laws::{joins_obey, maps_obey, scans_obey};
pub use scan::{ScanNets, push_scan_next, push_scan_register};
