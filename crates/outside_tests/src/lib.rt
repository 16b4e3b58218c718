//! Tests of the outside: adapters over real files and writers, and links in memory.
#![tactic(auto)]

#[cfg(test)]
mod tests;
