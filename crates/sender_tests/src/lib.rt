//! Tests of the sender's side: catalogs, plans and the datagrams of small sessions. There is nothing here but tests.
#![tactic(auto)]

#[cfg(test)]
mod tests;
