//! Tests of the wire: headers, transmission information and datagrams, by worked bytes. There is nothing here but tests.
#![tactic(auto)]

#[cfg(test)]
mod tests;
