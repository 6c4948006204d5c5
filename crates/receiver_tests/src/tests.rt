//! Receivers of one session.
mod arrivals;
mod blocks;
mod costs;
mod datagrams;
mod instances;
mod objects;
mod same;
mod standings;
mod trial;
