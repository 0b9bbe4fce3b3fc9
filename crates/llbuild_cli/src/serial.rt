//! A build of one target from nothing, one command after the other.
mod announce;
pub mod build;
mod execute;
mod look;
pub mod seen;
mod settle;
