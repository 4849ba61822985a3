//! Tests of messages: the answers of two servers, messages with faults, and long ones.
#![tactic(auto)]

#[cfg(test)]
mod aliases;
#[cfg(test)]
mod contents;
#[cfg(test)]
mod faults;
#[cfg(test)]
mod headers;
#[cfg(test)]
mod long_messages;
#[cfg(test)]
mod messages;
#[cfg(test)]
mod names;
#[cfg(test)]
mod printed;
#[cfg(test)]
mod sections;
#[cfg(test)]
mod services;
