//! Tests of the data of the other records and of records of any type: worked inputs, limits, orders, layouts and
//! copies.
#![tactic(auto)]

#[cfg(test)]
mod field_orders;
#[cfg(test)]
mod ipseckey_limits;
#[cfg(test)]
mod ipseckey_octets;
#[cfg(test)]
mod ipseckey_orders;
#[cfg(test)]
mod ipseckey_texts;
#[cfg(test)]
mod layouts;
#[cfg(test)]
mod limits;
#[cfg(test)]
mod printed;
#[cfg(test)]
mod record_copies;
#[cfg(test)]
mod union_copies;
#[cfg(test)]
mod union_faults;
#[cfg(test)]
mod union_orders;
#[cfg(test)]
mod worked_records;
#[cfg(test)]
mod worked_rows;
