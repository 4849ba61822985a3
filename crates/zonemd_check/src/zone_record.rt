//! Records of a zone.

ghost use Rattle.std.specs.Prelude.{◌≡◌};

use std::marker::Model;
use wire_base::Name;
use wire_records::UnknownRecordData;

/// A record of a zone: its owner, class, TTL in seconds, type and data, where the data's octets are in canonical form
/// (RFC 4034, section 6.2).
#[derive(Debug, Drop)]
pub struct ZoneRecord {
    owner: Name,
    class: u16,
    ttl: u32,
    record_data: UnknownRecordData,
}

impl Model for ZoneRecord {
    ghost use Rattle.zonemd_check.specs.ZoneRecordView.{ZoneRecordView};

    ghost Value = { ZoneRecordView };

    ghost view = { λ found. record {
      owner = found.owner;
      class = found.class;
      ttl = found.ttl;
      record_data = found.record_data;
    } };
}

impl ZoneRecord {
    /// The record of its parts.
    pub fn new(owner: Name, class: u16, ttl: u32, record_data: UnknownRecordData) -> ZoneRecord
        ensures { result ≡ record {
          owner = owner;
          class = class;
          ttl = ttl;
          record_data = record_data;
        } }
    {
        ZoneRecord {
            owner,
            class,
            ttl,
            record_data,
        }
    }

    /// The owner.
    pub fn owner(&self) -> &Name
        ensures { result.now ≡ self.now.owner }
    {
        &self.owner
    }

    /// The number of the class.
    pub fn class(&self) -> u16
        ensures { result ≡ self.now.class }
    {
        self.class
    }

    /// The TTL in seconds.
    pub fn ttl(&self) -> u32
        ensures { result ≡ self.now.ttl }
    {
        self.ttl
    }

    /// The type and the data.
    pub fn record_data(&self) -> &UnknownRecordData
        ensures { result.now ≡ self.now.record_data }
    {
        &self.record_data
    }
}
