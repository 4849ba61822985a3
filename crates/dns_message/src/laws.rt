//! Laws of messages, each proved for all arguments. The functions do nothing when they run.

ghost use Rattle.dns_message.specs.Laws.{RecordsInOrder};

/// The data of the records of a section stands in the message, each behind the one before it, so none overlap.
pub fn records_in_order()
    ensures { RecordsInOrder }
{}
