//! Laws of the definitions, each proved for all arguments. The functions do nothing when they run.

// Service parameters.
ghost use Rattle.svcb_spec.specs.Laws.{PairsByStep, WireInOrder, PairsReadBack, PairsInWire};

/// `pairs_at` is `pairs_step` of itself, so the number of steps in its definition is of no account.
pub fn pairs_by_step()
    ensures { PairsByStep }
{}

/// `wire`, which asks for each key in turn, writes the pairs of a map in their order.
pub fn wire_in_order()
    ensures { WireInOrder }
{}

/// A map of service parameters is read back from its octets.
pub fn pairs_read_back()
    ensures { PairsReadBack }
{}

/// Octets that are read as service parameters are the octets of the map that is read, and its keys ascend.
pub fn pairs_in_wire()
    ensures { PairsInWire }
{}

// Values of service parameters.
ghost use Rattle.svcb_spec.specs.Laws.{ValuesReadBack, ValuesEncodeOnce, ValuesInOctets};

/// A value of its key's type is read back from its octets.
pub fn values_read_back()
    ensures { ValuesReadBack }
{}

/// No octets are those of two values of one type and key.
pub fn values_encode_once()
    ensures { ValuesEncodeOnce }
{}

/// The value that octets are under a key, typed or unknown, has that key and these octets.
pub fn values_in_octets()
    ensures { ValuesInOctets }
{}

// Records.
ghost use Rattle.svcb_spec.specs.Laws.{RecordReadBack, OneRecord, ReadIsRecord};

/// The octets of a record are read as that record.
pub fn record_read_back()
    ensures { RecordReadBack }
{}

/// Records with the same octets are one.
pub fn one_record()
    ensures { OneRecord }
{}

/// Data that was read is a record: a priority of 16 bits, the labels of a name, a map, and at most 65,535 octets.
pub fn read_is_record()
    ensures { ReadIsRecord }
{}

// Rebuilding.
ghost use Rattle.svcb_spec.specs.Laws.{RebuiltReadBack, CanonicalForm, RebuiltAgain, AcceptedHeld, AcceptedMap};

/// What was rebuilt is read as the record that was found, with the pairs accepted.
pub fn rebuilt_read_back()
    ensures { RebuiltReadBack }
{}

/// Two results have equal octets exactly where priority, labels and maps are equal.
pub fn canonical_form()
    ensures { CanonicalForm }
{}

/// What was rebuilt stays as it is when it is rebuilt with no pushes, within any limit on its own map.
pub fn rebuilt_again()
    ensures { RebuiltAgain }
{}

/// Each value that was accepted is the one under its key in the final map.
pub fn accepted_held()
    ensures { AcceptedHeld }
{}

/// Pushes keep a map.
pub fn accepted_map()
    ensures { AcceptedMap }
{}

// Data whose end was cut off.
ghost use Rattle.svcb_spec.specs.Truncation.{Truncation};

/// A reader of record data whose end was cut off answers short input, or the same priority and target with a prefix of
/// the parameters. It never answers a form error.
pub fn truncation()
    ensures { Truncation }
{}
