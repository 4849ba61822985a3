//! Laws of the definitions of names and of the texts of addresses, each proved for all arguments. The functions do nothing when they run.

// Names.
ghost use Rattle.name_spec.specs.Laws.{NameByStep, PointedByStep, NameHasLabels, NameReadBack, NameInReadBack, NameInWire};

/// `name_at` is `name_step` of itself, so the number of steps in its definition is of no account.
pub fn name_by_step()
    ensures { NameByStep }
{}

/// `is_pointed` is `pointed_step` of itself.
pub fn pointed_by_step()
    ensures { PointedByStep }
{}

/// The labels of a name that was read have 1 to 63 octets each, and with their lengths at most 254.
pub fn name_has_labels()
    ensures { NameHasLabels }
{}

/// The octets of a name, wherever they stand in a message, are read as that name.
pub fn name_read_back()
    ensures { NameReadBack }
{}

/// The octets of a name are wholly that name.
pub fn name_in_read_back()
    ensures { NameInReadBack }
{}

/// Octets that are wholly a name are the octets of that name.
pub fn name_in_wire()
    ensures { NameInWire }
{}

// Texts of addresses.
ghost use Rattle.name_spec.specs.AddressLaws.{Ipv4ByGrammar, Ipv6ByGrammar, Ipv4ReadBack, Ipv6ReadBack};

/// A text is read as an IPv4 address exactly where the grammar has it as that address.
pub fn ipv4_by_grammar()
    ensures { Ipv4ByGrammar }
{}

/// A text is read as an IPv6 address exactly where the grammar has it as that address.
pub fn ipv6_by_grammar()
    ensures { Ipv6ByGrammar }
{}

/// The printed text of four octets is read as these octets.
pub fn ipv4_read_back()
    ensures { Ipv4ReadBack }
{}

/// The printed text of 16 octets is read as these octets.
pub fn ipv6_read_back()
    ensures { Ipv6ReadBack }
{}
