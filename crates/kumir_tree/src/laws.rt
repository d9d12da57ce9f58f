//! What constants are. These calls do nothing.

ghost use Rattle.kumir_tree.specs.FaultCodes.{AreFaultCodes};

/// Each code of a fault is its numeral.
pub fn fault_codes_are()
    ensures { AreFaultCodes }
{}
