//! What holds of containers beyond one call. Each law is the contract of a function that does nothing.

ghost use Rattle.std.specs.Prelude.{◌≡◌, ◌≤◌, ℕ, List, length, Some};
ghost use Rattle.std.specs.List.{All};
ghost use Rattle.s46_options.specs.declared.fault.OptionFault.{OptionFault as FaultType};
ghost use Rattle.s46_options.specs.Digits.{fault_place};
ghost use Rattle.s46_options.specs.Faults.{faults, fault_of};
ghost use Rattle.s46_options.specs.declared.item.Item.{Item as ItemType};
ghost use Rattle.s46_options.specs.Reading.{ReadsContainer};

/// Octets read as one list of items.
pub fn octets_read_as_one_container()
    ensures { (octets : List ℕ) (one other : List ItemType) → ReadsContainer octets one → ReadsContainer octets other → one ≡ other }
{}

/// Law: of all faults that octets show, the one that is told has the least place.
pub fn the_fault_told_is_the_leftmost()
    ensures { (octets : List ℕ) (told : FaultType)
        → fault_of octets ≡ Some told
        → All (λ other. fault_place told (length octets) ≤ fault_place other (length octets)) (faults octets) }
{}
