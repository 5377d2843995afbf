//! Laws of numbers, addresses and rows, and of the office.
ghost use Rattle.policy_core.specs.Laws.{NumbersUndoAddresses, AddressesUndoNumbers, RowsTellTheTree};
ghost use Rattle.policy_core.specs.Office.{OfficeIsAccepted, OfficesAreAlike};

/// A node's number is below the count of nodes, and gives its address.
pub fn addresses_undo_numbers()
    ensures law { AddressesUndoNumbers }
{}

/// Each number below the count of nodes has an address in the tree, and the address gives the
/// number.
pub fn numbers_undo_addresses()
    ensures law { NumbersUndoAddresses }
{}

/// A tree built by number from the rows of a tree has each row's node at the same address as that
/// tree.
pub fn rows_tell_the_tree()
    ensures law { RowsTellTheTree }
{}

/// The statements of the office fail no clause.
pub fn the_office_is_accepted()
    ensures law { OfficeIsAccepted }
{}

/// Each policy that these statements give is of version 1, has eight classes, and has two nodes
/// with four leaves each below the root.
pub fn offices_are_alike()
    ensures law { OfficesAreAlike }
{}
