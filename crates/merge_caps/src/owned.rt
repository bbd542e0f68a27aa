// Giving values up.

/// Gives a value up. Where a function has several exits, each hands what it owns to this one, so that its destructor is written out
/// once a type and not at each exit.
pub(crate) fn let_go<T: Drop>(_value: T) {}
