//! Laws of groups of scan bytes: a list of groups has the events of each, however its bytes are cut. They don't depend
//! on the scanner.
ghost use Rattle.scan_codes.specs.Laws.{AnyCut, GroupsAreRead};

/// The events of a list of groups are those of each group, in order.
pub fn groups_are_read()
    ensures { GroupsAreRead }
{}

/// Bytes have the same events however they are cut.
pub fn any_cut()
    ensures { AnyCut }
{}
