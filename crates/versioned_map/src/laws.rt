//! Laws about versioned maps, and about the entries that represent them.

ghost use Rattle.versioned_map.specs.Membership.{MembershipIsMeaning, MeaningIsMembership, MeaningIsOne};
ghost use Rattle.versioned_map.specs.Represents.{EmptyIsRepresented, UnitIsRepresented, RunIsRepresented};
ghost use Rattle.versioned_map.specs.Represents.{UnitsGoOn, UnitsAreData, StatesGoOn};
ghost use Rattle.versioned_map.specs.Represents.{MembersRepresent, EntriesAreBounded, VersionsAreBounded};
ghost use Rattle.versioned_map.specs.Represents.{RepresentedIsSafe};

/// A list of entries has at most one meaning.
pub fn one_meaning()
    ensures { MeaningIsOne }
{}

/// The meaning of a clean list can be told by membership alone: which entries are in it, and which of them rank above
/// others of their key.
pub fn meaning_by_members()
    ensures is_meaning { MembershipIsMeaning }
    ensures of_lists { MeaningIsMembership }
{}

/// The empty list of entries represents the map without keys.
pub fn empty_represented()
    ensures { EmptyIsRepresented }
{}

/// If the entries represent a state, then with a command's unit they represent the state after the command.
pub fn unit_represented()
    ensures { UnitIsRepresented }
{}

/// If the entries represent a state, then with the units of the first commands, however many, they represent the state
/// after these commands.
pub fn run_represented()
    ensures { RunIsRepresented }
{}

/// The units of commands, with the unit of the next command behind them, are the units of all these commands.
pub fn units_go_on()
    ensures { UnitsGoOn }
{}

/// All entries of units are objects and tombstones.
pub fn units_are_data()
    ensures { UnitsAreData }
{}

/// With one more command, the last state is the state after this command, and its reply comes behind the others.
pub fn states_go_on()
    ensures { StatesGoOn }
{}

/// Which state entries represent depends neither on their order nor on how often each entry is in the list.
pub fn members_represent()
    ensures { MembersRepresent }
{}

/// Each version that entries have of a key is below the safe version, or not above the key's present version.
pub fn entries_bounded()
    ensures { EntriesAreBounded }
{}

/// Each version that a key had at any time is below the present safe version, or not above the key's present version.
/// So no version is given to the key again.
pub fn versions_bounded()
    ensures { VersionsAreBounded }
{}

/// The greater of the recorded safe version and of the greatest version of the entries plus 1 is a safe version.
pub fn represented_safe()
    ensures { RepresentedIsSafe }
{}
