//! Laws about what a recovery gives back.

ghost use Rattle.recovery.specs.AnyRecovery.{AnyRecoveryHasHeadline};
ghost use Rattle.recovery.specs.Lives.{AcknowledgedOutlive, VersionsRise};
ghost use Rattle.recovery.specs.Orders.{OrdersNameGroups};
ghost use Rattle.recovery.specs.Succession.{DrilledAreLives};
ghost use Rattle.recovery.specs.Recovered.{AcknowledgedAreRecovered};

/// The headline is true of each recovery that follows a run, whether `recover` or `recover_threads` makes it.
pub fn any_recovery_has_headline()
    ensures { AnyRecoveryHasHeadline }
{}

/// If only durable commands are answered, the prefix that a recovery gives back holds every acknowledged command.
pub fn acknowledged_recovered()
    ensures { AcknowledgedAreRecovered }
{}

/// The orders Forward and Reverse name each group of any plan once, as the clause `refused` of `recover` asks.
pub fn orders_name_groups()
    ensures { OrdersNameGroups }
{}

/// If each life begins with what was recovered of the one before, a key never has a lower version in a later life than
/// it had in what was recovered, nor another value at the same version.
pub fn versions_rise()
    ensures { VersionsRise }
{}

/// A key has in each later life what it had after acknowledged commands, unless a put or delete of it comes between.
pub fn acknowledged_outlive()
    ensures { AcknowledgedOutlive }
{}

/// The lives of `run_lives` follow one another as the laws above ask, and the life that goes on follows them.
pub fn drilled_are_lives()
    ensures { DrilledAreLives }
{}
