//! What masters that start later have in place of the options of the command line.

ghost use Rattle.std.specs.Prelude.{◌≡◌, ◌&&◌, ◌↔◌, IsTrue, true, None, Some};
ghost use Rattle.cluster.specs.master.master_state.Config.{config_fault, has_budget, has_live};
ghost use Rattle.next_master.specs.Configuration.{config_of, later_format, later_options, later_seglets, no_later};
ghost use Rattle.next_master.specs.Configuration.{AreSizes, MayBegin};

use crate::limits::sizes_of;
use command_line::Options;
use packing::is_limit;

/// What masters that start later have in place of the options of the command line.
#[derive(Clone, Copy)]
pub struct Later {
    /// Whether these masters write format 2, and so list each segment with its length.
    pub lists_lengths: bool,
    /// How many seglets they have. None leaves the number of the options.
    pub seglets: Option<u64>,
}

impl Later {
    /// Later masters have the options of the command line.
    pub fn none() -> Later
        ensures { result ≡ no_later }
    {
        Later {
            lists_lengths: false,
            seglets: None,
        }
    }

    /// The same, with format 2.
    pub fn with_lengths(&self) -> Later
        ensures { result ≡ record self.now { lists_lengths = true } }
    {
        Later {
            lists_lengths: true,
            seglets: self.seglets,
        }
    }

    /// The same, with this many seglets.
    pub fn with_seglets(&self, seglets: u64) -> Later
        ensures { result ≡ record self.now { seglets = Some seglets } }
    {
        Later {
            lists_lengths: self.lists_lengths,
            seglets: Some(seglets),
        }
    }

    /// The format of later masters, in place of this one.
    fn format(&self, format: u64) -> u64
        ensures { result ≡ later_format self.now.lists_lengths format }
    {
        if self.lists_lengths { 2 } else { format }
    }

    /// The seglets of later masters, in place of this many.
    fn seglets(&self, seglets: u64) -> u64
        ensures { result ≡ later_seglets self.now.seglets seglets }
    {
        match self.seglets {
            Some(later) => later,
            None => seglets,
        }
    }
}

/// The options of masters that start later.
pub fn later_options(options: &Options, later: &Later) -> Options
    ensures { result ≡ later_options later.now options.now }
{
    let format = later.format(options.format);
    let seglets = later.seglets(options.seglets);
    let mut next = *options;
    next.format = format;
    next.seglets = seglets;
    next
}

/// Whether masters that start later would be within their limits. It takes no memory, and costs a few divisions.
pub fn can_begin(options: &Options, later: &Later) -> bool
    requires { config_fault (config_of options.now 1) ≡ None }
    ensures { IsTrue result ↔ MayBegin later.now options.now }
{
    has_room(&later_options(options, later))
}

/// Whether these options have seglets for four segments, at most 2^32 seglets, and a limit of live bytes that leaves
/// room.
fn has_room(options: &Options) -> bool
    requires { AreSizes options.now }
    ensures { result ≡ has_budget (config_of options.now 1) && has_live (config_of options.now 1) }
{
    if options.seglets < 4 * (options.segment / options.seglet) || options.seglets > 4_294_967_296 {
        return false;
    }
    if options.live == u64::MAX {
        return true;
    }
    is_limit(&sizes_of(options), options.largest, options.live)
}
