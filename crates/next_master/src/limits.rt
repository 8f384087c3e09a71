//! The limit of live bytes that options ask for.

ghost use Rattle.std.specs.Prelude.{◌≡◌, ◌↔◌, IsTrue};
ghost use Rattle.packing.specs.Limits.{AreBounded};
ghost use Rattle.packing.specs.Packing.{AreSound};
ghost use Rattle.next_master.specs.Limits.{SetsLimit, option_sizes};

use command_line::Options;
use packing::{Sizes, greatest_limit};

/// The sizes of a log of these options.
pub(crate) fn sizes_of(options: &Options) -> Sizes
    ensures { result ≡ option_sizes options.now }
{
    Sizes {
        segment: options.segment,
        seglet: options.seglet,
        seglets: options.seglets,
        format: options.format,
    }
}

/// Returns true if segments, seglets and memory are within the ranges of the command line.
fn are_sizes(sizes: &Sizes) -> bool
    ensures { IsTrue result ↔ (AreSound sizes.now × AreBounded sizes.now) }
{
    sizes.seglet >= 64
        && sizes.seglet <= 65_536
        && sizes.segment >= 512
        && sizes.segment <= 8_388_608
        && sizes.seglets <= 4_294_967_296
}

/// The same options, but with the greatest limit of live bytes if they ask for it by 0. Up to that limit a new master
/// can load any table, and then has two whole segments free. If there is no such limit, 0 stays, which the check of a
/// configuration refuses. It takes at most 50 tests of a few divisions each, and no memory.
pub fn with_limit(options: &Options) -> Options
    ensures { SetsLimit options.now result }
{
    let sizes = sizes_of(options);
    if options.live != 0 || !are_sizes(&sizes) {
        return *options;
    }
    let mut limited = *options;
    limited.live = greatest_limit(&sizes, options.largest).unwrap_or(0);
    limited
}
