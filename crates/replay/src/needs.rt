//! How much memory a new master needs to adopt a list.

ghost use Rattle.std.specs.Prelude.{◌≡◌, None, IfSome};
ghost use Rattle.driving.specs.master_core.master_state.Config.{config_fault};
ghost use Rattle.replay.specs.Needs.{needed_for, IsNeeded, NoneIsEnough};

use claims::Rebuilt;
use driving::master_core::Config;
use packing::NewLog;

/// How many seglets a master of this configuration needs to adopt the list, if no take ends in a fault. The number of
/// seglets that the configuration has plays no part. None if no number is enough: the digest of a head has too few
/// places for the segments that the list fills. Objects that are too big for the configuration are counted like others.
/// The call looks at each object once, and takes no memory.
pub fn seglets_needed(rebuilt: &Rebuilt, config: &Config) -> Option<u64>
    requires { config_fault config.now ≡ None }
    ensures needed { IfSome result (λ n. n ≡ needed_for config.now rebuilt.now.objects) }
    ensures enough { IfSome result (λ n. IsNeeded config.now rebuilt.now.objects n) }
    ensures none { result ≡ None → NoneIsEnough config.now rebuilt.now.objects }
{
    let sizes = config.sizes();
    let mut log = NewLog::new(&sizes);
    for object in rebuilt.objects.iter() {
        match log.with_object(&sizes, object.spelled_len() as u64) {
            Some(next) => log = next,
            None => return None,
        }
    }
    Some(log.seglets_needed(&sizes))
}
