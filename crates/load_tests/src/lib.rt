//! Tests of what loads draw, and of how long calls took.
#![tactic(auto)]

ghost use Rattle.std.specs.Prelude.{◌<◌};

#[cfg(test)]
mod tests {
    use load_keys::{Act, Keys, Load, Spread, Words, Zipf};
    use load_report::Latencies;
    use std::alloc::Global;

    /// How often each test draws.
    const DRAWS: u64 = 100_000;

    /// How often a key below the bound was drawn.
    fn count(keys: &Keys, made: u64, key: u64) -> u64
        requires { 0 < made }
    {
        let mut words = Words::new(7);
        let mut found: u64 = 0;
        for _draw in 0..DRAWS {
            if keys.draw(&mut words, made) == key {
                found = found.saturating_add(1);
            }
        }
        found
    }

    /// How often a rank was drawn among so many.
    fn ranked(alloc: Global, ranks: u64, rank: usize) -> Option<u64>
        requires { 0 < ranks }
    {
        let Ok(zipf) = Zipf::new(alloc, ranks) else {
            return None;
        };
        let mut words = Words::new(7);
        let mut found: u64 = 0;
        for _draw in 0..DRAWS {
            if zipf.draw(&mut words) == rank {
                found = found.saturating_add(1);
            }
        }
        Some(found)
    }

    /// The first words of seed 1234567, as the generator's authors give them.
    #[test]
    fn words_are_those_of_the_generator(rt: HostRuntime) {
        let mut words = Words::new(1_234_567);
        assert!(rt; words.word() == 6_457_827_717_110_365_317);
        assert!(rt; words.word() == 3_203_168_211_198_807_973);
    }

    /// Of 100,000 draws among 1,000 ranks, the law gives 12,938 to the first, 6,514 to the second, 1,324 to the tenth
    /// and 135 to the hundredth.
    #[test]
    fn ranks_follow_the_law(rt: HostRuntime) {
        assert!(rt; ranked(rt.alloc(), 1000, 0) == Some(13_008));
        assert!(rt; ranked(rt.alloc(), 1000, 1) == Some(6_631));
        assert!(rt; ranked(rt.alloc(), 1000, 9) == Some(1_385));
        assert!(rt; ranked(rt.alloc(), 1000, 99) == Some(118));
    }

    #[test]
    fn keys_are_spread(rt: HostRuntime) {
        let Ok(uniform) = Keys::new(rt.alloc(), Spread::Uniform, 10) else {
            return;
        };
        assert!(rt; count(&uniform, 10, 0) == 9_906);
        assert!(rt; count(&uniform, 10, 9) == 10_034);
        let Ok(latest) = Keys::new(rt.alloc(), Spread::Latest, 1000) else {
            return;
        };
        assert!(rt; count(&latest, 1000, 999) == 13_008);
        assert!(rt; count(&latest, 1200, 1199) == 13_008);
    }

    #[test]
    fn loads_do_what_they_are_named_for(rt: HostRuntime) {
        assert!(rt; Load::of("E") == None);
        assert!(rt; Load::D.act(94) == Act::Read);
        assert!(rt; Load::D.act(95) == Act::Insert);
        assert!(rt; Load::D.spread() == Spread::Latest);
    }

    /// The time that half of two calls don't exceed, if one took so long, and the other one second.
    fn half(alloc: Global, nanos: u64) -> Option<u64> {
        let Ok(mut latencies) = Latencies::new(alloc) else {
            return None;
        };
        latencies.note(1_000_000_000);
        latencies.note(nanos);
        Some(latencies.percentile(5_000))
    }

    /// Times are at most one part in 32 too large.
    #[test]
    fn classes_are_narrow(rt: HostRuntime) {
        assert!(rt; half(rt.alloc(), 0) == Some(0));
        assert!(rt; half(rt.alloc(), 63) == Some(63));
        assert!(rt; half(rt.alloc(), 64) == Some(65));
        assert!(rt; half(rt.alloc(), 4_096) == Some(4_223));
        assert!(rt; half(rt.alloc(), 999_999) == Some(1_015_807));
    }
}
