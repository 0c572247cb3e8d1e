// "Every number within ±1,099,511,627,776, which is 2^40."
ghost use Rattle.std.specs.Prelude.{◌≡◌};
ghost use Rattle.law_lists.specs.Lists.{all};
ghost use Rattle.rules.specs.Master.{within};

// M7: 2^40, which is 1,099,511,627,776. (It stays apart from the limit of crates/sheet_decimals, which is J22's.)
const LIMIT: i64 = 1 << 40;

// M7: of one number.
#[tactic(auto, unfolding(rules::specs::Master::within))]
fn is_within(z: i64) -> bool
    ensures { result ≡ within z }
{
    (-LIMIT..=LIMIT).contains(&z)
}

pub fn all_within(numbers: &[i64]) -> bool
    ensures { result ≡ all within numbers.now }
{
    numbers.iter().all(|z| is_within(*z))
}
