//! The width of levels.

ghost use Rattle.std.specs.Prelude.{◌≤◌};
ghost use Rattle.dk_pqmodel.specs.FilePages.{IsWidth};

/// How many bits a level has (Apache Parquet, "Data Pages"): the least number that has room for the greatest.
pub fn level_width(greatest: u8) -> u8
    ensures room { IsWidth greatest result }
    ensures narrow { result ≤ 8 }
{
    match greatest {
        0 => 0,
        1 => 1,
        2..=3 => 2,
        4..=7 => 3,
        8..=15 => 4,
        16..=31 => 5,
        32..=63 => 6,
        64..=127 => 7,
        128..=255 => 8,
    }
}
