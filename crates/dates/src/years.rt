// The first day of each year.
ghost use Rattle.std.specs.Prelude.{◌≡◌, ◌<◌};
ghost use Rattle.calendar.specs.Inside.Years.{first_day};
ghost use Rattle.dates.specs.Inside.Found.{entry_of};

// The last day that has a date: 2099-12-31.
pub const LAST_DATED: u32 = 36525;
// How many years have dates, from 2000 on.
pub(crate) const YEARS: usize = 100;

// The first day of 2000, of 2001, and so on.
const FIRST_DAYS: [u16; YEARS] = [
    1, 367, 732, 1097, 1462, 1828, 2193, 2558, 2923, 3289, 3654, 4019, 4384, 4750, 5115, 5480,
    5845, 6211, 6576, 6941, 7306, 7672, 8037, 8402, 8767, 9133, 9498, 9863, 10228, 10594, 10959,
    11324, 11689, 12055, 12420, 12785, 13150, 13516, 13881, 14246, 14611, 14977, 15342, 15707,
    16072, 16438, 16803, 17168, 17533, 17899, 18264, 18629, 18994, 19360, 19725, 20090, 20455,
    20821, 21186, 21551, 21916, 22282, 22647, 23012, 23377, 23743, 24108, 24473, 24838, 25204,
    25569, 25934, 26299, 26665, 27030, 27395, 27760, 28126, 28491, 28856, 29221, 29587, 29952,
    30317, 30682, 31048, 31413, 31778, 32143, 32509, 32874, 33239, 33604, 33970, 34335, 34700,
    35065, 35431, 35796, 36161,
];

// An entry of a table. The table is lent, so that its test is computed over what is given.
#[tactic(auto, unfolding(crate::specs::Inside::Found::entry_of))]
fn entry(days: &[u16; YEARS], k: usize) -> u32
    requires { k < 100 }
    ensures { result ≡ entry_of days.now k }
{
    u32::from(days[k])
}

// The first day of the year that comes k years after 2000.
pub(crate) fn first_day(k: usize) -> u32
    requires { k < 100 }
    ensures { result ≡ first_day k }
{
    entry(&FIRST_DAYS, k)
}
