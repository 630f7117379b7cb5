// The Gregorian calendar.
ghost use Rattle.std.specs.Prelude.{◌≡◌};
ghost use Rattle.timestamps.specs.Calendar.{leap_year, days_in};

#[tactic(auto, unfolding(crate::specs::Calendar::leap_year))]
fn is_leap_year(year: usize) -> bool
    ensures { result ≡ leap_year year }
{
    if year % 100 == 0 {
        year % 400 == 0
    } else {
        year % 4 == 0
    }
}

// How many days a month has, January being 1.
#[tactic(auto, unfolding(crate::specs::Calendar::days_in, crate::specs::Calendar::short_month))]
pub fn days_in(year: usize, month: usize) -> usize
    ensures { result ≡ days_in year month }
{
    match month {
        2 if is_leap_year(year) => 29,
        2 => 28,
        4 | 6 | 9 | 11 => 30,
        _ => 31,
    }
}
