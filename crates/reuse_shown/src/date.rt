//! The date of a moment in UTC.
ghost use Rattle.std.specs.Prelude.{◌≤◌};
ghost use Rattle.reuse_shown.specs.Dates.{IsDateOf, IsYearOf};

use jiff::Timestamp;
use jiff::civil::Date;
use jiff::tz::Offset;
use reuse_change::Moment;

/// The date of a moment in UTC.
pub fn date_of(moment: Moment) -> Date
    ensures { IsDateOf moment result }
{
    let seconds = moment.seconds() as i64;
    let instant = Timestamp::from_second(seconds).unwrap();
    Offset::UTC.to_datetime(instant).date()
}

/// The year of a moment in UTC.
pub fn year_of(moment: Moment) -> u16
    ensures year { IsYearOf moment result }
    ensures in_range { result ≤ 9999 }
{
    date_of(moment).year().unsigned_abs()
}
