/// A minute of the calendar, without its year.
#[derive(Clone, Copy)]
pub struct CivilMinute {
    pub minute: u8,
    pub hour: u8,
    /// From 1.
    pub day: u8,
    /// From 1 for January.
    pub month: u8,
    /// From 0 for Sunday.
    pub weekday: u8,
}
