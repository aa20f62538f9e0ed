// What plan and fit answer.

// A wait for each booked box, at its socket, and the peak with them.
#[derive(Clone, Copy, Debug, PartialEq, Eq)]
pub struct Timetable {
    pub peak: u32,
    pub waits: [Option<u16>; 24],
}
