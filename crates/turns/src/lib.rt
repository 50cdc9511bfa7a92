// One request to the devices: what they answer, and what that changes in their table.
//
// Rules D2 to D5. The crate holds the definitions and their laws; the calls that make a request are in
// the crate above.
#![tactic(auto)]

// A contest has so many windows: one for each bit of a key.
pub const WINDOWS: u32 = 32;

// What the devices put on the bus for a request: one FF for each dominant window, then the frame of
// a device found or of the end.
#[derive(Clone, Copy)]
pub enum Answer {
    Silence,
    Found {
        dominant: usize,
        serial: u32,
        address: u8,
    },
    End {
        dominant: usize,
    },
}
