// Railbus: published packets and made cases, each run through the library and held to what it must
// give. One line for each group says how many were run and how many were right.
#![tactic(auto)]

mod device;
mod packets;
mod phases;
mod rules;

use std::io;

fn main(rt: HostRuntime) -> io::Result<()> {
    packets::published().say(&rt, b"Railbus packets, published")?;
    packets::letters().say(&rt, b"Railbus packets, every prefix with each letter")?;
    packets::characters().say(&rt, b"Railbus packets, each character at each place")?;
    packets::checksums().say(&rt, b"Railbus packets, each checksum")?;
    device::each_access().say(&rt, b"relay, each access byte")?;
    device::each_length().say(&rt, b"relay, lengths of what is lent")?;
    phases::four_calls().say(&rt, b"relay, four calls in every order")
}
